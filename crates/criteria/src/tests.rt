// The two criteria on numbers worked out by hand.
use super::by::By;
use super::criterion::Criterion;
use super::floor::Floor;
use super::mean::Mean;

#[test]
fn mean_adds_share_times_all_that_follows(rt: HostRuntime) {
    // 7 + 3 × (4^0 × 10 − 2)
    assert_eq!(rt; Mean::of(16).enter(1, 4, 3, 10, -2, 7), 31);
    // 0 + 1 × (4^2 × 10 + 5)
    assert_eq!(rt;
        Mean::of(16).enter(3, 4, 1, 10, 5, Mean::of(16).blank()),
        165
    );
    assert_eq!(rt; Mean::of(16).close(4, Mean::of(16).closing(-165)), -165);
}

#[test]
fn mean_holds_what_is_too_large(rt: HostRuntime) {
    // 1000^47 is held at 2^63 − 1, then −7
    assert_eq!(rt;
        Mean::of(16).enter(48, 1000, 1, 1, -7, 0),
        9223372036854775800
    );
    // −(2^63 − 1) − 1 is the lowest, and one less is held there
    assert_eq!(rt; Mean::of(16).enter(48, 1000, 1, -1, -1, -1), i64::MIN);
    // 2^62 is not held
    assert_eq!(rt; Mean::of(16).enter(63, 2, 1, 1, 0, 0), 4611686018427387904);
}

#[test]
fn floor_takes_the_smaller(rt: HostRuntime) {
    let first = Floor.enter(1, 4, 3, 10, -2, Floor.blank());
    assert_eq!(rt; first, 8);
    assert_eq!(rt; Floor.enter(1, 4, 1, 20, -15, first), 5);
    assert_eq!(rt; Floor.enter(1, 4, 1, 1, 100, first), 8);
    assert_eq!(rt; Floor.enter(1, 4, 1, -1, i64::MIN, first), i64::MIN);
    assert_eq!(rt;
        Floor.enter(1, 4, 1, 1, i64::MAX, Floor.blank()),
        9223372036854775807
    );
    assert_eq!(rt; Floor.close(4, Floor.closing(-8)), -8);
}

#[test]
fn both_take_more_for_better(rt: HostRuntime) {
    assert!(rt; Mean::of(16).good(i64::MAX, i64::MIN) && Floor.good(i64::MAX, i64::MIN));
    assert!(rt; Mean::of(16).good(3, 3) && Floor.good(3, 3));
    assert!(rt; !Mean::of(16).good(2, 3) && !Floor.good(2, 3));
}

#[test]
fn chosen_criteria_are_the_two(rt: HostRuntime) {
    let both = [By::Mean(Mean::of(4)), By::Floor(Floor)];
    let entered = [31, 7];
    for (by, sum) in both.iter().zip(entered) {
        assert_eq!(rt; by.enter(1, 4, 3, 10, -2, 7), sum);
    }
}
