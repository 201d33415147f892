use super::outlook::{ByOutlook, Indifferent, Outlook};
use super::switch::Switch;
use planning::judge::judge;
use planning::plan::plan;

// Two visits: each policy for both, whatever it looks at, is tried from each condition.
#[test]
fn no_policy_is_better(rt: HostRuntime) {
    let mut values = [Outlook::Doubtful; 7];
    let mut remedies = [9u8; 5];
    assert_eq!(rt;
        plan(&Switch, &ByOutlook, 2, &mut values, &mut remedies),
        Ok(4)
    );
    assert_eq!(rt; remedies, [0, 0, 1, 1, 9]);
    for start in 0..2 {
        for first in 0..2usize {
            for after_bad in 0..2usize {
                for after_good in 0..2usize {
                    let last = if first == 1 { after_good } else { after_bad };
                    assert!(rt; values[start] == Outlook::Sure || last != 1);
                }
            }
        }
    }
    assert_eq!(rt; values[4], Outlook::Doubtful);
    assert_eq!(rt; values[5], Outlook::Sure);
}

#[test]
fn all_is_equal(rt: HostRuntime) {
    let mut values = [7u8; 6];
    let mut remedies = [9u8; 4];
    assert_eq!(rt;
        plan(&Switch, &Indifferent, 2, &mut values, &mut remedies),
        Ok(4)
    );
    assert_eq!(rt; remedies, [0, 0, 0, 0]);
    assert_eq!(rt; values, [1, 1, 1, 1, 0, 0]);
}

#[test]
fn a_plan_is_judged(rt: HostRuntime) {
    let mut values = [Outlook::Doubtful; 6];
    assert_eq!(rt;
        judge(&Switch, &ByOutlook, 2, &[0, 0, 1, 1], &mut values),
        Ok(4)
    );
    assert_eq!(rt; values[0], Outlook::Sure);
    assert_eq!(rt;
        judge(&Switch, &ByOutlook, 2, &[1, 1, 0, 0], &mut values),
        Ok(4)
    );
    assert_eq!(rt; values[0], Outlook::Doubtful);
}
