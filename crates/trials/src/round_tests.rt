use super::switch::Switch;
use books::list::ListBook;
use checks::refusal::PlanRefusal;
use following::call::{Reply, RoundCall, Turn};
use following::follow::{Unfollowed, follow};
use model::Book;
use rounds::refusal::RoundRefusal::{self, Early, Impossible, Over, Rule, Short, Unknown, Visits};
use rounds::state::{Arrived, Treated, begin};
use std::test::Fail;

// A lock of one visit that was given remedy 1 in the condition.
fn in_care(condition: usize) -> Result<Treated, RoundRefusal> {
    begin(&Switch, 1, condition)?
        .treat(&Switch, &[1, 1])
        .map_err(|declined| declined.refusal)
}

// A lock whose one visit is over, in condition 1.
fn past() -> Result<Arrived, RoundRefusal> {
    in_care(0)?
        .report(&Switch, 1)
        .map_err(|declined| declined.refusal)
}

// The remedy that a lock is given, or why it is given none.
fn treated<B: Book>(lock: Arrived, book: &B, remedies: &[u8]) -> Result<usize, RoundRefusal> {
    match lock.treat(book, remedies) {
        Ok(lock) => Ok(lock.remedy()),
        Err(declined) => Err(declined.refusal),
    }
}

// The visit that a lock comes to, or why it comes to none.
fn reported<B: Book>(lock: Treated, book: &B, next: usize) -> Result<usize, RoundRefusal> {
    match lock.report(book, next) {
        Ok(lock) => Ok(lock.visit()),
        Err(declined) => Err(declined.refusal),
    }
}

fn settled<B: Book>(lock: Arrived, book: &B) -> Result<i64, RoundRefusal> {
    lock.settle(book).map_err(|declined| declined.refusal)
}

// The visits are asked about before the condition.
#[test]
fn beginnings(rt: HostRuntime) {
    let calls = [
        (0, 1, Some(Visits)),
        (0, 2, Some(Visits)),
        (49, 1, Some(Visits)),
        (49, 2, Some(Visits)),
        (1, 2, Some(Unknown)),
        (48, 2, Some(Unknown)),
        (1, 1, None),
        (48, 0, None),
    ];
    for (visits, condition, refusal) in calls {
        assert_eq!(rt; begin(&Switch, visits, condition).err(), refusal);
    }
}

// Over before unknown, unknown before short, short before a remedy that is not offered.
#[test]
fn treatments(rt: HostRuntime) -> Result<(), Fail> {
    let unoffered = Rule {
        visit: 1,
        condition: 1,
        remedy: 5,
    };
    assert_eq!(rt;
        treated(begin(&Switch, 2, 1)?, &ListBook::blank(), &[5]),
        Err(Unknown)
    );
    assert_eq!(rt;
        treated(begin(&Switch, 2, 1)?, &Switch, &[0, 5, 0]),
        Err(Short)
    );
    assert_eq!(rt;
        treated(begin(&Switch, 2, 1)?, &Switch, &[0, 5, 0, 0]),
        Err(unoffered)
    );
    assert_eq!(rt;
        treated(begin(&Switch, 2, 1)?, &Switch, &[0, 1, 0, 0, 7]),
        Ok(1)
    );
    assert_eq!(rt; treated(past()?, &ListBook::blank(), &[]), Err(Over));
    Ok(())
}

// Unknown, also of the lock's own condition or remedy, before impossible.
#[test]
fn reports(rt: HostRuntime) -> Result<(), Fail> {
    assert_eq!(rt; reported(in_care(1)?, &Switch, 2), Err(Unknown));
    assert_eq!(rt; reported(in_care(1)?, &ListBook::blank(), 0), Err(Unknown));
    assert_eq!(rt; reported(in_care(0)?, &ListBook::blank(), 0), Err(Unknown));
    assert_eq!(rt; reported(in_care(1)?, &Switch, 0), Err(Impossible));
    assert_eq!(rt; reported(in_care(1)?, &Switch, 1), Ok(2));
    Ok(())
}

// Early before unknown.
#[test]
fn settlings(rt: HostRuntime) -> Result<(), Fail> {
    assert_eq!(rt;
        settled(begin(&Switch, 1, 1)?, &ListBook::blank()),
        Err(Early)
    );
    assert_eq!(rt; settled(past()?, &ListBook::blank()), Err(Unknown));
    assert_eq!(rt; settled(past()?, &Switch), Ok(1));
    Ok(())
}

fn turns(calls: [RoundCall; 7]) -> [Turn; 7] {
    calls.map(|call| Turn { call, reply: None })
}

// The floor keeps to remedy 0 until the last visit. A declined report stays with its lock; nothing follows the settling.
#[test]
fn followed(rt: HostRuntime) {
    let mut values = [9; 6];
    let mut remedies = [9; 4];
    let calls = [
        RoundCall::Treat,
        RoundCall::Report { next: 1 },
        RoundCall::Report { next: 0 },
        RoundCall::Treat,
        RoundCall::Report { next: 1 },
        RoundCall::Settle,
        RoundCall::Treat,
    ];
    let mut lines = turns(calls);
    let replies = [
        Some(Reply::Treated { remedy: 0 }),
        Some(Reply::Declined(Impossible)),
        Some(Reply::Reported),
        Some(Reply::Treated { remedy: 1 }),
        Some(Reply::Reported),
        Some(Reply::Settled { total: 1 }),
        None,
    ];
    assert_eq!(rt;
        follow(&Switch, 2, 0, &mut values, &mut remedies, &mut lines),
        Ok(6)
    );
    assert_eq!(rt; lines.map(|turn| turn.reply), replies);
    assert_eq!(rt; (values[0], remedies), (1, [0, 0, 1, 1]));
    assert_eq!(rt;
        follow(&Switch, 3, 0, &mut values, &mut remedies, &mut lines),
        Err(Unfollowed::Plan(PlanRefusal::Short))
    );
    assert_eq!(rt;
        follow(&Switch, 2, 2, &mut values, &mut remedies, &mut lines),
        Err(Unfollowed::Begin(Unknown))
    );
    assert_eq!(rt; lines.map(|turn| turn.reply), replies);
}
