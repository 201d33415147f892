use crate::list::ListBook;
use crate::record::Record;
use crate::refusal::MakingRefusal;
use crate::table::TableBook;
use model::Book;
use std::process::Abort;

// Made, or the number, the table and the index of the refusal.
type Told = Result<(), (u32, usize, usize)>;

fn as_told(answer: Result<(), MakingRefusal>) -> Told {
    answer.map_err(|refusal| {
        let (table, index, _) = refusal.places();
        (refusal.number(), table, index)
    })
}

fn list_told(
    conditions: usize,
    remedies: usize,
    parts: u32,
    records: &[Record],
    worths: &[i64],
) -> Told {
    let mut book = ListBook::blank();
    as_told(book.remake(conditions, remedies, parts, records, worths))
}

fn table_told(shares: &[u32], amounts: &[i64], worths: &[i64]) -> Told {
    let mut book = TableBook::blank();
    as_told(book.remake(2, 2, 10, shares, amounts, worths))
}

// Conditions, remedies, parts, how many worths are lent, and what is told.
const SIZES: [(usize, usize, u32, usize, Told); 11] = [
    (1, 1, 1, 1, Ok(())),
    (32, 8, 1000, 32, Ok(())),
    (0, 1, 1, 0, Err((12, 0, 0))),
    (33, 8, 1000, 33, Err((12, 0, 0))),
    (32, 0, 1000, 32, Err((12, 0, 0))),
    (32, 9, 1000, 32, Err((12, 0, 0))),
    (32, 8, 0, 32, Err((12, 0, 0))),
    (32, 8, 1001, 32, Err((12, 0, 0))),
    (32, 8, 1000, 31, Err((12, 0, 0))),
    (31, 8, 1000, 32, Err((12, 0, 0))),
    (usize::MAX, usize::MAX, u32::MAX, 33, Err((12, 0, 0))),
];

#[test]
fn list_sizes(rt: HostRuntime) {
    let worths = [0; 33];
    for (conditions, remedies, parts, length, told) in SIZES {
        assert!(rt; length <= 33);
        assert_eq!(rt;
            list_told(conditions, remedies, parts, &[], &worths[..length]),
            told
        );
    }
}

// A second record and a second worth: condition, remedy, next, share, amount, worth, and what is told.
const ENTRIES: [(usize, usize, usize, u32, i64, i64, Told); 19] = [
    (0, 1, 1, 10, 1_000_000, 1_000_000, Ok(())),
    (1, 0, 0, 1, -1_000_000, -1_000_000, Ok(())),
    (0, 1, 1, 10, 1_000_001, 0, Err((13, 1, 1))),
    (0, 1, 1, 10, -1_000_001, 0, Err((13, 1, 1))),
    (0, 1, 1, 10, i64::MIN, 0, Err((13, 1, 1))),
    (0, 1, 0, 10, 0, 0, Err((13, 1, 1))),
    (0, 0, 1, 10, 0, 0, Err((13, 1, 1))),
    (0, 1, 1, 0, 0, 0, Err((13, 1, 1))),
    (0, 1, 1, 11, 0, 0, Err((13, 1, 1))),
    (0, 1, 1, u32::MAX, 0, 0, Err((13, 1, 1))),
    (2, 0, 0, 10, 0, 0, Err((13, 1, 1))),
    (1, 2, 0, 10, 0, 0, Err((13, 1, 1))),
    (1, 1, 2, 10, 0, 0, Err((13, 1, 1))),
    (usize::MAX, 1, 1, 10, 0, 0, Err((13, 1, 1))),
    (1, 1, usize::MAX, 10, 0, 0, Err((13, 1, 1))),
    (0, 1, 1, 10, 0, 1_000_001, Err((13, 3, 1))),
    (0, 1, 1, 10, 0, -1_000_001, Err((13, 3, 1))),
    (0, 1, 1, 10, 0, i64::MIN, Err((13, 3, 1))),
    (0, 1, 1, 11, 0, 1_000_001, Err((13, 1, 1))),
];

#[test]
fn list_entries(rt: HostRuntime) {
    for (condition, remedy, next, share, amount, worth, told) in ENTRIES {
        let first = Record {
            condition: 0,
            remedy: 1,
            next: 0,
            share: 10,
            amount: 0,
        };
        let second = Record {
            condition,
            remedy,
            next,
            share,
            amount,
        };
        let records = [first, second];
        let worths = [0, worth];
        assert_eq!(rt; list_told(2, 2, 10, &records, &worths), told);
    }
}

// Condition, remedy and next of two records, and whether the second may follow the first.
const ORDERS: [((usize, usize, usize), (usize, usize, usize), bool); 7] = [
    ((0, 0, 0), (0, 0, 1), true),
    ((0, 0, 1), (0, 1, 0), true),
    ((0, 1, 1), (1, 0, 0), true),
    ((1, 1, 1), (1, 1, 1), false),
    ((0, 0, 1), (0, 0, 0), false),
    ((0, 1, 0), (0, 0, 1), false),
    ((1, 0, 0), (0, 1, 1), false),
];

fn record_at(place: (usize, usize, usize)) -> Record {
    Record {
        condition: place.0,
        remedy: place.1,
        next: place.2,
        share: 1,
        amount: 0,
    }
}

#[test]
fn list_orders(rt: HostRuntime) {
    for (first, second, follows) in ORDERS {
        let records = [record_at(first), record_at(second)];
        let told = if follows { Ok(()) } else { Err((13, 1, 1)) };
        assert_eq!(rt; list_told(2, 2, 10, &records, &[0, 0]), told);
    }
}

// How many shares, amounts and worths are lent, one of each, and what is told.
const TABLES: [(usize, usize, usize, u32, i64, i64, Told); 16] = [
    (8, 8, 2, 10, 1_000_000, -1_000_000, Ok(())),
    (8, 8, 2, 10, -1_000_000, 1_000_000, Ok(())),
    (7, 8, 2, 10, 0, 0, Err((12, 0, 0))),
    (9, 8, 2, 10, 0, 0, Err((12, 0, 0))),
    (8, 7, 2, 10, 0, 0, Err((12, 0, 0))),
    (8, 9, 2, 10, 0, 0, Err((12, 0, 0))),
    (8, 8, 1, 10, 0, 0, Err((12, 0, 0))),
    (8, 8, 3, 10, 0, 0, Err((12, 0, 0))),
    (8, 8, 2, 11, 0, 0, Err((13, 1, 5))),
    (8, 8, 2, 10, 1_000_001, 0, Err((13, 2, 6))),
    (8, 8, 2, 10, -1_000_001, 0, Err((13, 2, 6))),
    (8, 8, 2, 10, i64::MIN, 0, Err((13, 2, 6))),
    (8, 8, 2, 10, 0, 1_000_001, Err((13, 3, 1))),
    (8, 8, 2, 10, 0, -1_000_001, Err((13, 3, 1))),
    (8, 8, 2, 11, 1_000_001, 1_000_001, Err((13, 1, 5))),
    (8, 8, 2, 10, 1_000_001, 1_000_001, Err((13, 2, 6))),
];

#[test]
fn tables(rt: HostRuntime) {
    for (a, b, w, share, amount, worth, told) in TABLES {
        assert!(rt; a <= 9 && b <= 9 && w <= 3);
        let shares = [0, 10, 0, 0, 0, share, 0, 0, 0];
        let amounts = [0, 7, 0, 0, 0, -5, amount, 0, 0];
        let worths = [20, worth, 0];
        assert_eq!(rt; table_told(&shares[..a], &amounts[..b], &worths[..w]), told);
    }
}

// What both books of one content answer: visit, condition, remedy, next, then offered, share and amount.
const ANSWERS: [(usize, usize, usize, usize, bool, u32, i64); 12] = [
    (1, 0, 0, 1, true, 10, 7),
    (48, 0, 0, 1, true, 10, 7),
    (1, 0, 0, 0, true, 0, 0),
    (1, 1, 1, 0, true, 4, -5),
    (1, 1, 1, 1, true, 6, 0),
    (1, 0, 1, 0, false, 0, 0),
    (1, 1, 0, 1, false, 0, 0),
    (0, 0, 0, 1, false, 0, 0),
    (49, 0, 0, 1, false, 0, 0),
    (1, 0, 0, 2, true, 0, 0),
    (1, 2, 0, 1, false, 0, 0),
    (1, 0, 2, 1, false, 0, 0),
];

fn answers<B: Book>(rt: &impl Abort, book: &B) {
    for (visit, condition, remedy, next, offered, share, amount) in ANSWERS {
        assert_eq!(rt; book.offered(visit, condition, remedy), offered);
        assert_eq!(rt; book.share(visit, condition, remedy, next), share);
        assert_eq!(rt; book.amount(visit, condition, remedy, next), amount);
    }
    assert_eq!(rt;
        (book.conditions(), book.remedies(), book.parts()),
        (2, 2, 10)
    );
    assert_eq!(rt; (book.worth(0), book.worth(1), book.worth(2)), (20, -30, 0));
}

#[test]
fn list_answers(rt: HostRuntime) {
    let records = [
        Record {
            condition: 0,
            remedy: 0,
            next: 1,
            share: 10,
            amount: 7,
        },
        Record {
            condition: 1,
            remedy: 1,
            next: 0,
            share: 4,
            amount: -5,
        },
        Record {
            condition: 1,
            remedy: 1,
            next: 1,
            share: 6,
            amount: 0,
        },
    ];
    let worths = [20, -30];
    let mut book = ListBook::blank();
    assert!(rt; book.remake(2, 2, 10, &records, &worths).is_ok());
    assert!(rt; book.remake(2, 2, 9, &records, &worths).is_err());
    answers(&rt, &book);
}

#[test]
fn table_answers(rt: HostRuntime) {
    let shares = [0, 10, 0, 0, 0, 0, 4, 6];
    let amounts = [0, 7, 0, 0, 0, 0, -5, 0];
    let worths = [20, -30];
    let mut book = TableBook::blank();
    assert!(rt; book.remake(2, 2, 10, &shares, &amounts, &worths).is_ok());
    assert!(rt; book.remake(2, 2, 9, &shares, &amounts, &worths).is_err());
    answers(&rt, &book);
}
