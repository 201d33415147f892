ghost use Rattle.std.specs.Prelude.{◌≡◌};
ghost use Rattle.sheets.specs.Flat.{within_two, flat_model, flat_lawful};
ghost use Rattle.sheets.specs.Notes.{noted};

use super::note::{Effect, Note, Visits};
use super::refusal::NoteRefusal;
use super::refusal::NoteRefusal::*;
use super::sheet::Sheet;
use model::Book;
use std::alloc::Global;
use std::test::Fail;

// Two conditions, two remedies; each amount is one unit short of the hold.
#[derive(Clone, Copy)]
struct Flat;

fn within(visit: usize, condition: usize, remedy: usize, next: usize) -> bool
    ensures { result ≡ within_two visit condition remedy next }
{
    (1..=48).contains(&visit) && condition < 2 && remedy < 2 && next < 2
}

impl Book for Flat {
    ghost model = { λ _. flat_model };

    ghost lawful = { λ _. flat_lawful };

    fn conditions(&self) -> usize {
        2
    }

    fn remedies(&self) -> usize {
        2
    }

    fn parts(&self) -> u32 {
        1
    }

    fn offered(&self, visit: usize, condition: usize, remedy: usize) -> bool {
        within(visit, condition, remedy, 0)
    }

    fn share(&self, _visit: usize, _condition: usize, _remedy: usize, _next: usize) -> u32 {
        0
    }

    fn amount(&self, visit: usize, condition: usize, remedy: usize, next: usize) -> i64 {
        if within(visit, condition, remedy, next) {
            999_999_999
        } else {
            0
        }
    }

    fn worth(&self, _condition: usize) -> i64 {
        0
    }
}

fn laid<B: Book + Drop>(heap: Global, book: B) -> Result<Sheet<B>, Fail> {
    Sheet::new(heap, book).map_err(|_| Fail::new("no memory"))
}

// A sheet over a sheet holds each amount once more.
fn upper_amount<B: Book>(upper: &Sheet<Sheet<B>>, visit: usize) -> i64
    ensures { result ≡ (noted (noted (B.Book.model upper.now.book.book) upper.now.book.notes) upper.now.notes).amount visit 0 1 0 }
{
    upper.amount(visit, 0, 1, 0)
}

// The spans a bar may have, and which of two refusals comes first.
#[test]
fn spans_and_order(rt: HostRuntime) -> Result<(), Fail> {
    let mut sheet = laid(rt.alloc(), Flat)?;
    let calls = [
        (0, 0, 1, 48, Ok(1)),
        (1, 1, 48, 48, Ok(2)),
        (0, 0, 1, 49, Err(Span)),
        (0, 0, 0, 1, Err(Span)),
        (0, 0, 9, 8, Err(Span)),
        (2, 0, 1, 49, Err(Unknown)),
        (0, 2, 0, 1, Err(Unknown)),
    ];
    for (condition, remedy, first, last, answer) in calls {
        assert_eq!(rt; sheet.bar(condition, remedy, first, last), answer);
    }
    Ok(())
}

// A million either way is the most.
#[test]
fn dear_surcharges(rt: HostRuntime) -> Result<(), Fail> {
    let mut sheet = laid(rt.alloc(), Flat)?;
    let calls = [
        (0, 1_000_000, 1, 48, Ok(1)),
        (1, -1_000_000, 1, 1, Ok(2)),
        (1, 0, 48, 48, Ok(3)),
        (0, 1_000_001, 1, 1, Err(Dear)),
        (0, -1_000_001, 1, 1, Err(Dear)),
        (0, 0, 1, 49, Err(Span)),
        (0, 0, 0, 1, Err(Span)),
        (0, 1_000_001, 1, 49, Err(Span)),
        (2, 1_000_001, 1, 49, Err(Unknown)),
    ];
    for (remedy, amount, first, last, answer) in calls {
        assert_eq!(rt; sheet.surcharge(remedy, amount, first, last), answer);
    }
    Ok(())
}

// A note lasts from its first visit at the least to visit 48 at the most.
#[test]
fn prolonged_spans(rt: HostRuntime) -> Result<(), Fail> {
    let mut sheet = laid(rt.alloc(), Flat)?;
    assert_eq!(rt; sheet.surcharge(0, 1, 9, 10), Ok(1));
    let calls = [
        (1, 48, Ok(1)),
        (1, 49, Err(Span)),
        (1, 9, Ok(1)),
        (1, 8, Err(Span)),
        (0, 48, Err(Unknown)),
        (2, 48, Err(Unknown)),
    ];
    for (place, last, answer) in calls {
        assert_eq!(rt; sheet.prolong(place, last), answer);
    }
    assert_eq!(rt;
        sheet.note(1),
        Some(Note {
            remedy: 0,
            visits: Visits { first: 9, last: 9 },
            effect: Effect::Surcharge { amount: 1 },
        })
    );
    Ok(())
}

// 24 notes and no more, and one again after a lift.
#[test]
fn full_sheet(rt: HostRuntime) -> Result<(), Fail> {
    let mut sheet = laid(rt.alloc(), Flat)?;
    for place in 1..=24 {
        assert_eq!(rt; sheet.bar(0, 1, 1, place), Ok(place));
    }
    assert_eq!(rt; sheet.surcharge(0, 0, 1, 1), Err(Full));
    assert_eq!(rt; sheet.surcharge(0, 1_000_001, 1, 1), Err(Dear));
    assert_eq!(rt; sheet.lift(7), Ok(23));
    assert_eq!(rt; sheet.prolong(7, 48), Ok(7));
    assert_eq!(rt; sheet.prolong(24, 49), Err(Unknown));
    assert_eq!(rt;
        sheet.note(7),
        Some(Note {
            remedy: 1,
            visits: Visits { first: 1, last: 48 },
            effect: Effect::Bar { condition: 0 },
        })
    );
    assert_eq!(rt; sheet.surcharge(0, 0, 1, 1), Ok(24));
    Ok(())
}

// Each sheet holds its own sums.
#[test]
fn sheet_over_sheet(rt: HostRuntime) -> Result<(), Fail> {
    let mut lower = laid(rt.alloc(), Flat)?;
    assert_eq!(rt; lower.surcharge(1, 5, 3, 4), Ok(1));
    assert_eq!(rt; lower.bar(0, 1, 3, 4), Ok(2));
    let mut upper = laid(rt.alloc(), lower)?;
    assert_eq!(rt; upper.surcharge(1, -7, 4, 5), Ok(1));
    assert!(rt; !upper.offered(4, 0, 1) && upper.offered(5, 0, 1) && upper.offered(4, 1, 1));
    let amounts = [
        (2, 999_999_999),
        (3, 1_000_000_000),
        (4, 999_999_993),
        (5, 999_999_992),
        (49, 0),
    ];
    for (visit, amount) in amounts {
        assert_eq!(rt; upper_amount(&upper, visit), amount);
    }
    Ok(())
}
