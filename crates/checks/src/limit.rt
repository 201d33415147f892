ghost use Rattle.std.specs.Prelude.{◌≡◌, ◌≤◌, MatchBool};
ghost use Rattle.model.specs.Visits.{WithinLimit, Fits};
ghost use Rattle.checks.specs.Limit.{Peak, largest_worth, largest_under, largest_in, largest_at, greatest_size};

use super::asked::AskedVisits;
use model::Book;
use model::row::{Outcome, Row};

// The largest size of a worth.
fn greatest_worth<B: Book>(book: &B) -> u64
    ensures { result ≡ largest_worth (B.model book.now) }
{
    (0..book.conditions())
        .map(|condition| book.worth(condition).unsigned_abs())
        .max()
        .unwrap_or(0)
}

// The largest size of an amount.
fn greatest_amount(outcomes: &[Outcome]) -> u64
    ensures { result ≡ greatest_size outcomes.now }
{
    outcomes
        .iter()
        .map(|outcome| outcome.amount.unsigned_abs())
        .max()
        .unwrap_or(0)
}

// The largest size of an amount of share above 0 under a remedy; `row` is room for its outcomes.
// The book and the row are apart: a chain that borrows a struct of both does not say that it leaves the book as it was.
fn greatest_under<B: Book>(
    book: &B,
    visit: usize,
    condition: usize,
    remedy: usize,
    row: &mut Row,
) -> u64
    ensures { result ≡ largest_under (B.model book.now) visit condition remedy }
{
    book.row(visit, condition, remedy, row);
    greatest_amount(row.as_slice())
}

// The largest size of an amount of share above 0 in a condition, under any remedy that is offered there.
fn greatest_in<B: Book>(book: &B, visit: usize, condition: usize, row: &mut Row) -> u64
    ensures { result ≡ largest_in (B.model book.now) visit condition }
{
    (0..book.remedies())
        .filter(|remedy| book.offered(visit, condition, *remedy))
        .map(|remedy| greatest_under(book, visit, condition, remedy, row))
        .max()
        .unwrap_or(0)
}

// The largest size of an amount of share above 0 at a visit, in any condition, under any remedy that is offered there.
fn greatest_at<B: Book>(book: &B, visit: usize, row: &mut Row) -> u64
    ensures { result ≡ largest_at (B.model book.now) visit }
{
    (0..book.conditions())
        .map(|condition| greatest_in(book, visit, condition, row))
        .max()
        .unwrap_or(0)
}

// The largest of 1, every worth, and every amount that may come at the visits, by size.
fn peak<B: Book>(book: &B, visits: usize) -> u64
    ensures { Peak (B.model book.now) visits result }
{
    let mut row = Row::new();
    let mut top = greatest_worth(book).max(1);
    for visit in AskedVisits::new(book, visits) {
        top = top.max(greatest_at(book, visit, &mut row));
    }
    top
}

const LIMIT: u128 = 1 << 62;

// Whether parts ^ visits × (visits + 1) × peak does not pass the limit. From 128 visits on the power is 0, 1 or past it.
fn within_limit(parts: u32, visits: usize, peak: u64) -> bool
    ensures { MatchBool result (WithinLimit parts visits peak) (WithinLimit parts visits peak → ⊥) }
{
    let product = u128::from(parts)
        .saturating_pow(visits.min(128) as u32)
        .saturating_mul(visits as u128 + 1)
        .saturating_mul(u128::from(peak));
    product <= LIMIT
}

// Whether the numbers of the book stay small enough over the visits.
pub(crate) fn fits<B: Book>(book: &B, visits: usize) -> bool
    ensures { MatchBool result (Fits (B.model book.now) visits) (Fits (B.model book.now) visits → ⊥) }
{
    within_limit(book.parts(), visits, peak(book, visits))
}
