ghost use Rattle.std.specs.Prelude.{◌≡◌, ◌*◌, ◌^◌, ◌<◌, ◌≤◌, length, sum_by, MatchBool, MatchOption};
ghost use Rattle.model.specs.Model.{offers};
ghost use Rattle.model.specs.Visits.{SomeOffered, Unoffered, Open, Uneven, Even};
ghost use Rattle.checks.specs.Places.{FirstStuck, FirstUneven, FirstMisnamed, WellNamed, EvenUnder, FirstBare, FirstUnevenIn, FirstUnevenAt, FirstMisnamedAt};

use super::asked::AskedVisits;
use super::visit::visit_of;
use model::Book;
use model::row::{Outcome, Row};

// Whether any remedy is offered there.
fn any_offered<B: Book>(book: &B, visit: usize, condition: usize) -> bool
    ensures { MatchBool result (SomeOffered (offers (B.model book.now)) visit condition) (Unoffered (offers (B.model book.now)) visit condition) }
{
    (0..book.remedies()).any(|remedy| book.offered(visit, condition, remedy))
}

// The first condition in which nothing is offered at the visit.
fn bare_condition<B: Book>(book: &B, visit: usize) -> Option<usize>
    ensures { FirstBare (offers (B.model book.now)) visit result }
{
    (0..book.conditions()).find(|condition| !any_offered(book, visit, *condition))
}

// The first place where nothing is offered.
pub(crate) fn first_stuck<B: Book>(book: &B, visits: usize) -> Option<(usize, usize)>
    ensures { MatchOption result (Open (offers (B.model book.now)) visits) (λ p. FirstStuck (offers (B.model book.now)) visits p.0 p.1) }
{
    for visit in AskedVisits::new(book, visits) {
        if let Some(condition) = bare_condition(book, visit) {
            return Some((visit, condition));
        }
    }
    None
}

// The sum of the shares.
fn total_share(outcomes: &[Outcome]) -> u32
    requires { sum_by (λ x. x.share) outcomes.now < 2 ^ 32 }
    ensures { result ≡ sum_by (λ x. x.share) outcomes.now }
{
    outcomes.iter().map(|outcome| outcome.share).sum()
}

// Whether a remedy is offered there whose shares do not add to the parts; `row` is room for its outcomes,
// apart from the book, as in limit.rt.
fn is_uneven<B: Book>(
    book: &B,
    visit: usize,
    condition: usize,
    remedy: usize,
    row: &mut Row,
) -> bool
    ensures { MatchBool result (Uneven (B.model book.now) visit condition remedy) (EvenUnder (B.model book.now) visit condition remedy) }
{
    if !book.offered(visit, condition, remedy) {
        return false;
    }
    book.row(visit, condition, remedy, row);
    total_share(row.as_slice()) != book.parts()
}

// The first remedy offered in the condition whose shares do not add to the parts.
fn uneven_remedy<B: Book>(book: &B, visit: usize, condition: usize, row: &mut Row) -> Option<usize>
    ensures { FirstUnevenIn (B.model book.now) visit condition result }
{
    (0..book.remedies()).find(|remedy| is_uneven(book, visit, condition, *remedy, row))
}

// The first condition of the visit with an offered remedy whose shares do not add to the parts, and that remedy.
fn uneven_place<B: Book>(book: &B, visit: usize, row: &mut Row) -> Option<(usize, usize)>
    ensures { FirstUnevenAt (B.model book.now) visit result }
{
    for condition in 0..book.conditions() {
        if let Some(remedy) = uneven_remedy(book, visit, condition, row) {
            return Some((condition, remedy));
        }
    }
    None
}

// The first offered remedy whose shares do not add to the parts, with its place.
pub(crate) fn first_uneven<B: Book>(book: &B, visits: usize) -> Option<(usize, usize, usize)>
    ensures { MatchOption result (Even (B.model book.now) visits) (λ p. FirstUneven (B.model book.now) visits p.0 p.1 p.2) }
{
    let mut row = Row::new();
    for visit in AskedVisits::new(book, visits) {
        if let Some((condition, remedy)) = uneven_place(book, visit, &mut row) {
            return Some((visit, condition, remedy));
        }
    }
    None
}

// The first condition for which the visit's part of a table names a remedy that is not offered, with that remedy.
fn misnamed_condition<B: Book>(book: &B, visit: usize, named: &[u8]) -> Option<(usize, usize)>
    ensures { FirstMisnamedAt (offers (B.model book.now)) visit named.now result }
{
    named
        .iter()
        .map(|remedy| usize::from(*remedy))
        .enumerate()
        .find(|(condition, remedy)| !book.offered(visit, *condition, *remedy))
}

// The first place where the table names a remedy that is not offered, with that remedy.
pub(crate) fn first_misnamed<B: Book>(
    book: &B,
    visits: usize,
    remedies: &[u8],
) -> Option<(usize, usize, usize)>
    requires { visits * (B.model book.now).conditions ≤ length remedies.now }
    ensures { MatchOption result (WellNamed (offers (B.model book.now)) remedies.now visits) (λ p. FirstMisnamed (offers (B.model book.now)) remedies.now visits p.0 p.1 p.2) }
{
    let conditions = book.conditions();
    for (row, named) in remedies.chunks_exact(conditions).take(visits).enumerate() {
        let visit = visit_of(row);
        if let Some((condition, remedy)) = misnamed_condition(book, visit, named) {
            return Some((visit, condition, remedy));
        }
    }
    None
}
