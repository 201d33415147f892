ghost use Rattle.std.specs.Prelude.{◌≤◌};
ghost use Rattle.model.specs.Model.{offers};
ghost use Rattle.checks.specs.Acceptance.{RoomChecked, NumbersChecked, PlanChecked, JudgeChecked};

use super::limit::fits;
use super::refusal::PlanRefusal;
use super::search::{first_misnamed, first_stuck, first_uneven};
use model::Book;

// The visits and the lengths of the tables; the entries of a table of remedies.
fn check_room<B: Book>(
    book: &B,
    visits: usize,
    values: usize,
    remedies: usize,
) -> Result<usize, PlanRefusal>
    ensures { RoomChecked (offers (B.model book.now)) visits values remedies result }
{
    if !(1..=48).contains(&visits) {
        return Err(PlanRefusal::Visits);
    }
    let conditions = book.conditions();
    let filled = visits * conditions;
    if values < filled + conditions || remedies < filled {
        return Err(PlanRefusal::Short);
    }
    Ok(filled)
}

// The shares and the number limit.
fn check_numbers<B: Book>(book: &B, visits: usize) -> Result<(), PlanRefusal>
    ensures { NumbersChecked (B.model book.now) visits result }
{
    if let Some((visit, condition, remedy)) = first_uneven(book, visits) {
        return Err(PlanRefusal::Uneven {
            visit,
            condition,
            remedy,
        });
    }
    if !fits(book, visits) {
        return Err(PlanRefusal::Fine);
    }
    Ok(())
}

// Whether a plan can be made with tables of these lengths: the entries that it fills with remedies, or why not.
pub fn check_plan<B: Book>(
    book: &B,
    visits: usize,
    values: usize,
    remedies: usize,
) -> Result<usize, PlanRefusal>
    ensures { PlanChecked (B.model book.now) visits values remedies result }
{
    let filled = check_room(book, visits, values, remedies)?;
    if let Some((visit, condition)) = first_stuck(book, visits) {
        return Err(PlanRefusal::Stuck { visit, condition });
    }
    check_numbers(book, visits)?;
    Ok(filled)
}

// Whether the table of remedies can be judged, with a table of values of this length.
pub fn check_judgement<B: Book>(
    book: &B,
    visits: usize,
    values: usize,
    remedies: &[u8],
) -> Result<usize, PlanRefusal>
    ensures { JudgeChecked (B.model book.now) visits values remedies.now result }
{
    let filled = check_room(book, visits, values, remedies.len())?;
    if let Some((visit, condition, remedy)) = first_misnamed(book, visits, remedies) {
        return Err(PlanRefusal::Rule {
            visit,
            condition,
            remedy,
        });
    }
    check_numbers(book, visits)?;
    Ok(filled)
}
