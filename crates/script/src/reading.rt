// From the fields of a line to what it says.
ghost use Rattle.std.specs.Prelude.{◌≡◌, ◌+◌, ◌<◌, ◌^◌, length};
ghost use Rattle.fields.specs.Lines.{split};
ghost use Rattle.fields.specs.Checking.{check_field};
ghost use Rattle.fields.specs.Views.{bytes_of, Answers};
ghost use Rattle.script.specs.declared.word.Word.TheVariants.{Bar, Surcharge, Prolong, Lift, Plan, Judge, Begin, Report};
ghost use Rattle.script.specs.Orders.{number};
ghost use Rattle.script.specs.Commands.{RestRead, TableRead, JudgeRead, CommandAnswers};
ghost use Rattle.script.specs.Forms.{check_order};

use super::command::{Command, NoteCall, Unread};
use super::word::Word;
use fields::faults::{FieldFault, LineFault};
use fields::lines::Line;
use fields::numbers::{natural, signed_number};
use fields::parts::{Fields, Placed};
use following::call::RoundCall;
use quoting::question::criterion_of;
use std::alloc::Global;

// A number as scripts have them.
fn number_in(field: Placed<'_>) -> Result<usize, FieldFault>
    ensures { Answers (check_field field.entry.line field.entry.place number (bytes_of field.entry.field)) result }
{
    Ok(natural(field, 0, u32::MAX)? as usize)
}

// After `bar`: condition, remedy, first and last visit.
fn bar_in(fields: Fields<'_>) -> Result<Command, FieldFault>
    ensures { RestRead Bar fields.entry.line fields.entry.place fields.entry.rest.now result }
{
    let (condition, fields) = fields.cut();
    let (remedy, fields) = fields.cut();
    let (first, fields) = fields.cut();
    let (last, _) = fields.cut();
    Ok(Command::Note(NoteCall::Bar {
        condition: number_in(condition)?,
        remedy: number_in(remedy)?,
        first: number_in(first)?,
        last: number_in(last)?,
    }))
}

// After `surcharge`: remedy, amount, first and last visit.
fn surcharge_in(fields: Fields<'_>) -> Result<Command, FieldFault>
    ensures { RestRead Surcharge fields.entry.line fields.entry.place fields.entry.rest.now result }
{
    let (remedy, fields) = fields.cut();
    let (amount, fields) = fields.cut();
    let (first, fields) = fields.cut();
    let (last, _) = fields.cut();
    Ok(Command::Note(NoteCall::Surcharge {
        remedy: number_in(remedy)?,
        amount: signed_number(amount, u32::MAX)?,
        first: number_in(first)?,
        last: number_in(last)?,
    }))
}

// After `prolong`: place, last visit.
fn prolong_in(fields: Fields<'_>) -> Result<Command, FieldFault>
    ensures { RestRead Prolong fields.entry.line fields.entry.place fields.entry.rest.now result }
{
    let (place, fields) = fields.cut();
    let (last, _) = fields.cut();
    Ok(Command::Note(NoteCall::Prolong {
        place: number_in(place)?,
        last: number_in(last)?,
    }))
}

// After `lift`: place.
fn lift_in(fields: Fields<'_>) -> Result<Command, FieldFault>
    ensures { RestRead Lift fields.entry.line fields.entry.place fields.entry.rest.now result }
{
    let (place, _) = fields.cut();
    Ok(Command::Note(NoteCall::Lift {
        place: number_in(place)?,
    }))
}

// After `plan`: the letter of a criterion, visits.
fn plan_in(fields: Fields<'_>) -> Result<Command, FieldFault>
    ensures { RestRead Plan fields.entry.line fields.entry.place fields.entry.rest.now result }
{
    let (by, fields) = fields.cut();
    let (visits, _) = fields.cut();
    Ok(Command::Plan {
        by: criterion_of(by)?,
        visits: number_in(visits)?,
    })
}

// After `begin`: visits, condition.
fn begin_in(fields: Fields<'_>) -> Result<Command, FieldFault>
    ensures { RestRead Begin fields.entry.line fields.entry.place fields.entry.rest.now result }
{
    let (visits, fields) = fields.cut();
    let (condition, _) = fields.cut();
    Ok(Command::Begin {
        visits: number_in(visits)?,
        condition: number_in(condition)?,
    })
}

// After `report`: next condition.
fn report_in(fields: Fields<'_>) -> Result<Command, FieldFault>
    ensures { RestRead Report fields.entry.line fields.entry.place fields.entry.rest.now result }
{
    let (next, _) = fields.cut();
    Ok(Command::Turn(RoundCall::Report {
        next: number_in(next)?,
    }))
}

// So many remedies of a table.
fn remedies_in(heap: Global, mut fields: Fields<'_>, count: usize) -> Result<Vec<u8>, Unread>
    requires { fields.place + count < 2 ^ 64 }
    ensures { TableRead count fields.entry.line fields.entry.place fields.entry.rest.now result }
{
    let mut remedies = Vec::new(heap);
    for _ in 0..count {
        let (field, rest) = fields.cut();
        remedies.push(natural(field, 0, 255)? as u8)?;
        fields = rest;
    }
    Ok(remedies)
}

// After `judge`: the letter of a criterion, visits, and so many remedies of a table.
fn judge_in(heap: Global, fields: Fields<'_>, count: usize) -> Result<Command, Unread>
    requires { fields.place + count + 2 < 2 ^ 64 }
    ensures { JudgeRead count fields.entry.line fields.entry.place fields.entry.rest.now result }
{
    let (by, fields) = fields.cut();
    let by = criterion_of(by)?;
    let (visits, fields) = fields.cut();
    let visits = number_in(visits)?;
    let remedies = remedies_in(heap, fields, count)?;
    Ok(Command::Judge {
        by,
        visits,
        remedies,
    })
}

// How many fields follow the first.
#[tactic(auto, using(fields::proofs::CodeLines::parts_after))]
fn fields_following(line: Line<'_>) -> usize
    ensures { result ≡ length (split 9 line.entry.text.now).1 }
{
    line.text.iter().filter(|b| **b == b'\t').count()
}

// What a line says.
pub(crate) fn command_of(heap: Global, line: Line<'_>) -> Result<Command, Unread>
    ensures { CommandAnswers (check_order line.entry.number line.entry.text.now) result }
{
    let (first, rest) = Fields::of(line).cut();
    let word = Word::of(first)?;
    let count = fields_following(line);
    if count != word.fields(count) {
        return Err(LineFault::Count { line: line.number }.into());
    }
    Ok(match word {
        Word::Bar => bar_in(rest)?,
        Word::Surcharge => surcharge_in(rest)?,
        Word::Prolong => prolong_in(rest)?,
        Word::Lift => lift_in(rest)?,
        Word::Plan => plan_in(rest)?,
        Word::Judge => judge_in(heap, rest, count - 2)?,
        Word::Begin => begin_in(rest)?,
        Word::Treat => Command::Turn(RoundCall::Treat),
        Word::Report => report_in(rest)?,
        Word::Settle => Command::Turn(RoundCall::Settle),
    })
}
