// The line that asks: `Q`, visits, the letter of a criterion.
ghost use Rattle.std.specs.Prelude.{◌≤◌, IfOk};
ghost use Rattle.fields.specs.Views.{bytes_of};
ghost use Rattle.bookfile.specs.Entered.{FieldsRead};
ghost use Rattle.quoting.specs.Asking.{question_form, asked_values, CriterionRead, QuestionRead};

use fields::faults::{FieldFault, LineFault};
use fields::lines::Line;
use fields::numbers::natural;
use fields::parts::{Fields, Placed, counted, letter};

// The criterion that a letter names.
#[derive(Clone, Copy)]
pub enum By {
    Mean,
    Floor,
}

#[derive(Clone, Copy)]
pub struct Asked {
    pub visits: usize,
    pub by: By,
}

// By a letter, and no TryFrom: the fault names the field's place.
pub fn criterion_of(field: Placed<'_>) -> Result<By, FieldFault>
    ensures { CriterionRead field.entry.line field.entry.place (bytes_of field.entry.field) result }
{
    match letter(field)? {
        'M' => Ok(By::Mean),
        'F' => Ok(By::Floor),
        _ => Err(field.wrong_letter()),
    }
}

// After `Q`: visits, criterion.
fn asked_after(fields: Fields<'_>) -> Result<Asked, FieldFault>
    ensures read { FieldsRead question_form asked_values fields.entry.line fields.entry.place fields.entry.rest.now result }
    ensures few { IfOk result (λ q. (1 ≤ q.visits) × (q.visits ≤ 48)) }
{
    let (visits, fields) = fields.cut();
    let visits = natural(visits, 1, 48)? as usize;
    let (by, _) = fields.cut();
    Ok(Asked {
        visits,
        by: criterion_of(by)?,
    })
}

// What the line asks, or its first fault.
pub fn asked_in(line: Line<'_>) -> Result<Asked, LineFault>
    ensures read { QuestionRead line.entry.number line.entry.text.now result }
    ensures few { IfOk result (λ q. (1 ≤ q.visits) × (q.visits ≤ 48)) }
{
    let (first, rest) = Fields::of(line).cut();
    if letter(first)? != 'Q' {
        return Err(first.wrong_letter().into());
    }
    counted(line, 2)?;
    Ok(asked_after(rest)?)
}
