// What each line of a book file says.
ghost use Rattle.std.specs.Prelude.{◌<◌, IfOk};
ghost use Rattle.bookfile.specs.Entries.{FitsSizes, FitsEntry};
ghost use Rattle.bookfile.specs.Entered.{SizesRead, EntryRead, FieldsRead, size_values, record_values, worth_values};
ghost use Rattle.bookfile.specs.File.{size_form, record_form, worth_form};

use books::record::Record;
use books::sizes::Sizes;
use fields::faults::{FieldFault, LineFault};
use fields::lines::Line;
use fields::numbers::{natural, signed_number};
use fields::parts::{Fields, counted, letter};

// The largest amount or worth of a file, either way.
const MOST: u32 = 1_000_000;

// A line after the first: a record, the worth of a condition, or the end, which is a line too.
#[derive(Clone, Copy)]
pub(crate) enum Entry {
    Outcome(Record),
    Worth { condition: usize, worth: i64 },
    End,
}

// After `B`: conditions, remedies, parts.
fn sizes_in(fields: Fields<'_>) -> Result<Sizes, FieldFault>
    ensures { FieldsRead size_form size_values fields.entry.line fields.entry.place fields.entry.rest.now result }
{
    let (conditions, fields) = fields.cut();
    let (remedies, fields) = fields.cut();
    let (parts, _) = fields.cut();
    Ok(Sizes {
        conditions: natural(conditions, 1, 32)? as usize,
        remedies: natural(remedies, 1, 8)? as usize,
        parts: natural(parts, 1, 1000)?,
    })
}

// The first line.
pub(crate) fn sizes_of(line: Line<'_>) -> Result<Sizes, LineFault>
    ensures { SizesRead line.entry.number line.entry.text.now result }
{
    let (first, rest) = Fields::of(line).cut();
    if letter(first)? != 'B' {
        return Err(first.wrong_letter().into());
    }
    counted(line, 3)?;
    Ok(sizes_in(rest)?)
}

// After `R`: condition, remedy, next, share, amount.
fn record_of(sizes: Sizes, fields: Fields<'_>) -> Result<Record, FieldFault>
    ensures read { FieldsRead (record_form sizes.conditions sizes.remedies sizes.parts) record_values fields.entry.line fields.entry.place fields.entry.rest.now result }
    ensures fits { IfOk result (FitsSizes sizes) }
{
    let last = sizes.conditions as u32 - 1;
    let (condition, fields) = fields.cut();
    let condition = natural(condition, 0, last)? as usize;
    let (remedy, fields) = fields.cut();
    let remedy = natural(remedy, 0, sizes.remedies as u32 - 1)? as usize;
    let (next, fields) = fields.cut();
    let next = natural(next, 0, last)? as usize;
    let (share, fields) = fields.cut();
    let share = natural(share, 1, sizes.parts)?;
    let (amount, _) = fields.cut();
    let amount = signed_number(amount, MOST)?;
    Ok(Record {
        condition,
        remedy,
        next,
        share,
        amount,
    })
}

// After `C`: condition, worth.
fn worth_of(sizes: Sizes, fields: Fields<'_>) -> Result<(usize, i64), FieldFault>
    ensures read { FieldsRead (worth_form sizes.conditions) worth_values fields.entry.line fields.entry.place fields.entry.rest.now result }
    ensures fits { IfOk result (λ p. p.0 < sizes.conditions) }
{
    let (condition, fields) = fields.cut();
    let (worth, _) = fields.cut();
    let condition = natural(condition, 0, sizes.conditions as u32 - 1)? as usize;
    Ok((condition, signed_number(worth, MOST)?))
}

// A line after the first, where the worths of some conditions stand already: records come before all
// worths, then a worth for each condition, then the end.
pub(crate) fn entry_of(sizes: Sizes, worths: usize, line: Line<'_>) -> Result<Entry, LineFault>
    ensures read { EntryRead sizes worths line.entry.number line.entry.text.now result }
    ensures fits { IfOk result (FitsEntry sizes worths) }
{
    let (first, rest) = Fields::of(line).cut();
    match letter(first)? {
        'R' if worths == 0 => {
            counted(line, 5)?;
            Ok(Entry::Outcome(record_of(sizes, rest)?))
        }
        'C' if worths < sizes.conditions => {
            counted(line, 2)?;
            let (condition, worth) = worth_of(sizes, rest)?;
            Ok(Entry::Worth { condition, worth })
        }
        'E' if worths >= sizes.conditions => {
            counted(line, 0)?;
            Ok(Entry::End)
        }
        _ => Err(first.wrong_letter().into()),
    }
}
