// Numbers in base ten.
ghost use Rattle.std.specs.Prelude.{◌≡◌, ◌^◌, ◌≤◌, min, IfOk, MatchOption, unsigned_abs};
ghost use Rattle.fields.specs.Numerals.{AllDigits, BaseTen, value};
ghost use Rattle.fields.specs.Kinds.Kind.{from_to, either_way};
ghost use Rattle.fields.specs.Checking.{check_field};
ghost use Rattle.fields.specs.Views.{bytes_of, Answers, AnswersSigned};

use super::faults::FieldFault;
use super::parts::{Field, Placed};

// A number is held here: none that a field may have is as large.
const HELD: u64 = 1 << 32;

// The number that digits write, held at 2^32.
fn digits(part: &[u8]) -> Option<u64>
    ensures { MatchOption result (AllDigits part.now → ⊥) (λ n. AllDigits part.now × (n ≡ min (value part.now) (2 ^ 32))) }
{
    let mut number: u64 = 0;
    // a loop: of a fold the closure would have to keep the number small
    for digit in part {
        if !digit.is_ascii_digit() {
            return None;
        }
        number = (number * 10 + u64::from(*digit - b'0')).min(HELD);
    }
    Some(number)
}

// The number that digits without a leading zero write, held at 2^32.
fn decimal(part: &[u8]) -> Option<u64>
    ensures { MatchOption result (BaseTen part.now → ⊥) (λ n. BaseTen part.now × (n ≡ min (value part.now) (2 ^ 32))) }
{
    match part {
        [] | [b'0', _, ..] => None,
        _ => digits(part),
    }
}

// The number from `low` to `high` that a part of the field writes.
#[tactic(auto, using(crate::proofs::CodeNumbers::number_ill))]
fn limited(field: Placed<'_>, part: &[u8], low: u32, high: u32) -> Result<u32, FieldFault>
    ensures read { Answers (check_field field.entry.line field.entry.place (from_to low high) part.now) result }
    ensures bound { IfOk result (λ n. (low ≤ n) × (n ≤ high)) }
{
    let Placed { line, place, .. } = field;
    match decimal(part) {
        Some(n) if (u64::from(low)..=u64::from(high)).contains(&n) => Ok(n as u32),
        Some(_) => Err(FieldFault::Range { line, field: place }),
        None => Err(FieldFault::Malformed { line, field: place }),
    }
}

// A number from `low` to `high`.
#[tactic(auto, using(crate::proofs::CodeNumbers::unnumbered, crate::proofs::CodeNumbers::number_ill))]
pub fn natural(field: Placed<'_>, low: u32, high: u32) -> Result<u32, FieldFault>
    ensures read { Answers (check_field field.entry.line field.entry.place (from_to low high) (bytes_of field.entry.field)) result }
    ensures bound { IfOk result (λ n. (low ≤ n) × (n ≤ high)) }
{
    let Placed { line, place, .. } = field;
    match field.field {
        Field::Number(part) => limited(field, part, low, high),
        _ => Err(FieldFault::Malformed { line, field: place }),
    }
}

// A number of at most `most` either way: a minus stands before one below 0.
pub fn signed_number(field: Placed<'_>, most: u32) -> Result<i64, FieldFault>
    ensures read { AnswersSigned (check_field field.entry.line field.entry.place (either_way most) (bytes_of field.entry.field)) result }
    ensures bound { IfOk result (λ z. unsigned_abs z ≤ most) }
{
    let Placed { line, place, .. } = field;
    match field.field {
        Field::Number([b'-', digits @ ..]) => match limited(field, digits, 0, most)? {
            0 => Err(FieldFault::Malformed { line, field: place }),
            n => Ok(-i64::from(n)),
        },
        _ => Ok(i64::from(natural(field, 0, most)?)),
    }
}
