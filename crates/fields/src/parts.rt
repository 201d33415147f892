// The fields of a line, parted by tabs.
ghost use Rattle.std.specs.Prelude.{◌≡◌, ◌≢◌, true, false, length, MatchResult};
ghost use Rattle.std.specs.Char.{is_ascii_alphabetic};
ghost use Rattle.fields.specs.Lines.{split};
ghost use Rattle.fields.specs.Views.{bytes_of, rightly_told, lone_letter, CutField, LeftAfter};

use super::faults::{FieldFault, LineFault};
use super::lines::{Line, parted};

// A field as a part of the line: a letter, what may be a number, or another part.
#[derive(Clone, Copy)]
pub enum Field<'a> {
    Letter(char),
    Number(&'a [u8]),
    Other(&'a [u8]),
}

// A field and where it stands.
#[derive(Clone, Copy)]
pub struct Placed<'a> {
    pub line: usize,
    pub place: usize,
    pub field: Field<'a>,
    ghost told: { rightly_told field ≡ true },
}

// What is left of a line, from the field with this place on.
#[derive(Clone, Copy)]
pub struct Fields<'a> {
    line: usize,
    place: usize,
    rest: &'a [u8],
}

impl<'a> From<&'a [u8]> for Field<'a> {
    ghost from_gives = { λ part f. (bytes_of f ≡ part.now) × (rightly_told f ≡ true) };

    fn from(part: &'a [u8]) -> Field<'a> {
        match part {
            [b] if b.is_ascii_alphabetic() => Field::Letter(char::from(*b)),
            [b'0'..=b'9' | b'-', ..] => Field::Number(part),
            _ => Field::Other(part),
        }
    }
}

impl Placed<'_> {
    // The fault of a letter that may not stand here, or of no letter at all.
    pub fn wrong_letter(&self) -> FieldFault
        ensures { result ≡ FieldFault.Letter self.now.line self.now.place }
    {
        FieldFault::Letter {
            line: self.line,
            field: self.place,
        }
    }
}

impl<'a> Fields<'a> {
    pub fn of(line: Line<'a>) -> Fields<'a>
        ensures { (result.line ≡ line.entry.number) × (result.place ≡ 1) × (result.rest.now ≡ line.entry.text.now) }
    {
        Fields {
            line: line.number,
            place: 1,
            rest: line.text,
        }
    }

    // The next field, and the fields after it. Past the last one it is empty: who cuts has counted the fields.
    pub fn cut(self) -> (Placed<'a>, Fields<'a>)
        ensures field { CutField self.entry.line self.entry.place self.entry.rest.now result.0.line result.0.place result.0.field }
        ensures after { LeftAfter self.entry.line self.entry.place self.entry.rest.now result.1.line result.1.place result.1.rest.now }
    {
        let Fields { line, place, rest } = self;
        let (part, after) = parted(b'\t', rest).unwrap_or((rest, &[]));
        let field = Field::from(part);
        (
            Placed { line, place, field },
            Fields {
                line,
                place: place.saturating_add(1),
                rest: after,
            },
        )
    }
}

// A line must have exactly so many fields after its letter.
#[tactic(auto, using(crate::proofs::CodeLines::parts_after))]
pub fn counted(line: Line<'_>, after: usize) -> Result<(), LineFault>
    ensures { MatchResult result (λ _. length (split 9 line.entry.text.now).1 ≡ after) (λ e. (e ≡ LineFault.Count line.entry.number) × (length (split 9 line.entry.text.now).1 ≢ after)) }
{
    let Line { number, tabs, .. } = line;
    if tabs == after {
        Ok(())
    } else {
        Err(LineFault::Count { line: number })
    }
}

// The letter of a field.
pub fn letter(field: Placed<'_>) -> Result<char, FieldFault>
    ensures { MatchResult result (λ c. (field.entry.field ≡ Field.Letter c) × (is_ascii_alphabetic c ≡ true)) (λ e. (e ≡ FieldFault.Letter field.entry.line field.entry.place) × (lone_letter (bytes_of field.entry.field) ≡ false)) }
{
    match field.field {
        Field::Letter(c) => Ok(c),
        _ => Err(field.wrong_letter()),
    }
}
