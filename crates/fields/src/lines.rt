// Lines of bytes, each ended by a newline.
ghost use Rattle.std.specs.Prelude.{◌≡◌, ◌<◌, [], ◌∷◌, ◌++◌, ◌==◌, length, take, count_by, MatchOption, MatchResult};
ghost use Rattle.fields.specs.Lines.{split};
ghost use Rattle.fields.specs.Views.{LineCut, NoLine};

use super::faults::LineFault;

// A line without its newline, its number, and how many tabs stand in it: they are counted while its end is looked for.
#[derive(Clone, Copy)]
pub struct Line<'a> {
    pub number: usize,
    pub text: &'a [u8],
    pub(crate) tabs: usize,
    ghost counted: { tabs ≡ count_by (λ x. x == 9) text.now },
}

impl<'a> Line<'a> {
    // The line of a text that was cut by other means; its tabs are counted here.
    pub fn new(number: usize, text: &'a [u8]) -> Line<'a>
        ensures number { result.number ≡ number }
        ensures text { result.text.now ≡ text.now }
    {
        let tabs = text.iter().filter(|byte| **byte == b'\t').count();
        Line { number, text, tabs }
    }
}

// Where a byte first stands.
pub fn place_of(byte: u8, bytes: &[u8]) -> Option<usize>
    ensures { MatchOption result (split byte bytes.now ≡ (bytes.now, [])) (λ at. (at ≡ length (split byte bytes.now).0) × (at < length bytes.now)) }
{
    bytes.iter().position(|b| *b == byte)
}

// The bytes before the first such byte, and those after it.
#[tactic(auto, using(crate::proofs::CodeLines::parted_whole, crate::proofs::CodeLines::parted_split))]
pub(crate) fn parted<'a>(byte: u8, bytes: &'a [u8]) -> Option<(&'a [u8], &'a [u8])>
    ensures { MatchOption result (split byte bytes.now ≡ (bytes.now, [])) (λ p. (bytes.now ≡ p.0.now ++ (byte ∷ p.1.now)) × (split byte bytes.now ≡ (p.0.now, (split byte p.1.now).0 ∷ (split byte p.1.now).1))) }
{
    let at = place_of(byte, bytes)?;
    Some((&bytes[..at], &bytes[at + 1..]))
}

// Where the first newline stands, and how many tabs before it.
fn end_of(bytes: &[u8]) -> Option<(usize, usize)>
    ensures { MatchOption result (split 10 bytes.now ≡ (bytes.now, [])) (λ p. (p.0 ≡ length (split 10 bytes.now).0) × (p.0 < length bytes.now) × (p.1 ≡ count_by (λ x. x == 9) (take p.0 bytes.now))) }
{
    let mut tabs = 0;
    for (at, byte) in bytes.iter().enumerate() {
        match *byte {
            b'\n' => return Some((at, tabs)),
            b'\t' => tabs += 1,
            _ => {}
        }
    }
    None
}

// The line that the bytes begin with, and the bytes after it.
pub fn cut_line<'a>(number: usize, bytes: &'a [u8]) -> Result<(Line<'a>, &'a [u8]), LineFault>
    ensures { MatchResult result (λ p. LineCut number bytes.now p.0.number p.0.text.now p.1.now) (NoLine number bytes.now) }
{
    let Some((end, tabs)) = end_of(bytes) else {
        return Err(LineFault::Unended { line: number });
    };
    let text = &bytes[..end];
    Ok((Line { number, text, tabs }, &bytes[end + 1..]))
}
