// The lines that are printed.
ghost use Rattle.std.specs.Prelude.{◌≡◌, ◌++◌, ◌^◌, ◌<◌, pos, IfOk, string_bytes};
ghost use Rattle.answers.specs.Printing.{refusal_line, answer_line, silent_line};

use super::words::word_of;
use std::alloc::AllocError;

// Of a line that is declined, or that cannot be read. That places are numbers of 64 bits has to be said: of a tuple
// that is handed in no limits are known.
pub(crate) fn write_refusal(
    out: &mut String,
    line: usize,
    number: u32,
    places: (usize, usize, usize),
) -> Result<(), AllocError>
    requires { (places.0 < 2 ^ 64) × (places.1 < 2 ^ 64) × (places.2 < 2 ^ 64) }
    ensures { IfOk result (λ _. string_bytes out.new ≡ string_bytes out.old ++ refusal_line line number places) }
{
    let word = word_of(number);
    let (first, second, third) = places;
    writeln!(
        out,
        "N\t{line}\t{number}\t{word}\t{first}\t{second}\t{third}"
    )
}

// Of a line that is answered by a count, a place, a condition or a remedy.
pub(crate) fn write_number(out: &mut String, line: usize, number: usize) -> Result<(), AllocError>
    ensures { IfOk result (λ _. string_bytes out.new ≡ string_bytes out.old ++ answer_line line (pos number)) }
{
    writeln!(out, "A\t{line}\t{number}")
}

// Of a line that is answered by a value or a total.
pub(crate) fn write_total(out: &mut String, line: usize, total: i64) -> Result<(), AllocError>
    ensures { IfOk result (λ _. string_bytes out.new ≡ string_bytes out.old ++ answer_line line total) }
{
    writeln!(out, "A\t{line}\t{total}")
}

// Of a line that got no answer.
pub(crate) fn write_silence(out: &mut String, line: usize) -> Result<(), AllocError>
    ensures { IfOk result (λ _. string_bytes out.new ≡ string_bytes out.old ++ silent_line line) }
{
    writeln!(out, "S\t{line}")
}
