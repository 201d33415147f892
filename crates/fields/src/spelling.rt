// Writing numbers in base ten.
ghost use Rattle.std.specs.Prelude.{◌≡◌};
ghost use Rattle.fields.specs.Numerals.{numeral};

use arrayvec::ArrayString;
use itoa::Buffer;

// The digits of a number, of which there are 20 at most.
#[tactic(auto, using(crate::proofs::Printed::numeral_printed))]
pub fn digits_of(number: u64) -> ArrayString<20>
    ensures { result.bytes ≡ numeral number }
{
    let mut digits = ArrayString::new();
    digits.push_str(Buffer::new().format(number));
    digits
}
