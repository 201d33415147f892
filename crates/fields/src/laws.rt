// What holds of numerals and lines; each contract is a theorem.
ghost use Rattle.fields.specs.Numerals.{NumeralsAreBaseTen, NumeralsArePrinted};
ghost use Rattle.fields.specs.Checking.{LineFaultsAreExact};

// A numeral is the digits of its number in base ten; the fault that is found in a line is its first.
pub fn line_faults_are_exact()
    ensures numerals { NumeralsAreBaseTen }
    ensures faults { LineFaultsAreExact }
{}

// What std prints of a number, plain or with a sign, is its numeral.
#[tactic(auto, using(crate::proofs::Printed::numeral_printed, crate::proofs::Printed::signed_printed))]
pub fn numerals_are_printed()
    ensures { NumeralsArePrinted }
{}
