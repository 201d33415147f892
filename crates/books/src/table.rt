ghost use Rattle.std.specs.Prelude.{◌≡◌, ◌*◌, length};
ghost use Rattle.books.specs.Entries.{SharesFit, AllSmall};

mod answers;
mod making;

use super::sizes::Sizes;

// A book of full tables: shares and amounts in order of condition, remedy and next condition, and the
// worths, each table lent by itself.
#[derive(Clone, Copy)]
pub struct TableBook<'a> {
    sizes: Sizes,
    shares: &'a [u32],
    amounts: &'a [i64],
    worths: &'a [i64],
    ghost shares_long: { length shares.now ≡ sizes.conditions * sizes.remedies * sizes.conditions },
    ghost amounts_long: { length amounts.now ≡ sizes.conditions * sizes.remedies * sizes.conditions },
    ghost worths_long: { length worths.now ≡ sizes.conditions },
    ghost shares_fit: { SharesFit sizes.parts shares.now },
    ghost amounts_small: { AllSmall amounts.now },
    ghost worths_small: { AllSmall worths.now },
}
