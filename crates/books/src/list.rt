ghost use Rattle.std.specs.Prelude.{◌≡◌, length};
ghost use Rattle.books.specs.Entries.{AllPlaced, AllValued, AllSmall, RowsStart};

mod answers;
mod listing;
mod making;

use self::listing::Listing;
use super::sizes::Sizes;

// A book that lists what may happen: records rising by condition, remedy and next condition, and the
// worths. What is not listed has share 0 and amount 0. `starts` has, for every condition and remedy, how
// many records stand before theirs, and last how many there are: a row is found without a search.
// They are numbers, as slices would say the same twice over; records and worths are lent each by itself.
#[derive(Clone, Copy)]
pub struct ListBook<'a> {
    sizes: Sizes,
    listing: Listing<'a>,
    worths: &'a [i64],
    starts: [usize; 257],
    ghost worths_long: { length worths.now ≡ sizes.conditions },
    ghost records_placed: { AllPlaced sizes.conditions sizes.remedies listing.records.now },
    ghost records_valued: { AllValued sizes.parts listing.records.now },
    ghost worths_small: { AllSmall worths.now },
    ghost rows_start: { RowsStart listing.records.now starts },
}
