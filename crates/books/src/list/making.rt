// Making a list book.
ghost use Rattle.std.specs.Prelude.{[], ◌∷◌, length, pos, ◌<◌, Decides};
ghost use Rattle.books.specs.Entries.{RecordFits, Rising};
ghost use Rattle.books.specs.Making.{FirstFailing, Entered, ListChecked};
ghost use Rattle.books.specs.Made.{OfList, ListNew, ListMade};

use super::ListBook;
use super::listing::Listing;
use crate::limits::{first_large, is_small};
use crate::record::Record;
use crate::refusal::{MakingRefusal, Table};
use crate::sizes::Sizes;

// Whether a record is within the sizes and its share and amount within the limits.
fn record_fits(sizes: Sizes, entry: &Record) -> bool
    ensures { Decides result (RecordFits sizes.conditions sizes.remedies sizes.parts entry.now) }
{
    entry.condition < sizes.conditions
        && entry.remedy < sizes.remedies
        && entry.next < sizes.conditions
        && (1..=sizes.parts).contains(&entry.share)
        && is_small(entry.amount)
}

// Whether the second record stands after the first, by condition, remedy and next condition.
fn rises(first: &Record, second: &Record) -> bool
    ensures { Decides result (Rising first.now second.now) }
{
    first.place() < second.place()
}

// Whether a record is within its limits and stands after the one before it.
fn is_entered(sizes: Sizes, records: &[Record], index: usize) -> bool
    requires { index < length records.now }
    ensures { Decides result (Entered sizes.conditions sizes.remedies sizes.parts records.now index) }
{
    record_fits(sizes, &records[index])
        && (index == 0 || rises(&records[index - 1], &records[index]))
}

// The first record that is outside its limits, or does not stand after the one before it.
fn first_unfit(sizes: Sizes, records: &[Record]) -> Option<usize>
    ensures { FirstFailing (Entered sizes.conditions sizes.remedies sizes.parts records.now) (length records.now) result }
{
    (0..records.len()).find(|index| !is_entered(sizes, records, *index))
}

// Whether records and worths make a book of these sizes, or the first reason why not.
fn check(sizes: Sizes, records: &[Record], worths: &[i64]) -> Result<(), MakingRefusal>
    ensures { ListChecked sizes.conditions sizes.remedies sizes.parts records.now worths.now result }
{
    if worths.len() != sizes.conditions {
        return Err(MakingRefusal::Size);
    }
    Table::Outcomes.sound(first_unfit(sizes, records))?;
    Table::Worths.sound(first_large(worths))
}

impl<'a> ListBook<'a> {
    // The smallest book: nothing listed, worth 0.
    pub fn blank() -> ListBook<'a>
        ensures { OfList 1 1 1 [] (pos 0 ∷ []) result }
    {
        ListBook {
            sizes: Sizes {
                conditions: 1,
                remedies: 1,
                parts: 1,
            },
            listing: Listing { records: &[] },
            worths: &[0],
            starts: [0; 257],
        }
    }

    // The book of the records and worths that are lent. It takes numbers: checked `Sizes` would ask more of callers.
    pub fn new(
        conditions: usize,
        remedies: usize,
        parts: u32,
        records: &'a [Record],
        worths: &'a [i64],
    ) -> Result<ListBook<'a>, MakingRefusal>
        ensures { ListNew conditions remedies parts records.now worths.now result }
    {
        let sizes = Sizes::new(conditions, remedies, parts).ok_or(MakingRefusal::Size)?;
        check(sizes, records, worths)?;
        let listing = Listing { records };
        Ok(ListBook {
            sizes,
            listing,
            worths,
            starts: listing.starts(),
        })
    }

    // Makes it the book of the records and worths that are lent; declined, it is as it stood.
    pub fn remake(
        &mut self,
        conditions: usize,
        remedies: usize,
        parts: u32,
        records: &'a [Record],
        worths: &'a [i64],
    ) -> Result<(), MakingRefusal>
        ensures { ListMade conditions remedies parts records.now worths.now self.old self.new result }
    {
        *self = ListBook::new(conditions, remedies, parts, records, worths)?;
        Ok(())
    }
}
