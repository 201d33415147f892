// Records in their order, and how they are searched.
ghost use Rattle.std.specs.Prelude.{◌*◌, ◌<◌};
ghost use Rattle.books.specs.Entries.{AllPlaced, KeysRise, StandBefore, RowsStart, rank};

use crate::record::{Place, Record};

// Records rising by place.
#[derive(Clone, Copy)]
pub(super) struct Listing<'a> {
    pub(super) records: &'a [Record],
    ghost placed: { AllPlaced 32 8 records.now },
    ghost rise: { KeysRise records.now },
}

impl<'a> Listing<'a> {
    // How many of the records stand before a place.
    fn before(&self, place: Place) -> usize
        requires { (place.remedy < 8) × (place.next < 32) }
        ensures { StandBefore self.now.records.now (rank place.condition place.remedy place.next) result }
    {
        self.records
            .partition_point(|record| record.place() < place)
    }

    // How many of the records stand before a row: a condition and a remedy, in order 8 × condition + remedy.
    fn before_row(&self, row: usize) -> usize
        ensures { StandBefore self.now.records.now (row * 32) result }
    {
        self.before(Place {
            condition: row / 8,
            remedy: row % 8,
            next: 0,
        })
    }

    // The same of every row, and of what would be the next one.
    pub(super) fn starts(&self) -> [usize; 257]
        ensures { RowsStart self.now.records.now result }
    {
        std::array::from_fn(|row| self.before_row(row))
    }
}
