// What a list book answers.
ghost use Rattle.std.specs.Prelude.{◌≡◌, ◌<◌, pos, MatchOption};
ghost use Rattle.books.specs.Alike.{some_above};
ghost use Rattle.books.specs.Entries.{IsRow, no_record};
ghost use Rattle.books.specs.Listed.{listed};
ghost use Rattle.books.specs.Lawfuls.{list_book_lawful};
ghost use Rattle.books.specs.Means.{list_means};

use super::ListBook;
use crate::limits::last_alike;
use crate::record::Record;
use model::Book;
use model::row::Row;

impl<'a> ListBook<'a> {
    // The records that it stands on.
    pub fn records(&self) -> &'a [Record]
        ensures { result.now ≡ self.now.listing.records.now }
    {
        self.listing.records
    }

    // The worths that it stands on.
    pub fn worths(&self) -> &'a [i64]
        ensures { result.now ≡ self.now.worths.now }
    {
        self.worths
    }

    // The records of a condition and a remedy, two numbers: a type for the pair would be made in every look-up.
    fn row_of(&self, condition: usize, remedy: usize) -> &'a [Record]
        requires { (condition < self.now.sizes.conditions) × (remedy < self.now.sizes.remedies) }
        ensures { IsRow self.now.listing.records.now condition remedy result.now }
    {
        let row = condition * 8 + remedy;
        &self.listing.records[self.starts[row]..self.starts[row + 1]]
    }

    // Whether a record has this condition and this remedy.
    fn lists(&self, condition: usize, remedy: usize) -> bool
        requires { (condition < self.now.sizes.conditions) × (remedy < self.now.sizes.remedies) }
        ensures { result ≡ some_above (λ j. (listed self.now.listing.records.now condition remedy j).share) self.now.sizes.conditions }
    {
        !self.row_of(condition, remedy).is_empty()
    }

    // The record of an outcome within the sizes, if there is one: looked up in its row, which rises by next condition.
    fn look_up(&self, condition: usize, remedy: usize, next: usize) -> Option<&'a Record>
        requires { (condition < self.now.sizes.conditions) × (remedy < self.now.sizes.remedies) × (next < self.now.sizes.conditions) }
        ensures { MatchOption result (listed self.now.listing.records.now condition remedy next ≡ no_record) (λ found. listed self.now.listing.records.now condition remedy next ≡ found.now) }
    {
        let row = self.row_of(condition, remedy);
        let found = row.get(row.partition_point(|record| record.next < next));
        found.filter(|found| found.next == next)
    }

    // The record of an outcome, if it is listed; none is outside the sizes.
    fn record_of(
        &self,
        visit: usize,
        condition: usize,
        remedy: usize,
        next: usize,
    ) -> Option<&'a Record>
        ensures share { MatchOption result ((list_means self.now).share visit condition remedy next ≡ 0) (λ found. (list_means self.now).share visit condition remedy next ≡ found.now.share) }
        ensures amount { MatchOption result ((list_means self.now).amount visit condition remedy next ≡ pos 0) (λ found. (list_means self.now).amount visit condition remedy next ≡ found.now.amount) }
    {
        if self.sizes.has_outcome(visit, condition, remedy, next) {
            self.look_up(condition, remedy, next)
        } else {
            None
        }
    }
}

// The sizes, the worths and the alike visits in one line each, as of a table book: a trait that both share would be longer.
impl Book for ListBook<'_> {
    ghost model = { list_means };

    ghost lawful = { list_book_lawful };

    fn conditions(&self) -> usize {
        self.sizes.conditions
    }

    fn remedies(&self) -> usize {
        self.sizes.remedies
    }

    fn parts(&self) -> u32 {
        self.sizes.parts
    }

    fn offered(&self, visit: usize, condition: usize, remedy: usize) -> bool {
        self.sizes.has(visit, condition, remedy) && self.lists(condition, remedy)
    }

    fn share(&self, visit: usize, condition: usize, remedy: usize, next: usize) -> u32 {
        self.record_of(visit, condition, remedy, next)
            .map_or(0, |found| found.share)
    }

    fn amount(&self, visit: usize, condition: usize, remedy: usize, next: usize) -> i64 {
        self.record_of(visit, condition, remedy, next)
            .map_or(0, |found| found.amount)
    }

    fn worth(&self, condition: usize) -> i64 {
        self.worths.get(condition).copied().unwrap_or(0)
    }

    fn row(&self, visit: usize, condition: usize, remedy: usize, row: &mut Row) {
        row.clear();
        if !self.sizes.has(visit, condition, remedy) {
            return;
        }
        for found in self.row_of(condition, remedy) {
            row.push(found.outcome());
        }
    }

    fn alike_until(&self, visit: usize) -> usize {
        last_alike(visit)
    }
}
