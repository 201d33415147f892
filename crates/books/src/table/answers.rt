// What a table book answers.
ghost use Rattle.std.specs.Prelude.{◌≡◌, ◌+◌, ◌*◌, ◌<◌, ◌≤◌, ◌&&◌, true, false, IfNone, IfSome, nat_lt, slice_index};
ghost use Rattle.books.specs.Alike.{inside, some_above};
ghost use Rattle.books.specs.Lawfuls.{table_book_lawful};
ghost use Rattle.books.specs.Means.{table_means};
ghost use Rattle.books.specs.Tables.{spot};

use super::TableBook;
use crate::limits::last_alike;
use model::Book;
use model::row::{Outcome, Row};

impl TableBook<'_> {
    // Where the row of a condition and a remedy starts in the tables: two numbers, as for a row of a list book.
    fn first_of(&self, condition: usize, remedy: usize) -> usize
        requires { (condition < self.now.sizes.conditions) × (remedy < self.now.sizes.remedies) }
        ensures value { result ≡ spot self.now.sizes.conditions self.now.sizes.remedies condition remedy 0 }
        ensures inside { result + self.now.sizes.conditions ≤ self.now.sizes.conditions * self.now.sizes.remedies * self.now.sizes.conditions }
    {
        (condition * self.sizes.remedies + remedy) * self.sizes.conditions
    }

    // Whether one of the remedy's shares in the condition is above 0.
    fn some_share(&self, condition: usize, remedy: usize) -> bool
        requires { (condition < self.now.sizes.conditions) × (remedy < self.now.sizes.remedies) }
        ensures { result ≡ some_above (λ j. slice_index self.now.shares.now (spot self.now.sizes.conditions self.now.sizes.remedies condition remedy j)) self.now.sizes.conditions }
    {
        let first = self.first_of(condition, remedy);
        let row = &self.shares[first..first + self.sizes.conditions];
        row.iter().any(|share| *share > 0)
    }

    // Where an outcome stands in the tables: nowhere outside the sizes.
    fn spot_of(&self, visit: usize, condition: usize, remedy: usize, next: usize) -> Option<usize>
        ensures outside { IfNone result ((inside self.now.sizes.conditions self.now.sizes.remedies visit condition remedy && nat_lt next self.now.sizes.conditions) ≡ false) }
        ensures inside { IfSome result (λ at. ((inside self.now.sizes.conditions self.now.sizes.remedies visit condition remedy && nat_lt next self.now.sizes.conditions) ≡ true) × (at ≡ spot self.now.sizes.conditions self.now.sizes.remedies condition remedy next) × (at < self.now.sizes.conditions * self.now.sizes.remedies * self.now.sizes.conditions)) }
    {
        if self.sizes.has_outcome(visit, condition, remedy, next) {
            Some(self.first_of(condition, remedy) + next)
        } else {
            None
        }
    }

    // An outcome whose share is known.
    fn outcome_at(
        &self,
        visit: usize,
        condition: usize,
        remedy: usize,
        next: usize,
        share: u32,
    ) -> Outcome
        ensures next { result.next ≡ next }
        ensures share { result.share ≡ share }
        ensures amount { result.amount ≡ (table_means self.now).amount visit condition remedy next }
    {
        Outcome {
            next,
            share,
            amount: self.amount(visit, condition, remedy, next),
        }
    }
}

// The sizes, the worths and the alike visits in one line each, as of a list book: a trait that both share would be longer.
impl Book for TableBook<'_> {
    ghost model = { table_means };

    ghost lawful = { table_book_lawful };

    fn conditions(&self) -> usize {
        self.sizes.conditions
    }

    fn remedies(&self) -> usize {
        self.sizes.remedies
    }

    fn parts(&self) -> u32 {
        self.sizes.parts
    }

    fn offered(&self, visit: usize, condition: usize, remedy: usize) -> bool {
        self.sizes.has(visit, condition, remedy) && self.some_share(condition, remedy)
    }

    fn share(&self, visit: usize, condition: usize, remedy: usize, next: usize) -> u32 {
        self.spot_of(visit, condition, remedy, next)
            .map_or(0, |at| self.shares[at])
    }

    fn amount(&self, visit: usize, condition: usize, remedy: usize, next: usize) -> i64 {
        self.spot_of(visit, condition, remedy, next)
            .map_or(0, |at| self.amounts[at])
    }

    fn worth(&self, condition: usize) -> i64 {
        self.worths.get(condition).copied().unwrap_or(0)
    }

    fn row(&self, visit: usize, condition: usize, remedy: usize, row: &mut Row) {
        row.clear();
        if !self.sizes.has(visit, condition, remedy) {
            return;
        }
        let first = self.first_of(condition, remedy);
        for next in 0..self.sizes.conditions {
            let share = self.shares[first + next];
            if share > 0 {
                row.push(self.outcome_at(visit, condition, remedy, next, share));
            }
        }
    }

    fn alike_until(&self, visit: usize) -> usize {
        last_alike(visit)
    }
}
