ghost use Rattle.std.specs.Prelude.{◌≡◌, ℕ, ◌≤◌};
ghost use Rattle.model.specs.Model.{Model, Lawful};
ghost use Rattle.model.specs.Rows.{outcomes, Alike};

use super::row::{Outcome, Row};

// A book of remedies: sizes, parts and four answers. Conditions and remedies count from 0, visits from 1.
// `model` is all of it as one value; every number may be asked, and beyond the sizes, or at a visit
// outside 1 to 48, the answer is not offered, or 0. Other books are written to this interface, so a question
// takes plain numbers.
pub trait Book {
    ghost model: { Self → Model };

    ghost lawful: { (b : Self) → Lawful (model b) };

    fn conditions(&self) -> usize
        ensures { result ≡ (model self.now).conditions };

    fn remedies(&self) -> usize
        ensures { result ≡ (model self.now).remedies };

    fn parts(&self) -> u32
        ensures { result ≡ (model self.now).parts };

    // Whether the remedy may be given at the visit, in the condition.
    fn offered(&self, visit: usize, condition: usize, remedy: usize) -> bool
        ensures { result ≡ (model self.now).offered visit condition remedy };

    // In how many of the parts the next condition follows.
    fn share(&self, visit: usize, condition: usize, remedy: usize, next: usize) -> u32
        ensures { result ≡ (model self.now).share visit condition remedy next };

    // What is gained when it follows; a cost is below 0.
    fn amount(&self, visit: usize, condition: usize, remedy: usize, next: usize) -> i64
        ensures { result ≡ (model self.now).amount visit condition remedy next };

    // What the condition is worth after the last visit.
    fn worth(&self, condition: usize) -> i64
        ensures { result ≡ (model self.now).worth condition };

    // Makes `row` the outcomes of share above 0, in order of the next condition.
    fn row(&self, visit: usize, condition: usize, remedy: usize, row: &mut Row)
        ensures { row.new.items ≡ outcomes (model self.now) visit condition remedy (model self.now).conditions }
    {
        row.clear();
        for next in 0..self.conditions() {
            let share = self.share(visit, condition, remedy, next);
            if share > 0 {
                row.push(Outcome {
                    next,
                    share,
                    amount: self.amount(visit, condition, remedy, next),
                });
            }
        }
    }

    // A visit from which back to this one every answer is the same: this one itself, unless the book knows better.
    fn alike_until(&self, visit: usize) -> usize
        ensures { (visit ≤ result) × ((n : ℕ) → visit ≤ n → n ≤ result → Alike (model self.now) visit n) }
    {
        visit
    }
}
