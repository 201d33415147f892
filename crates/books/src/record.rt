ghost use Rattle.std.specs.Prelude.{◌≡◌};
ghost use Rattle.books.specs.Entries.{outcome_of};

use model::row::Outcome;

// Where a record stands in its list: records rise by condition, then remedy, then next condition.
#[derive(Clone, Copy, Debug, PartialEq, Eq, PartialOrd, Ord)]
pub struct Place {
    pub condition: usize,
    pub remedy: usize,
    pub next: usize,
}

// One listed outcome: under a remedy in a condition, a next condition with its share and amount.
#[derive(Clone, Copy, Debug, Default, PartialEq)]
pub struct Record {
    pub condition: usize,
    pub remedy: usize,
    pub next: usize,
    pub share: u32,
    pub amount: i64,
}

impl Record {
    pub fn place(&self) -> Place
        ensures condition { result.condition ≡ self.now.condition }
        ensures remedy { result.remedy ≡ self.now.remedy }
        ensures next { result.next ≡ self.now.next }
    {
        Place {
            condition: self.condition,
            remedy: self.remedy,
            next: self.next,
        }
    }

    pub(crate) fn outcome(&self) -> Outcome
        ensures { result ≡ outcome_of self.now }
    {
        Outcome {
            next: self.next,
            share: self.share,
            amount: self.amount,
        }
    }
}
