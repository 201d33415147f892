ghost use Rattle.std.specs.Prelude.{◌≡◌, ◌+◌, IfErr};
ghost use Rattle.model.specs.Model.{offers};
ghost use Rattle.rounds.specs.States.{Sound};
ghost use Rattle.rounds.specs.Calls.{to_begin, to_name, to_treat, to_report, to_settle};

use super::refusal::RoundRefusal;
use model::Book;
use std::marker::Model;

// A lock that has arrived at a visit; after the last one it waits to be settled. It can be treated or settled, once.
#[derive(Drop)]
pub struct Arrived {
    visits: usize,
    visit: usize,
    condition: usize,
    collected: i64,
}

impl Model for Arrived {
    ghost use Rattle.std.specs.Prelude.{◌+◌};
    ghost use Rattle.rounds.specs.States.{Arrival, Sound};

    ghost Value = { Arrival };

    ghost view = { λ a. record { visits = a.visits; visit = a.visit; condition = a.condition; collected = a.collected } };

    ghost invariant = { λ a. Sound a.visits (a.visits + 1) a.visit a.collected };
}

// A lock that has been given its remedy; what came of it is still to be reported, once.
#[derive(Drop)]
pub struct Treated {
    visits: usize,
    visit: usize,
    condition: usize,
    remedy: usize,
    collected: i64,
}

impl Model for Treated {
    ghost use Rattle.rounds.specs.States.{Treatment, Sound};

    ghost Value = { Treatment };

    ghost view = { λ b. record { visits = b.visits; visit = b.visit; condition = b.condition; remedy = b.remedy; collected = b.collected } };

    ghost invariant = { λ b. Sound b.visits b.visits b.visit b.collected };
}

// A call that was declined gives the state back as it was.
#[derive(Drop)]
pub struct Declined<S> {
    pub state: S,
    pub refusal: RoundRefusal,
}

// Begins a round: the lock has arrived at visit 1, with nothing collected.
pub fn begin<B: Book>(book: &B, visits: usize, condition: usize) -> Result<Arrived, RoundRefusal>
    ensures { result ≡ to_begin (offers (B.model book.now)) visits condition }
{
    if visits == 0 || visits > 48 {
        return Err(RoundRefusal::Visits);
    }
    if condition >= book.conditions() {
        return Err(RoundRefusal::Unknown);
    }
    Ok(Arrived {
        visits,
        visit: 1,
        condition,
        collected: 0,
    })
}

impl Arrived {
    // How many visits the round has.
    pub fn visits(&self) -> usize
        ensures { result ≡ self.now.visits }
    {
        self.visits
    }

    pub fn visit(&self) -> usize
        ensures { result ≡ self.now.visit }
    {
        self.visit
    }

    pub fn condition(&self) -> usize
        ensures { result ≡ self.now.condition }
    {
        self.condition
    }

    // The amounts so far.
    pub fn collected(&self) -> i64
        ensures answer { result ≡ self.now.collected }
        ensures kept { Sound self.now.visits (self.now.visits + 1) self.now.visit self.now.collected }
    {
        self.collected
    }

    // The remedy that the table names, or why it cannot be given.
    fn due<B: Book>(&self, book: &B, remedies: &[u8]) -> Result<usize, RoundRefusal>
        ensures { result ≡ to_name (offers (B.model book.now)) remedies.now self.now }
    {
        let conditions = book.conditions();
        if self.visit > self.visits {
            return Err(RoundRefusal::Over);
        }
        if self.condition >= conditions {
            return Err(RoundRefusal::Unknown);
        }
        if remedies.len() < self.visits * conditions {
            return Err(RoundRefusal::Short);
        }
        let remedy = usize::from(remedies[(self.visit - 1) * conditions + self.condition]);
        if !book.offered(self.visit, self.condition, remedy) {
            return Err(RoundRefusal::Rule {
                visit: self.visit,
                condition: self.condition,
                remedy,
            });
        }
        Ok(remedy)
    }

    // Gives the remedy that the table names at the lock's visit, in its condition. The table has an entry for each visit
    // and each condition of the book.
    pub fn treat<B: Book>(self, book: &B, remedies: &[u8]) -> Result<Treated, Declined<Arrived>>
        ensures answer { result ≡ to_treat (offers (B.model book.now)) remedies.now self }
        ensures back { IfErr result (λ d. d.state ≡ self) }
    {
        match self.due(book, remedies) {
            Ok(remedy) => Ok(Treated {
                visits: self.visits,
                visit: self.visit,
                condition: self.condition,
                remedy,
                collected: self.collected,
            }),
            Err(refusal) => Err(Declined {
                state: self,
                refusal,
            }),
        }
    }

    // Settles the round after its last visit: answers what was collected and the worth of the condition.
    pub fn settle<B: Book>(self, book: &B) -> Result<i64, Declined<Arrived>>
        ensures answer { result ≡ to_settle (B.model book.now) self }
        ensures back { IfErr result (λ d. d.state ≡ self) }
    {
        if self.visit <= self.visits {
            return Err(Declined {
                state: self,
                refusal: RoundRefusal::Early,
            });
        }
        if self.condition >= book.conditions() {
            return Err(Declined {
                state: self,
                refusal: RoundRefusal::Unknown,
            });
        }
        Ok(self.collected + book.worth(self.condition))
    }
}

impl Treated {
    // How many visits the round has.
    pub fn visits(&self) -> usize
        ensures { result ≡ self.now.visits }
    {
        self.visits
    }

    pub fn visit(&self) -> usize
        ensures { result ≡ self.now.visit }
    {
        self.visit
    }

    pub fn condition(&self) -> usize
        ensures { result ≡ self.now.condition }
    {
        self.condition
    }

    pub fn remedy(&self) -> usize
        ensures { result ≡ self.now.remedy }
    {
        self.remedy
    }

    // The amounts so far.
    pub fn collected(&self) -> i64
        ensures answer { result ≡ self.now.collected }
        ensures kept { Sound self.now.visits self.now.visits self.now.visit self.now.collected }
    {
        self.collected
    }

    // Reports the condition that followed, and adds the amount of that outcome; the lock has arrived at the next visit.
    pub fn report<B: Book>(self, book: &B, next: usize) -> Result<Arrived, Declined<Treated>>
        ensures answer { result ≡ to_report (B.model book.now) self next }
        ensures back { IfErr result (λ d. d.state ≡ self) }
    {
        let conditions = book.conditions();
        if next >= conditions || self.condition >= conditions || self.remedy >= book.remedies() {
            return Err(Declined {
                state: self,
                refusal: RoundRefusal::Unknown,
            });
        }
        if book.share(self.visit, self.condition, self.remedy, next) == 0 {
            return Err(Declined {
                state: self,
                refusal: RoundRefusal::Impossible,
            });
        }
        let amount = book.amount(self.visit, self.condition, self.remedy, next);
        Ok(Arrived {
            visits: self.visits,
            visit: self.visit + 1,
            condition: next,
            collected: self.collected + amount,
        })
    }
}
