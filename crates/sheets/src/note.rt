ghost use Rattle.std.specs.Prelude.{◌≡◌};
ghost use Rattle.sheets.specs.Notes.{covers, about, bars, charge};
ghost use Rattle.sheets.specs.Calls.{spanned};

use super::refusal::NoteRefusal;

// The visits from first to last.
#[derive(Clone, Copy, Debug, PartialEq)]
pub struct Visits {
    pub first: usize,
    pub last: usize,
}

// One line of a sheet: what becomes of a remedy at some visits.
#[derive(Clone, Copy, Debug, PartialEq)]
pub struct Note {
    pub remedy: usize,
    pub visits: Visits,
    pub effect: Effect,
}

#[derive(Clone, Copy, Debug, PartialEq)]
pub enum Effect {
    // The remedy may not be given in the condition.
    Bar { condition: usize },
    // The remedy gains the amount as well; a million either way at most.
    Surcharge { amount: i32 },
}

impl Visits {
    fn cover(&self, visit: usize) -> bool
        ensures { result ≡ covers self.now visit }
    {
        (self.first..=self.last).contains(&visit)
    }

    // The same visits, if a note may stand for them.
    pub(crate) fn in_span(self) -> Result<Visits, NoteRefusal>
        ensures { result ≡ spanned self }
    {
        if self.first == 0 || self.last < self.first || self.last > 48 {
            return Err(NoteRefusal::Span);
        }
        Ok(self)
    }
}

impl Note {
    fn is_for(&self, visit: usize, remedy: usize) -> bool
        ensures { result ≡ about self.now visit remedy }
    {
        self.visits.cover(visit) && self.remedy == remedy
    }

    pub(crate) fn forbids(&self, visit: usize, condition: usize, remedy: usize) -> bool
        ensures { result ≡ bars self.now visit condition remedy }
    {
        self.is_for(visit, remedy) && self.effect == Effect::Bar { condition }
    }

    // What this note adds to the amount.
    pub(crate) fn adds(&self, visit: usize, remedy: usize) -> i32
        ensures { result ≡ charge self.now visit remedy }
    {
        match self.effect {
            Effect::Surcharge { amount } if self.is_for(visit, remedy) => amount,
            _ => 0,
        }
    }
}
