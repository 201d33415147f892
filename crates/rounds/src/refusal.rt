ghost use Rattle.std.specs.Prelude.{◌≡◌};
ghost use Rattle.rounds.specs.Refusals.{round_number, round_places};

// Why a call of a round is declined. Places count as the book does.
#[derive(Clone, Copy, Debug, PartialEq)]
pub enum RoundRefusal {
    // The visits are not 1 to 48.
    Visits,
    // The table of remedies is too short.
    Short,
    // The book has no such condition or remedy.
    Unknown,
    // The table names a remedy that is not offered there.
    Rule {
        visit: usize,
        condition: usize,
        remedy: usize,
    },
    // The visits are over.
    Over,
    // The outcome has no share.
    Impossible,
    // Visits are left.
    Early,
}

impl RoundRefusal {
    // The number that it is reported by.
    pub fn number(&self) -> u32
        ensures { result ≡ round_number self.now }
    {
        match self {
            RoundRefusal::Visits => 1,
            RoundRefusal::Short => 2,
            RoundRefusal::Unknown => 3,
            RoundRefusal::Rule { .. } => 10,
            RoundRefusal::Over => 14,
            RoundRefusal::Impossible => 15,
            RoundRefusal::Early => 16,
        }
    }

    // Visit, condition and remedy: three places are printed of every fault, 0 where there is none.
    pub fn places(&self) -> (usize, usize, usize)
        ensures { result ≡ round_places self.now }
    {
        match *self {
            RoundRefusal::Rule {
                visit,
                condition,
                remedy,
            } => (visit, condition, remedy),
            _ => (0, 0, 0),
        }
    }
}
