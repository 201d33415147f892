ghost use Rattle.std.specs.Prelude.{◌≡◌};
ghost use Rattle.checks.specs.Refusals.{refusal_number, refusal_places};

// Why planning or judging is declined. Places count as the book does.
#[derive(Clone, Copy, Debug, PartialEq)]
pub enum PlanRefusal {
    // The visits are not 1 to 48.
    Visits,
    // A table is too short.
    Short,
    // Nothing is offered there.
    Stuck {
        visit: usize,
        condition: usize,
    },
    // The shares of an offered remedy do not add to the parts.
    Uneven {
        visit: usize,
        condition: usize,
        remedy: usize,
    },
    // The number limit is passed.
    Fine,
    // The table names a remedy that is not offered there.
    Rule {
        visit: usize,
        condition: usize,
        remedy: usize,
    },
}

impl PlanRefusal {
    // The number that it is reported by.
    pub fn number(&self) -> u32
        ensures { result ≡ refusal_number self.now }
    {
        match self {
            PlanRefusal::Visits => 1,
            PlanRefusal::Short => 2,
            PlanRefusal::Stuck { .. } => 7,
            PlanRefusal::Uneven { .. } => 8,
            PlanRefusal::Fine => 9,
            PlanRefusal::Rule { .. } => 10,
        }
    }

    // Visit, condition and remedy: three places are printed of every fault, 0 where there is none.
    pub fn places(&self) -> (usize, usize, usize)
        ensures { result ≡ refusal_places self.now }
    {
        match *self {
            PlanRefusal::Stuck { visit, condition } => (visit, condition, 0),
            PlanRefusal::Uneven {
                visit,
                condition,
                remedy,
            }
            | PlanRefusal::Rule {
                visit,
                condition,
                remedy,
            } => (visit, condition, remedy),
            _ => (0, 0, 0),
        }
    }
}
