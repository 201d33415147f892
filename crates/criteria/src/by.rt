ghost use Rattle.criteria.specs.Mean.{at_least};

use super::criterion::Criterion;
use super::floor::Floor;
use super::mean::Mean;

// The mean or the floor: so one list may hold calls by either.
#[derive(Clone, Copy)]
pub enum By {
    Mean(Mean),
    Floor(Floor),
}

impl Criterion for By {
    ghost use Rattle.criteria.specs.By.{chosen, chosen_lawful};

    type Value = i64;

    type Account = i64;

    ghost ops = { chosen };

    ghost better = { λ _. at_least };

    ghost laws = { chosen_lawful };

    fn closing(&self, worth: i64) -> i64 {
        match self {
            By::Mean(mean) => mean.closing(worth),
            By::Floor(floor) => floor.closing(worth),
        }
    }

    fn blank(&self) -> i64 {
        match self {
            By::Mean(mean) => mean.blank(),
            By::Floor(floor) => floor.blank(),
        }
    }

    fn enter(
        &self,
        left: usize,
        parts: u32,
        share: u32,
        amount: i64,
        later: i64,
        account: i64,
    ) -> i64 {
        match self {
            By::Mean(mean) => mean.enter(left, parts, share, amount, later, account),
            By::Floor(floor) => floor.enter(left, parts, share, amount, later, account),
        }
    }

    fn close(&self, parts: u32, account: i64) -> i64 {
        match self {
            By::Mean(mean) => mean.close(parts, account),
            By::Floor(floor) => floor.close(parts, account),
        }
    }

    fn good(&self, value: i64, other: i64) -> bool {
        match self {
            By::Mean(mean) => mean.good(value, other),
            By::Floor(floor) => floor.good(value, other),
        }
    }
}
