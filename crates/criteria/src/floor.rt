ghost use Rattle.criteria.specs.Mean.{at_least};
ghost use Rattle.criteria.specs.Floor.{floor};
ghost use Rattle.criteria.specs.Keeping.{floor_lawful};

use super::criterion::Criterion;

// The least total that may come about.
#[derive(Clone, Copy)]
pub struct Floor;

impl Criterion for Floor {
    type Value = i64;

    type Account = i64;

    ghost ops = { λ _. floor };

    ghost better = { λ _. at_least };

    ghost laws = { λ _. floor_lawful };

    // closing, close and good are the mean's too: a trait that both share would be longer than these lines.
    fn closing(&self, worth: i64) -> i64 {
        worth
    }

    fn blank(&self) -> i64 {
        i64::MAX
    }

    fn enter(
        &self,
        _left: usize,
        _parts: u32,
        _share: u32,
        amount: i64,
        later: i64,
        account: i64,
    ) -> i64 {
        account.min(amount.saturating_add(later))
    }

    fn close(&self, _parts: u32, account: i64) -> i64 {
        account
    }

    fn good(&self, value: i64, other: i64) -> bool {
        value >= other
    }
}
