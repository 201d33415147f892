ghost use Rattle.std.specs.Prelude.{T};
ghost use Rattle.trials.specs.Outlook.{outlook, no_worse, outlook_lawful, indifferent, any_account, indifferent_lawful};

use criteria::criterion::Criterion;

// Whether a lock is sure to end in a condition of some worth; the better one is the greater.
#[derive(Clone, Copy, Debug, PartialEq, Eq, PartialOrd, Ord)]
pub enum Outlook {
    Doubtful,
    Sure,
}

// Plans are compared by their outlook.
#[derive(Clone, Copy)]
pub struct ByOutlook;

impl Criterion for ByOutlook {
    type Value = Outlook;

    type Account = Outlook;

    ghost ops = { λ _. outlook };

    ghost better = { λ _. no_worse };

    ghost laws = { λ _. outlook_lawful };

    fn closing(&self, worth: i64) -> Outlook {
        if worth > 0 {
            Outlook::Sure
        } else {
            Outlook::Doubtful
        }
    }

    fn blank(&self) -> Outlook {
        Outlook::Sure
    }

    fn enter(
        &self,
        _left: usize,
        _parts: u32,
        _share: u32,
        _amount: i64,
        later: Outlook,
        account: Outlook,
    ) -> Outlook {
        account.min(later)
    }

    fn close(&self, _parts: u32, account: Outlook) -> Outlook {
        account
    }

    fn good(&self, value: Outlook, other: Outlook) -> bool {
        value >= other
    }
}

// Finds every value as good as every other.
#[derive(Clone, Copy)]
pub struct Indifferent;

impl Criterion for Indifferent {
    type Value = u8;

    type Account = u8;

    ghost ops = { λ _. indifferent };

    ghost better = { λ _. any_account };

    ghost laws = { λ _. indifferent_lawful };

    fn closing(&self, _worth: i64) -> u8 {
        0
    }

    fn blank(&self) -> u8 {
        0
    }

    fn enter(
        &self,
        _left: usize,
        _parts: u32,
        _share: u32,
        _amount: i64,
        _later: u8,
        _account: u8,
    ) -> u8 {
        1
    }

    fn close(&self, _parts: u32, account: u8) -> u8 {
        account
    }

    fn good(&self, _value: u8, _other: u8) -> bool {
        true
    }
}
