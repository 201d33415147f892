ghost use Rattle.std.specs.Prelude.{◌≡◌, ◌^◌, pos};
ghost use Rattle.criteria.specs.Mean.{hold, mean, at_least, PowersOf};
ghost use Rattle.criteria.specs.Keeping.{mean_lawful};

use super::criterion::Criterion;

// The expected total times parts to the power of the visits left. It keeps the powers of
// the parts that it is made for: one is asked for with every outcome.
#[derive(Clone, Copy)]
pub struct Mean {
    base: u32,
    powers: [i64; 48],
    ghost kept: { PowersOf base powers },
}

// base ^ exponent, held within 64 bits with a sign: from 63 on it is 0, 1 or the highest.
fn held_power(base: u32, exponent: usize) -> i64
    ensures { result ≡ hold (pos (base ^ exponent)) }
{
    i64::from(base).saturating_pow(exponent.min(63) as u32)
}

impl Mean {
    // The mean, made for books of these parts. It compares and enters alike for all parts, and is quick for these.
    pub fn of(parts: u32) -> Mean
        ensures { (result.base ≡ parts) × PowersOf parts result.powers }
    {
        Mean {
            base: parts,
            powers: std::array::from_fn(|exponent| held_power(parts, exponent)),
        }
    }

    // parts ^ exponent, held.
    fn power(&self, parts: u32, exponent: usize) -> i64
        ensures { result ≡ hold (pos (parts ^ exponent)) }
    {
        match self.powers.get(exponent) {
            Some(kept) if parts == self.base => *kept,
            _ => held_power(parts, exponent),
        }
    }
}

impl Criterion for Mean {
    type Value = i64;

    type Account = i64;

    ghost ops = { λ _. mean };

    ghost better = { λ _. at_least };

    ghost laws = { λ _. mean_lawful };

    // closing, close and good are the floor's too; see there.
    fn closing(&self, worth: i64) -> i64 {
        worth
    }

    fn blank(&self) -> i64 {
        0
    }

    fn enter(
        &self,
        left: usize,
        parts: u32,
        share: u32,
        amount: i64,
        later: i64,
        account: i64,
    ) -> i64 {
        let scaled = self
            .power(parts, left.saturating_sub(1))
            .saturating_mul(amount);
        let onward = scaled.saturating_add(later);
        account.saturating_add(i64::from(share).saturating_mul(onward))
    }

    fn close(&self, _parts: u32, account: i64) -> i64 {
        account
    }

    fn good(&self, value: i64, other: i64) -> bool {
        value >= other
    }
}
