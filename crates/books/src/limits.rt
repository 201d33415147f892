// The limits that both kinds of book share.
ghost use Rattle.std.specs.Prelude.{◌≡◌, ◌≤◌, ◌⊎◌, length, pos, Decides, slice_index_or};
ghost use Rattle.books.specs.Entries.{SmallMoney};
ghost use Rattle.books.specs.Making.{FirstFailing};

// Whether an amount or a worth is a million at most, either way.
pub(crate) fn is_small(money: i64) -> bool
    ensures { Decides result (SmallMoney money) }
{
    (-1_000_000..=1_000_000).contains(&money)
}

// The first place where one is not.
pub(crate) fn first_large(moneys: &[i64]) -> Option<usize>
    ensures { FirstFailing (λ i. SmallMoney (slice_index_or moneys.now i (pos 0))) (length moneys.now) result }
{
    moneys.iter().position(|money| !is_small(*money))
}

// The last visit of those that are alike from this one on: 48 from 1 to 48.
pub(crate) fn last_alike(visit: usize) -> usize
    ensures { (result ≡ visit) ⊎ ((1 ≤ visit) × (visit ≤ 48) × (result ≡ 48)) }
{
    if (1..=48).contains(&visit) { 48 } else { visit }
}
