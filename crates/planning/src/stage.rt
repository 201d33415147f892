ghost use Rattle.std.specs.Prelude.{◌≡◌, ℕ, ◌-◌, ◌<◌, ◌≤◌, length, take, MatchOption};
ghost use Rattle.model.specs.Model.{offers};
ghost use Rattle.model.specs.Visits.{visit_after, SomeOffered};
ghost use Rattle.criteria.specs.Policies.{entered, remedied};
ghost use Rattle.planning.specs.Choosing.{Best, NoneBelow, kept_of};
ghost use Rattle.planning.specs.Tables.{at, Chosen, Valued, AsAsked};

use checks::visit::visit_of;
use criteria::criterion::Criterion;
use model::Book;
use model::row::Row;

// A visit, how many are left with it, and the values of the conditions that follow it.
#[derive(Drop)]
pub(crate) struct Stage<'a, 'v, B: Book, C: Criterion> {
    pub(crate) book: &'a B,
    pub(crate) by: &'a C,
    pub(crate) visit: usize,
    pub(crate) left: usize,
    pub(crate) later: &'v [C::Value],
    ghost whole: { length later.now ≡ (B.model book.now).conditions },
}

// Of the pair found so far and one more: the one found, unless it is less good.
fn preferred<C: Criterion>(
    by: &C,
    found: Option<(u8, C::Value)>,
    remedy: u8,
    value: C::Value,
) -> (u8, C::Value)
    ensures { result ≡ kept_of (C.ops by.now) found (remedy, value) }
{
    match found {
        Some((held, top)) if by.good(top, value) => (held, top),
        _ => (remedy, value),
    }
}

impl<'a, 'v, B: Book, C: Criterion> Stage<'a, 'v, B, C> {
    // The visit after `past` others, of `visits`; `after` begins with the values that follow it.
    pub(crate) fn new(
        book: &'a B,
        by: &'a C,
        visits: usize,
        past: usize,
        after: &'v [C::Value],
    ) -> Self
        requires past { past < visits }
        requires few { visits ≤ 48 }
        requires room { (B.model book.now).conditions ≤ length after.now }
        ensures book { result.book.now ≡ book.now }
        ensures by { result.by.now ≡ by.now }
        ensures visit { result.visit ≡ visit_after past }
        ensures left { result.left ≡ visits - past }
        ensures later { result.later.now ≡ take (B.model book.now).conditions after.now }
    {
        Stage {
            book,
            by,
            visit: visit_of(past),
            left: visits - past,
            later: &after[..book.conditions()],
        }
    }
}

impl<B: Book, C: Criterion> Stage<'_, '_, B, C> {
    // The account of all outcomes of a remedy; `row` is room for them.
    #[inline(always)]
    fn account(&self, condition: usize, remedy: usize, row: &mut Row) -> C::Account
        ensures { result ≡ entered (C.ops self.now.by.now) (B.model self.now.book.now) self.now.visit self.now.left condition remedy (at (C.ops self.now.by.now) self.now.later.now) (B.model self.now.book.now).conditions }
    {
        self.book.row(self.visit, condition, remedy, row);
        let parts = self.book.parts();
        let later = self.later;
        let mut sum = self.by.blank();
        // a loop: that `next` is a condition holds of these outcomes, and a closure would be asked it of any
        for outcome in row.as_slice() {
            let value = later[outcome.next];
            sum = self.by.enter(self.left, parts, outcome.share, outcome.amount, value, sum);
        }
        sum
    }

    // The value of giving a remedy.
    #[inline(always)]
    fn value_under(&self, condition: usize, remedy: usize, row: &mut Row) -> C::Value
        ensures { result ≡ remedied (C.ops self.now.by.now) (B.model self.now.book.now) self.now.visit self.now.left condition remedy (at (C.ops self.now.by.now) self.now.later.now) }
    {
        let sum = self.account(condition, remedy, row);
        self.by.close(self.book.parts(), sum)
    }

    // The best of the offered remedies and its value; of equally good ones the first.
    fn best(&self, condition: usize, row: &mut Row) -> Option<(u8, C::Value)>
        ensures { let o = C.ops self.now.by.now in let m = B.model self.now.book.now in
            MatchOption result (NoneBelow m self.now.visit condition m.remedies) (λ p. Best o m self.now.visit self.now.left condition (at o self.now.later.now) m.remedies p.0 p.1) }
    {
        let mut found = None;
        // a loop: a fold that begins with none and keeps the better is no plainer
        for remedy in 0..self.book.remedies() {
            if self.book.offered(self.visit, condition, remedy) {
                let value = self.value_under(condition, remedy, row);
                found = Some(preferred(self.by, found, remedy as u8, value));
            }
        }
        found
    }

    // Writes the best remedies of the visit, one for each condition, and their values.
    pub(crate) fn plan_row(&self, values: &mut [C::Value], remedies: &mut [u8], row: &mut Row)
        requires values { length values.old ≡ (B.model self.now.book.now).conditions }
        requires remedies { length remedies.old ≡ (B.model self.now.book.now).conditions }
        requires offers { (s : ℕ) → s < (B.model self.now.book.now).conditions → SomeOffered (offers (B.model self.now.book.now)) self.now.visit s }
        ensures { let o = C.ops self.now.by.now in let m = B.model self.now.book.now in AsAsked o m (Chosen o m) self.now.visit self.now.left self.now.later.now values.new remedies.new }
    {
        // by index: of a `zip` over `iter_mut` the check does not know what was written
        for condition in 0..self.book.conditions() {
            if let Some((remedy, value)) = self.best(condition, row) {
                remedies[condition] = remedy;
                values[condition] = value;
            }
        }
    }

    // Writes the values of the remedies that are given at the visit.
    pub(crate) fn judge_row(&self, values: &mut [C::Value], remedies: &[u8], row: &mut Row)
        requires values { length values.old ≡ (B.model self.now.book.now).conditions }
        requires remedies { length remedies.now ≡ (B.model self.now.book.now).conditions }
        ensures { let o = C.ops self.now.by.now in let m = B.model self.now.book.now in AsAsked o m (Valued o m) self.now.visit self.now.left self.now.later.now values.new remedies.now }
    {
        // the remedy by index: of a `zip` over `iter_mut` the check does not know what was written
        for (condition, value) in values.iter_mut().enumerate() {
            *value = self.value_under(condition, usize::from(remedies[condition]), row);
        }
    }
}
