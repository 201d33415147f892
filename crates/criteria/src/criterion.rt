ghost use Rattle.std.specs.Prelude.{◌≡◌};
ghost use Rattle.criteria.specs.Criteria.{Ops, Laws};

// A criterion of optimality. A value is what plans are compared by; an account takes in the outcomes
// of one visit, one after another, and is then closed to a value. Each answer is from what is given alone. Other
// criteria are written to this interface, so it takes plain numbers.
pub trait Criterion {
    type Value: Copy + Drop;

    type Account: Copy + Drop;

    ghost ops: { Self → Ops Self.Value Self.Account };

    // One account is at least as good as another.
    ghost better: { Self → Self.Account → Self.Account → Type 0 };

    ghost laws: { (c : Self) → Laws (ops c) (better c) };

    // The value of a closing worth.
    fn closing(&self, worth: i64) -> Self::Value
        ensures { result ≡ (ops self.now).closing worth };

    fn blank(&self) -> Self::Account
        ensures { result ≡ (ops self.now).blank };

    // The account with one outcome more; `left` counts the visits left, this one too.
    fn enter(
        &self,
        left: usize,
        parts: u32,
        share: u32,
        amount: i64,
        later: Self::Value,
        account: Self::Account,
    ) -> Self::Account
        ensures { result ≡ (ops self.now).enter left parts share amount later account };

    fn close(&self, parts: u32, account: Self::Account) -> Self::Value
        ensures { result ≡ (ops self.now).close parts account };

    // Whether `value` is at least as good as `other`.
    fn good(&self, value: Self::Value, other: Self::Value) -> bool
        ensures { result ≡ (ops self.now).good value other };
}
