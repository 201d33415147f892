ghost use Rattle.std.specs.Prelude.{◌≡◌, ◌&&◌, MatchOption, nat_lt};
ghost use Rattle.books.specs.Alike.{SizesFit, inside};

// The sizes of a book: 1 to 32 conditions, 1 to 8 remedies, and the 1 to 1000 parts of which a share is some.
#[derive(Clone, Copy, Debug, PartialEq, Eq)]
pub struct Sizes {
    pub conditions: usize,
    pub remedies: usize,
    pub parts: u32,
    ghost fit: { SizesFit conditions remedies parts },
}

impl Sizes {
    // None if a book may not have these.
    pub fn new(conditions: usize, remedies: usize, parts: u32) -> Option<Sizes>
        ensures { MatchOption result (SizesFit conditions remedies parts → ⊥) (λ z. (z.conditions ≡ conditions) × (z.remedies ≡ remedies) × (z.parts ≡ parts)) }
    {
        if (1..=32).contains(&conditions)
            && (1..=8).contains(&remedies)
            && (1..=1000).contains(&parts)
        {
            Some(Sizes {
                conditions,
                remedies,
                parts,
            })
        } else {
            None
        }
    }

    // Whether a book of these sizes has the visit, the condition and the remedy.
    pub(crate) fn has(&self, visit: usize, condition: usize, remedy: usize) -> bool
        ensures { result ≡ inside self.now.conditions self.now.remedies visit condition remedy }
    {
        (1..=48).contains(&visit) && condition < self.conditions && remedy < self.remedies
    }

    // The same, and the next condition.
    pub(crate) fn has_outcome(
        &self,
        visit: usize,
        condition: usize,
        remedy: usize,
        next: usize,
    ) -> bool
        ensures { result ≡ (inside self.now.conditions self.now.remedies visit condition remedy && nat_lt next self.now.conditions) }
    {
        self.has(visit, condition, remedy) && next < self.conditions
    }
}
