use arrayvec::ArrayVec;

// One of the next conditions that may follow, with its share and its amount.
#[derive(Clone, Copy, Debug, Default, PartialEq)]
pub struct Outcome {
    pub next: usize,
    pub share: u32,
    pub amount: i64,
}

// The outcomes of a remedy, at most one for each condition; it allocates nothing.
pub type Row = ArrayVec<Outcome, 32>;
