use rounds::refusal::RoundRefusal;

// A call of a round that has begun.
#[derive(Clone, Copy, Debug, PartialEq)]
pub enum RoundCall {
    Treat,
    Report { next: usize },
    Settle,
}

// What it answers.
#[derive(Clone, Copy, Debug, PartialEq)]
pub enum Reply {
    Treated { remedy: usize },
    Reported,
    Settled { total: i64 },
    Declined(RoundRefusal),
}

// A call with the place for its reply; none stands there where the call was not made.
#[derive(Clone, Copy, Debug, PartialEq)]
pub struct Turn {
    pub call: RoundCall,
    pub reply: Option<Reply>,
}
