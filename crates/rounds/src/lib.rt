// A round: one lock through its visits, treated by a table of remedies and settled after the last.
#![tactic(auto)]

pub mod refusal;
pub mod state;
