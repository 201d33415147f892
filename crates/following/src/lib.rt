// A round that follows a plan by the floor, led through a list of calls.
#![tactic(auto)]

pub mod call;
pub mod follow;
pub mod laws;
pub mod lock;
