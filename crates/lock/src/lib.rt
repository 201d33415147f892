// The worked lock, planned by the calls of the other crates, with its very numbers in the contracts.
#![tactic(auto)]

pub mod book;
pub mod notes;
pub mod plans;
pub mod round;
