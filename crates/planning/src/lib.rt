// Plans by backward induction, and the values of given rules, for any book and any criterion.
#![tactic(auto)]

pub mod judge;
pub mod laws;
pub mod plan;
mod rows;
mod stage;

pub use checks::refusal::PlanRefusal;
