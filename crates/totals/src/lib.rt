// Plans and judgements by a criterion of totals, the mean or the floor, with what stands behind their numbers.
#![tactic(auto)]

pub mod judge;
pub mod plan;
pub mod totalled;
