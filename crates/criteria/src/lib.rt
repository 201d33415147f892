// How plans are compared: the interface of a criterion, the mean and the floor, and the laws of all three.
#![tactic(auto)]

pub mod by;
pub mod criterion;
pub mod floor;
pub mod laws;
pub mod mean;
#[cfg(test)]
mod tests;
