// Lines of tab-separated fields: a letter first, then numbers.
#![tactic(auto)]

pub mod faults;
pub mod laws;
pub mod lines;
pub mod numbers;
pub mod parts;
pub mod spelling;
#[cfg(test)]
mod tests;
