// Books made from tables and from lists of records.
#![tactic(auto)]

pub mod laws;
mod limits;
pub mod list;
pub mod record;
pub mod refusal;
pub mod sizes;
pub mod table;
#[cfg(test)]
mod tests;
