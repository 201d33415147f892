// The book file: reading it, and writing it.
#![tactic(auto)]

mod entries;
pub mod faults;
pub mod laws;
mod progress;
pub mod read;
mod reader;
pub mod refusal;
#[cfg(test)]
mod tests;
mod text;
pub mod write;
