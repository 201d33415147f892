// A script of the desk: where it begins in an input, and what its lines say.
#![tactic(auto)]

pub mod command;
pub mod laws;
pub mod parts;
mod reading;
pub mod script;
mod word;
