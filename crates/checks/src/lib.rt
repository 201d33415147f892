// Whether a book can be planned or judged for some visits, with tables of some lengths, and if not, why.
#![tactic(auto)]

mod asked;
pub mod laws;
mod limit;
pub mod ready;
pub mod refusal;
mod search;
pub mod visit;
