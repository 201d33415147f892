// Notes laid over a book: bars, surcharges, and the sheet that carries them.
#![tactic(auto)]

pub mod note;
pub mod notes;
pub mod refusal;
pub mod sheet;
#[cfg(test)]
mod tests;
