// The whole of `quote`: bytes in, a plan or a fault out, and the text of either.
#![tactic(auto)]

pub mod fault;
pub mod laws;
pub mod question;
pub mod quote;
pub mod tables;
pub mod text;
