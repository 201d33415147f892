// A small book and two small criteria, planned by the same text as any other.
#![tactic(auto)]

#[cfg(test)]
mod list_tests;
pub mod outlook;
#[cfg(test)]
mod round_tests;
pub mod switch;
#[cfg(test)]
mod tests;
