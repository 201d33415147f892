// The desk: what a script asks of a sheet over a book, served and answered line by line.
#![tactic(auto)]

pub mod desk;
pub mod laws;
mod lines;
mod requests;
mod text;
mod words;
