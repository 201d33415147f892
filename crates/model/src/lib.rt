// What planning asks of a book.
#![tactic(auto)]

pub mod book;
pub mod row;

pub use self::book::Book;
