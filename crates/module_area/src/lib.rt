//! The module area: which ranges of its tags modules have. A book lists an entry for each range, and a range is
//! reserved at the lowest start that is free.
#![tactic(auto)]

pub mod book;
pub mod entry;

pub use book::{AreaError, BOOK_LIMIT, Book, TAG_LIMIT, USER_LIMIT};
pub use entry::{Entry, State};

#[cfg(test)]
mod tests;
