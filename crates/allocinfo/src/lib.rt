//! The text of `/proc/allocinfo`: a header, and a line for each code tag.
#![tactic(auto)]

pub mod print;
pub mod rows;
pub mod top;

pub use print::{
    BYTES_PLACES, CALLS_PLACES, print_rows, write_bytes, write_calls, write_header, write_line,
};
pub use rows::Row;
pub use top::{print_top, ranked_rows};

#[cfg(test)]
mod tests;
