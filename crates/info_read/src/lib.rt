//! The reader of `/proc/allocinfo`: the rows that a text spells, or its first line that is not of its form.
#![tactic(auto)]

mod cuts;
mod error;
mod laws;
mod line;
mod numbers;
mod place;
mod reading;
mod row;

pub use error::InfoError;
pub use laws::{
    line_is_of_one_row, printed_and_read, printed_rows_are_read, printed_rows_are_spelled,
};
pub use reading::{read_info, read_rows};
pub use row::{InfoRow, RowText, owned_row, row_text};

#[cfg(test)]
mod tests;
