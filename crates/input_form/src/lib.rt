//! What the step language and the trace language share: the form of a line, the sizes and the sections that stand
//! before the body, the words of both bodies, the codes of refusals, and the reader.
#![tactic(auto)]

mod code;
mod forms;
mod head;
mod laws;
mod line_error;
mod places;
mod reading;
mod series;
mod text_error;
mod words;

pub use code::{Code, TextError};
pub use forms::first_line;
pub use head::{Head, HeadWord, Size, cpus_of, empty_head, head_word};
pub use laws::{limits_of_lines_are_these, limits_of_sizes_are_these, limits_of_words_are_these};
pub use line_error::LineError;
pub use places::{module_word, tag_word};
pub use reading::{Body, Keyword, Reading, read_lines};
pub use series::Series;
pub use text_error::error_at;
pub use words::{cpu_word, is_word, key_word, need, number_word, size_word};

#[cfg(test)]
mod tests;
