//! The form that both input languages share: a text is lines, a line is words, and some words are numbers.
//!
//! Nothing here copies a byte or takes memory.
#![tactic(auto)]

mod cut;
mod lines;
mod numbers;
mod words;

pub use cut::{LineWords, cut_words};
pub use lines::{byte_place, has_form_bytes, lines_make_the_text, next_line};
pub use numbers::{decimal_is_number, number_is_decimal, parse_below, parse_number};
pub use words::{has_empty_word, next_word, word_at, word_count, words_make_the_line};

#[cfg(test)]
mod tests;
