//! The top calls: bytes in, bytes out.
#![tactic(auto)]

mod answer;
mod check;
mod groups;
mod mode;
mod run;
mod step;
mod still;
mod top;

pub use mode::Mode;
pub use still::{INPUT_LIMIT, memprof_still};
pub use top::memprof;

#[cfg(test)]
mod bench;
#[cfg(test)]
mod meeting_tests;
#[cfg(test)]
mod run_tests;
#[cfg(test)]
mod tests;
