//! The worker of a CPU: it takes the CPU's ops of a round, on the CPU's own words and storage.
#![tactic(auto)]

mod cells;
mod changing;
mod counting;
mod freeing;
mod giving;
mod homing;
mod hooks;
mod keys;
mod listed;
mod round;
mod splitting;
mod worker;

pub use cells::word_of_seat;
pub use keys::{Kept, Keys};
pub use round::{Gate, OpenGate};
pub use worker::{Going, Worker};
