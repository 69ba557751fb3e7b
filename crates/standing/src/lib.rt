//! What a run stands on between two items of a trace, and how a round leads from one to the next.
#![tactic(auto)]

mod laws;

pub use laws::{done_lanes_stand, ends_are_met, homed_rounds_stand, rounds_are_ready};
