//! A zone of frames: a take gives the least aligned run of free frames, and a give brings one back.
#![tactic(auto)]

mod bits;
mod laws;
mod zone;

pub use bits::{flip, is_set, least_run};
pub use laws::worked_zone;
pub use zone::Zone;

#[cfg(test)]
mod tests;
