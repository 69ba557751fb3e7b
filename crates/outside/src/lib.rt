//! Where a program's bytes come from and where they go, with a count of the faults on the way.
#![tactic(auto)]

mod faults;
mod laws;
mod memory;
mod standard;
#[cfg(test)]
mod tests;
mod traits;
mod whole;

pub use faults::{Failed, ReadError};
pub use laws::{faults_are_counted, what_a_refused_reading_took, what_went_out_in_part};
pub use memory::{MemSink, MemSource};
pub use standard::{StdSink, StdSource};
pub use traits::{Sink, Source};
pub use whole::{read_all, write_all};
