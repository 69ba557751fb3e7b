//! What a run stands on between two items of a trace.

use reclaim::Locked;
use round_keys::KeyStore;
use round_worker::Worker;
use std::alloc::Global;
use std::sync::Arc;
use tag_rule::{CpuSeat, LoadPass};
use tag_section::Sections;

/// All tokens of a table, dealt to the workers of a trace.
#[derive(Drop)]
pub struct Desk {
    pub(crate) alloc: Global,
    /// All CPUs of the table.
    pub(crate) cpus: Vec<CpuSeat>,
    /// Those of the trace.
    pub(crate) workers: Vec<Worker>,
    pub(crate) keys: KeyStore,
    pub(crate) locked: Locked,
    pub(crate) pass: LoadPass,
    pub(crate) sections: Arc<Sections, Global>,
    /// How many tags the area of modules has.
    pub(crate) tags: u32,
}
