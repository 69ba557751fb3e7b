//! Tokens may cross threads.

use crate::cells::{CellPool, CellSeat};
use crate::cpu::CpuSeat;
use crate::making::Seats;
use crate::modules::{ListSeat, LoadPass};

fn crosses<T: Send>() {}

/// Each token may be sent to another thread.
pub fn tokens_cross_threads() {
    crosses::<CpuSeat>();
    crosses::<CellPool>();
    crosses::<CellSeat>();
    crosses::<ListSeat>();
    crosses::<LoadPass>();
    crosses::<Seats>();
}
