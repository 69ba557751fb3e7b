//! The rule of the running table.
#![tactic(auto)]

mod adding;
mod cells;
mod changing;
mod cpu;
pub mod laws;
mod loading;
mod making;
mod meeting;
mod modules;
mod moving;
mod naming;
mod parting;
mod reading;
mod rule;
mod scanning;
mod seats;
mod sending;
mod subtracting;
#[cfg(test)]
mod tests;
mod view;
mod words;
mod writing;

pub use adding::{add_bytes, add_call};
pub use cells::{CellPool, CellSeat};
pub use changing::{Change, change_list};
pub use cpu::CpuSeat;
pub use loading::load_list;
pub use making::{Seats, make};
pub use meeting::{meet, meet_all};
pub use modules::{ListSeat, LoadPass};
pub use moving::{give_run, take_run};
pub use naming::Name;
pub use parting::{divide, part, singles, unite};
pub use reading::read_own;
pub use scanning::{scan_byte, scan_call, scan_own};
pub use sending::tokens_cross_threads;
pub use subtracting::{sub_bytes, sub_call};
pub use view::View;
pub use writing::{word_of, write_cell};
