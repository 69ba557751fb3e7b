//! What a trace means when it is run.
#![tactic(auto)]

mod laws;
mod round_laws;
mod trace_laws;

pub use laws::{a_worked_trace_leaves_these, worked_traces_print_these};
pub use round_laws::{
    a_cpu_is_alone, cpus_are_side_by_side, each_op_counts_one, order_does_not_matter,
    words_are_of_their_cpus,
};
pub use trace_laws::{
    checked_machines_are_sound, checked_rounds_are_ready, checked_rounds_fit,
    live_references_are_in_their_cells, no_cell_holds_two, no_key_stands_twice,
    rows_tell_what_is_live, totals_are_live,
};
