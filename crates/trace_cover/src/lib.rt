//! What holds of the modules and the references of a checked trace, for whoever runs it.
#![tactic(auto)]

mod laws;

pub use laws::{
    checked_counts_are_few, checked_ids_are_few, checked_machines_are_covered,
    checked_rounds_are_covered, dead_entries_are_named, entered_modules_stay_loaded,
    named_entries_are_counted, round_words_tell_what_is_live,
};
