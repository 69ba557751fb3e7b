//! The rows of allocinfo in groups: by the file of their tags, or by their module.
#![tactic(auto)]

mod group;
mod key;
mod laws;
mod print;
mod tally;

pub use group::{Group, by_file, by_module, group_rows};
pub use key::Key;
pub use laws::{
    groups_are_the_grouping, groups_hold_what_the_rows_hold, module_keys_tell_modules_apart,
    worked_groups,
};
pub use print::print_groups;

#[cfg(test)]
mod tests;
