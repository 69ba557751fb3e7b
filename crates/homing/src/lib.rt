//! Storage goes home: what the workers freed of other nodes goes to its own node, when a round ends.
#![tactic(auto)]

mod home;
mod laws;

pub use home::bring_home;
pub use laws::{all_home_is_of_the_seats, checked_storage_finds_its_home};
