//! Modules unloaded and their ranges given again, while other threads count and free.
#![tactic(auto)]

pub mod answers;
pub mod cleaning;
pub mod entering;
pub mod laws;
pub mod listed;
pub mod loading;
pub mod locked;
pub mod marking;
pub mod quiet;
mod sending;
mod stepping;
mod sweeping;
pub mod telling;
#[cfg(test)]
mod tests;
pub mod unloading;

pub use answers::{NotLoaded, Reclaim, UnloadError};
pub use cleaning::clean_locked;
pub use entering::{enter_locked, leave_locked, loaded_locked};
pub use listed::{Listed, ModuleList};
pub use loading::load_locked;
pub use locked::Locked;
pub use marking::mark_dead_locked;
pub use quiet::clean_quiet_locked;
pub use telling::tag_of_locked;
pub use unloading::unload_locked;
