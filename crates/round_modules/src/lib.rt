//! The modules of a trace around its rounds. What is known of them is kept beside the book: between two rounds the book is
//! what is known, and within a round others may change it.
#![tactic(auto)]

mod beginning;
mod ending;
mod entering;
mod knowing;
pub mod laws;
mod leaving;
mod loading;
mod marking;

pub use beginning::begin;
pub use ending::end;
pub use knowing::unload_known;
pub use loading::{LoadRefusal, load};
