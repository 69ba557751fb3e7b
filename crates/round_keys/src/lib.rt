//! What all keys are bound to between rounds: a store that hands them to the workers and takes them back.
#![tactic(auto)]

mod handing;
mod laws;
mod meeting;
mod pages;
mod store;
mod taking;
mod words;

pub use laws::{keys_come_back, named_keys_are_the_owners};
pub use store::KeyStore;
