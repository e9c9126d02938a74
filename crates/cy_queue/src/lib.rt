//! A queue of places that can be closed: each place stands in it at most once, so it is never full.
#![tactic(auto)]

pub mod laws;
mod place_queue;
mod places;

pub use place_queue::PlaceQueue;
pub use places::{NoMemory, Places, Put};

#[cfg(test)]
mod tests;
