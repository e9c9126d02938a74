//! The table of interests: for each place the kinds of readiness that it waits for, and the events that came before
//! it asked. An event is given to its place or kept for it.
#![tactic(auto)]

mod interests;
mod kinds;
pub mod laws;

pub use interests::{Interests, NoMemory};

#[cfg(test)]
mod tests;
