//! Deadlines of places, and which of them are due.
#![tactic(auto)]

pub mod laws;
mod timers;

pub use timers::{NoMemory, Timers};

#[cfg(test)]
mod tests;
