//! The free slot numbers, which threads draw and give back.
#![tactic(auto)]

pub mod laws;
mod limit;
mod pool;
mod rule;

pub use pool::{Keeper, NoMemory, Pool, Seat, Slip};

#[cfg(test)]
mod tests;
