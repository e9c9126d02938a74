//! The state of a request: which call is taken in which state, and the chart of the calls that were taken.
#![tactic(auto)]

pub mod laws;
mod machine;
mod table;

pub use cy_event::ChartItem;
pub use machine::{MOST_ITEMS, Machine, NoMemory};

#[cfg(test)]
mod tests;
