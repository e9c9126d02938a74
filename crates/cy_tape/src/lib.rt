//! The texts of a report: what a step is answered, and what a connection came to. Each call appends its text at once.
#![tactic(auto)]

mod chart;
mod connection;
pub mod laws;
mod names;
mod reply;
mod text;

pub use chart::{Chart, ChartItems};
pub use connection::print_conn;
pub use reply::print_reply;

#[cfg(test)]
mod tests;
