//! Laws of bodies over every list of steps: what requests are given, where heads stand, and what closes a connection.
#![tactic(auto)]

pub mod laws;
#[cfg(test)]
mod tests;
