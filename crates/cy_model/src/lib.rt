//! What a connector is, stated over lists of steps: nothing is forgotten, and every request begins with empty records.
//! The definitions stand in `specs/`; the code has their laws.
#![tactic(auto)]

pub mod dates;
pub mod laws;
#[cfg(test)]
mod tests;
