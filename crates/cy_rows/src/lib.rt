//! Rows and laws that pin the definitions of one connection. No crate stands on it.
#![tactic(auto)]

pub mod laws;
#[cfg(test)]
mod tests;
