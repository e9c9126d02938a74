//! The acceptor's step: a connection is let in only under a share of the latch.
#![tactic(auto)]

mod accept;
pub mod laws;

pub use accept::{Step1, accept_step};

#[cfg(test)]
mod tests;
