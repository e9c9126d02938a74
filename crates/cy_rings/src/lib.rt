//! The two rings of bytes through which a connection speaks to its socket, of fixed capacity: what has come in and
//! waits to be read, and what was written and waits to be sent.
#![tactic(auto)]

mod fault;
mod kit;

pub use fault::NoMemory;
pub use kit::{ConnKit, IN_CAPACITY, OUT_CAPACITY};

#[cfg(test)]
mod tests;
