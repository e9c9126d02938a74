//! The slot in which a connection sits while a request of it is served. Who sits there has a number, the tenancy, and
//! each step says for which tenant it is meant: one that is meant for another changes nothing.
#![tactic(auto)]

mod conn;
pub mod laws;
mod slot;

pub use conn::Conn;
pub use slot::{Bound, GREATEST_TENANCY, STATE_BYTES, Slot};

#[cfg(test)]
mod tests;
