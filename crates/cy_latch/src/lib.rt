//! The count of connections, as the sum of shares: each share is one number below the limit, and what is counted are the
//! numbers that are out.
#![tactic(auto)]

mod book;
pub mod laws;

pub use book::{Enter, LatchBook, NoMemory, Share};

#[cfg(test)]
mod tests;
