//! The rule by which an executor starts a thread for a task or lets the task wait in the queue.
#![tactic(auto)]

mod admission;
pub mod laws;

pub use admission::{Admission, Counts, admit};

#[cfg(test)]
mod tests;
