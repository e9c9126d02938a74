//! The head at the front of the bytes that came on a connection (RFC 9112, sections 2, 3 and 5).
#![tactic(auto)]

mod due;
mod front;
mod hosts;
mod laws;
mod spans;

pub use due::{Due, head_due};
pub use front::{Front, head_front};
pub use laws::{fronts_stay, heads_are_the_grammar};
pub use spans::{FrontSpans, find_spans};

#[cfg(test)]
mod tests;
