//! The content of an answer: it waits in a buffer, is cut into pieces, and goes out behind its head by length, in
//! chunks or until the close.
#![tactic(auto)]

mod body_out;
mod chunk;
pub mod laws;
mod mode;

pub use body_out::{BodyOut, CUT_ROOM, Finished, PIECE_SIZE};
pub use cy_event::NoMemory;
pub use mode::Answer;

#[cfg(test)]
mod tests;
