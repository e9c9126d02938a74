//! The head of an answer: its status and its fields, and how they are written.
#![tactic(auto)]

mod date;
mod fields;
mod head;
pub mod laws;
mod shape;

pub use cy_event::NoMemory;
pub use date::date_of;
pub use head::{ANSWER_HEAD_ROOM, FIELD_LIMIT, FIELD_SIZE_LIMIT, RespHead};
pub use shape::{Connection, Shape};

#[cfg(test)]
mod tests;
