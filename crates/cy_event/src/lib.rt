//! The plain data of all layers: steps, acts, jobs, replies, causes, limits, and the table in which a head is kept.
//! Beside it, in `specs/`, stand the definitions that know of no connection: heads, dates, the state table, answers.
#![tactic(auto)]

pub mod body;
pub mod bytes;
pub mod cutting;
pub mod framing;
pub mod head;
pub mod limits;
pub mod no_memory;
pub mod steps;
pub mod table;

pub use body::{BodyMark, BodyStage, GREATEST_CHUNK, GREATEST_LINE, MOST_DIGITS};
pub use bytes::Bytes;
pub use cutting::cut;
pub use framing::Framing;
pub use head::{FIELD_ROOM, FieldSpan, HEAD_ROOM, RequestHead, extend_in_room};
pub use limits::{GREATEST_MOMENT, Limits};
pub use no_memory::NoMemory;
pub use steps::{Act, Call, CloseCause, Event, GREATEST_READ, Job, Reply, State, Step};
pub use table::{ChartItem, Row};

#[cfg(test)]
mod tests;
