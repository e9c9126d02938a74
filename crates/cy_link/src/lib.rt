//! The outside as the connector sees it: where bytes come from and where they go, by traits that say what a
//! call may answer and when it may fail, and implementations in memory with calls that fail as they are told.
#![tactic(auto)]

mod calls;
mod clock;
mod door;
mod items;
mod link;
mod list_clock;
mod mem_door;
mod mem_link;
mod mem_ready;
mod mem_sink;
mod mem_source;
mod mem_spawner;
mod readiness;
mod scope_spawner;
mod sink;
mod source;
mod task;

pub use clock::Clock;
pub use door::{Accepted, Door, Opened};
pub use items::{Input, Output};
pub use link::Link;
pub use list_clock::ListClock;
pub use mem_door::{Arrival, MemDoor};
pub use mem_link::MemLink;
pub use mem_ready::MemReady;
pub use mem_sink::MemSink;
pub use mem_source::MemSource;
pub use mem_spawner::MemSpawner;
pub use readiness::{Polled, Readiness, Ready};
pub use scope_spawner::{ScopeSpawner, start_in};
pub use sink::{Sink, Write};
pub use source::{Read, Source};
pub use task::{Spawner, Task};

#[cfg(test)]
mod outside_tests;
#[cfg(test)]
mod tests;
