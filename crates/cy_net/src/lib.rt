//! Adapters over the real outside: connections, listeners and readiness by mio, and the system's clock. Each meets the
//! clauses of its trait, and tells nothing of content.
#![tactic(auto)]

mod bell;
mod clock;
mod door;
mod link;
mod marks;
mod ready;

pub use bell::Bell;
pub use clock::SysClock;
pub use door::MioDoor;
pub use link::MioLink;
pub use ready::MioReady;

#[cfg(test)]
mod tests;
