//! A connector over recycled slots: any number of connections, each stepped by its number.
#![tactic(auto)]

mod fault;
pub mod laws;
mod place;
mod seat;
mod terms;
mod world;

pub use fault::WorldFault;
pub use world::{Replied, World, run};
