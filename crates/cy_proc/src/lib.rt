//! The life of one connection and of one request: what is answered to each step, and what is written.
#![tactic(auto)]

mod answer;
mod line;
mod processor;
mod verdict;

pub use line::{Line, Standing};
pub use processor::{Processor, Stage};
