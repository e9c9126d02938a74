//! The path and the query that a request's target names (RFC 9112, section 3.2; RFC 3986, sections 2.1, 3.3 and 5.2.4).
#![tactic(auto)]

mod bad_target;
mod escapes;
mod forms;
mod laws;
mod segments;
mod target;

pub use bad_target::BadTarget;
pub use laws::{
    own_paths_are_read_back, paths_are_clean, paths_stay_below_the_root, unescaping_is_decoding,
};
pub use target::read_target;

#[cfg(test)]
mod tests;
