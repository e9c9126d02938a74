//! Mapping rules: which component serves a path, by the patterns of Servlet 3.1, sections 12.1 and 12.2.
#![tactic(auto)]

mod fault;
mod index;
mod laws;
mod mapper;
mod patterns;
mod rule;

pub use fault::MapFault;
pub use laws::{exact_rule_is_found, longest_prefix_is_found};
pub use mapper::{MAX_RULES, Mapper};
pub use patterns::is_pattern;
pub use rule::{Found, Rule};

#[cfg(test)]
mod tests;
