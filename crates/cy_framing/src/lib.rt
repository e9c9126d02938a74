//! How a request's body is framed, whether its connection is kept, and what it expects (RFC 9112, sections 6 and 9.3;
//! RFC 9110, section 10.1.1).
#![tactic(auto)]

mod codings;
mod connection;
mod elements;
mod expectations;
mod laws;
mod lengths;
mod status;
mod verdict;

pub use laws::{both_fields_are_refused, lines_are_joined_by_commas, lines_may_be_split};
pub use verdict::{Framed, framing};

#[cfg(test)]
mod tests;
