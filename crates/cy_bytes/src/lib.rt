//! Bytes, the quoted texts that stand for them, tokens and numbers.
#![tactic(auto)]

mod bytes;
mod fault;
mod laws;
mod numbers;
mod quoting;
mod tokens;

pub use bytes::Bytes;
pub use fault::{NoMemory, QuoteFault};
pub use laws::{
    one_first_fault, one_reading, quoted_text_is_a_spelling, reading_is_spelling,
    unquote_undoes_quote,
};
pub use numbers::{decimal, hex};
pub use quoting::{quote, unquote};
pub use tokens::is_token;

#[cfg(test)]
mod tests;
