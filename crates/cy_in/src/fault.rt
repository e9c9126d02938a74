//! What a body is so far.

use std::error::Error;
use std::fmt;

/// Why a body is bad, or why no more of it is swallowed.
#[derive(Clone, Copy, Debug, PartialEq, Eq)]
pub enum BodyFault {
    /// No body of chunks goes on as the bytes do (RFC 9112, section 7.1). The place is that of the first byte after
    /// which no continuation exists, counted in raw bytes from the body's first.
    BadChunk { place: u64 },
    /// A continuation would exist but for the limit of the trailers.
    TrailerTooLarge,
    /// More raw bytes of the body were swallowed than the limit allows.
    SwallowLimit,
}

impl fmt::Display for BodyFault {
    fn fmt<W: fmt::Write>(&self, f: &mut fmt::Formatter<W>) -> fmt::Result {
        match self {
            BodyFault::BadChunk { place } => write!(f, "bad chunk at {place}"),
            BodyFault::TrailerTooLarge => f.write_str("trailers too large"),
            BodyFault::SwallowLimit => f.write_str("too much to swallow"),
        }
    }
}

impl Error for BodyFault {}

/// What the bytes scanned so far are.
#[derive(Clone, Copy, Debug, PartialEq, Eq)]
pub enum Scan {
    /// A part of a body.
    Partial,
    /// A whole body.
    Whole,
    /// No part of any body, or too much to swallow.
    Bad(BodyFault),
}
