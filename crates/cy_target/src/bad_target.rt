//! Why a target was not read.

use std::error::Error;
use std::fmt;

/// The target names no path.
#[derive(Clone, Copy, Debug, PartialEq, Eq)]
pub struct BadTarget;

impl fmt::Display for BadTarget {
    fn fmt<W: fmt::Write>(&self, f: &mut fmt::Formatter<W>) -> fmt::Result {
        f.write_str("bad target")
    }
}

impl Error for BadTarget {}
