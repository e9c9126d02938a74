//! Why a mapper was not made.

use std::alloc::{AllocError, AllocFailed};
use std::error::Error;
use std::fmt;

/// Why a mapper was not made.
#[derive(Clone, Copy, Debug, PartialEq, Eq)]
pub enum MapFault {
    /// The pattern of the rule at `i` is the first that is none of the forms.
    BadPattern { i: u32 },
    /// Every pattern has one of the forms, and the pattern of the rule at `j` is the first that stands before, where it
    /// stands first at `i`.
    RuleTwice { i: u32, j: u32 },
    /// Memory ran out.
    NoMemory,
}

impl fmt::Display for MapFault {
    fn fmt<W: fmt::Write>(&self, f: &mut fmt::Formatter<W>) -> fmt::Result {
        match self {
            MapFault::BadPattern { i } => write!(f, "bad pattern in rule {i}"),
            MapFault::RuleTwice { i, j } => write!(f, "the pattern of rule {i} again in rule {j}"),
            MapFault::NoMemory => f.write_str("out of memory"),
        }
    }
}

impl Error for MapFault {}

impl From<AllocError> for MapFault {
    ghost use Rattle.cy_map.specs.declared.fault.MapFault.TheVariants.{NoMemory as no_memory};
    ghost use Rattle.std.specs.Prelude.{◌≡◌};

    ghost from_gives = { λ _ e. e ≡ no_memory };

    fn from(_refused: AllocError) -> MapFault {
        MapFault::NoMemory
    }
}
