//! Why a quoted text was not written or not read.

use std::alloc::{AllocError, AllocFailed};
use std::error::Error;
use std::fmt;

/// Memory ran out.
#[derive(Clone, Copy, Debug, PartialEq, Eq)]
pub struct NoMemory;

impl fmt::Display for NoMemory {
    fn fmt<W: fmt::Write>(&self, f: &mut fmt::Formatter<W>) -> fmt::Result {
        f.write_str("out of memory")
    }
}

impl Error for NoMemory {}

impl From<AllocError> for NoMemory {
    ghost use Rattle.std.specs.Prelude.{◌≡◌};

    ghost from_gives = { λ _ e. e ≡ record {} };

    fn from(_refused: AllocError) -> NoMemory {
        NoMemory
    }
}

impl<T: Drop> From<AllocFailed<T>> for NoMemory {
    ghost use Rattle.std.specs.Prelude.{◌≡◌};

    ghost from_gives = { λ _ e. e ≡ record {} };

    fn from(_refused: AllocFailed<T>) -> NoMemory {
        NoMemory
    }
}

/// Why a quoted text's inner bytes were not read.
#[derive(Clone, Copy, Debug, PartialEq, Eq)]
pub enum QuoteFault {
    /// The first place, reached from the front over whole items, where neither a byte that stands
    /// as itself nor a whole escape begins.
    BadEscape { place: u64 },
    /// Memory ran out.
    NoMemory,
}

impl fmt::Display for QuoteFault {
    fn fmt<W: fmt::Write>(&self, f: &mut fmt::Formatter<W>) -> fmt::Result {
        match self {
            QuoteFault::BadEscape { place } => write!(f, "bad escape at {place}"),
            QuoteFault::NoMemory => f.write_str("out of memory"),
        }
    }
}

impl Error for QuoteFault {}

impl From<AllocError> for QuoteFault {
    ghost use Rattle.cy_bytes.specs.declared.fault.QuoteFault.TheVariants.{NoMemory as no_memory};
    ghost use Rattle.std.specs.Prelude.{◌≡◌};

    ghost from_gives = { λ _ e. e ≡ no_memory };

    fn from(_refused: AllocError) -> QuoteFault {
        QuoteFault::NoMemory
    }
}

impl<T: Drop> From<AllocFailed<T>> for QuoteFault {
    ghost use Rattle.cy_bytes.specs.declared.fault.QuoteFault.TheVariants.{NoMemory as no_memory};
    ghost use Rattle.std.specs.Prelude.{◌≡◌};

    ghost from_gives = { λ _ e. e ≡ no_memory };

    fn from(_refused: AllocFailed<T>) -> QuoteFault {
        QuoteFault::NoMemory
    }
}
