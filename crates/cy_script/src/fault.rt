//! Why a script was not read.

use cy_bytes::QuoteFault;
use std::alloc::{AllocError, AllocFailed};
use std::error::Error;
use std::fmt;

/// Why a script was not read.
#[derive(Clone, Copy, Debug, PartialEq, Eq)]
pub enum ScriptFault {
    /// The text is outside the form.
    Refused,
    /// Memory ran out.
    NoMemory,
}

impl fmt::Display for ScriptFault {
    fn fmt<W: fmt::Write>(&self, f: &mut fmt::Formatter<W>) -> fmt::Result {
        f.write_str(match self {
            ScriptFault::Refused => "not a script of the form",
            ScriptFault::NoMemory => "out of memory",
        })
    }
}

impl Error for ScriptFault {}

impl From<QuoteFault> for ScriptFault {
    ghost use Rattle.cy_script.specs.declared.fault.ScriptFault.TheVariants.{Refused, NoMemory as no_memory};
    ghost use Rattle.cy_bytes.specs.declared.fault.QuoteFault.TheVariants.{NoMemory as no_memory_to_unquote};
    ghost use Rattle.std.specs.Prelude.{◌≡◌};
    ghost use Rattle.cy_script.specs.Quotes.{fault_of};

    ghost from_gives = { λ refused e. e ≡ fault_of refused };

    fn from(refused: QuoteFault) -> ScriptFault {
        match refused {
            QuoteFault::BadEscape { .. } => ScriptFault::Refused,
            QuoteFault::NoMemory => ScriptFault::NoMemory,
        }
    }
}

impl From<AllocError> for ScriptFault {
    ghost use Rattle.cy_script.specs.declared.fault.ScriptFault.TheVariants.{NoMemory as no_memory};
    ghost use Rattle.std.specs.Prelude.{◌≡◌};

    ghost from_gives = { λ _ e. e ≡ no_memory };

    fn from(_refused: AllocError) -> ScriptFault {
        ScriptFault::NoMemory
    }
}

impl<T: Drop> From<AllocFailed<T>> for ScriptFault {
    ghost use Rattle.cy_script.specs.declared.fault.ScriptFault.TheVariants.{NoMemory as no_memory};
    ghost use Rattle.std.specs.Prelude.{◌≡◌};

    ghost from_gives = { λ _ e. e ≡ no_memory };

    fn from(_refused: AllocFailed<T>) -> ScriptFault {
        ScriptFault::NoMemory
    }
}
