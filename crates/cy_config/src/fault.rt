//! Why a text of settings was not read.

use cy_bytes::Bytes;
use std::alloc::{AllocError, AllocFailed};
use std::error::Error;
use std::fmt;

/// Why a text of settings was not read.
#[derive(Debug, Drop)]
pub enum SetFault {
    /// It is no TOML.
    NotToml,
    /// It has a key of this name, which is none of the settings'.
    UnknownKey { name: Bytes },
    /// The setting of this name has this value, which it may not have.
    BadSetting { name: Bytes, value: Bytes },
    /// Memory ran out.
    NoMemory,
}

impl fmt::Display for SetFault {
    fn fmt<W: fmt::Write>(&self, f: &mut fmt::Formatter<W>) -> fmt::Result {
        f.write_str(match self {
            SetFault::NotToml => "not toml",
            SetFault::UnknownKey { .. } => "unknown key",
            SetFault::BadSetting { .. } => "bad setting",
            SetFault::NoMemory => "out of memory",
        })
    }
}

impl Error for SetFault {}

impl From<AllocError> for SetFault {
    ghost use Rattle.cy_config.specs.declared.fault.SetFault.TheVariants.{NoMemory as no_memory};
    ghost use Rattle.std.specs.Prelude.{◌≡◌};

    ghost from_gives = { λ _ e. e ≡ no_memory };

    fn from(_refused: AllocError) -> SetFault {
        SetFault::NoMemory
    }
}

impl<T: Drop> From<AllocFailed<T>> for SetFault {
    ghost use Rattle.cy_config.specs.declared.fault.SetFault.TheVariants.{NoMemory as no_memory};
    ghost use Rattle.std.specs.Prelude.{◌≡◌};

    ghost from_gives = { λ _ e. e ≡ no_memory };

    fn from(_refused: AllocFailed<T>) -> SetFault {
        SetFault::NoMemory
    }
}
