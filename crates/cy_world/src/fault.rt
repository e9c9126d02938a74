//! Why no connector was made.

use cy_bytes::NoMemory;
use cy_map::MapFault;

/// Why there is no connector, or no report.
#[derive(Clone, Copy, Debug, PartialEq, Eq)]
pub enum WorldFault {
    /// The pattern of the rule at `i` is the first that is none of the forms.
    BadPattern { i: u32 },
    /// The pattern of the rule at `j` is the first that stands before, where it stands first at `i`.
    RuleTwice { i: u32, j: u32 },
    /// Memory ran out.
    NoMemory,
}

impl WorldFault {
    ghost use Rattle.std.specs.Prelude.{◌≡◌};
    ghost use Rattle.cy_world.specs.Faults.{fault_by};

    /// A fault of the rules, or that memory ran out.
    pub fn of(fault: MapFault) -> WorldFault
        ensures { result ≡ fault_by fault }
    {
        match fault {
            MapFault::BadPattern { i } => WorldFault::BadPattern { i },
            MapFault::RuleTwice { i, j } => WorldFault::RuleTwice { i, j },
            MapFault::NoMemory => WorldFault::NoMemory,
        }
    }
}

impl From<NoMemory> for WorldFault {
    ghost use Rattle.std.specs.Prelude.{◌≡◌};
    ghost use Rattle.cy_world.specs.declared.fault.WorldFault.TheVariants.{NoMemory};

    ghost from_gives = { λ _ fault. fault ≡ NoMemory };

    fn from(_: NoMemory) -> WorldFault {
        WorldFault::NoMemory
    }
}
