// Where connections come from.
ghost use Rattle.std.specs.Prelude.{◌≡◌, ◌≤◌, ℕ, List, Option};

use crate::Link;

/// What opening a port answers.
#[derive(Clone, Copy, Debug, PartialEq, Eq)]
pub enum Opened {
    /// Connections are taken at this port.
    Port(u16),
    /// The port could not be opened, and the count of faults says so.
    Failed,
}

/// What accepting a connection answers.
#[derive(Debug, Drop)]
pub enum Accepted<L> {
    /// A connection came.
    Link(L),
    /// None waits now, but one may come later.
    NotYet,
    /// Accepting failed, and the count of faults says so.
    Failed,
}

/// A listener on any number of ports.
pub trait Door {
    ghost use Rattle.cy_link.specs.Doors.{OpenMoves, OpenCounts};
    ghost use Rattle.cy_link.specs.Accepts.{AcceptMoves, AcceptCounts, AcceptPauses};

    type L: Link;

    /// The ports that it answered, in order, where it tells.
    ghost ports: { Self → Option (List ℕ) };

    /// How many connections it gave, where it tells.
    ghost given: { Self → Option ℕ };

    /// How many of its calls failed.
    ghost faults: { Self → ℕ };

    /// How many of its answers were `NotYet`.
    ghost pauses: { Self → ℕ };

    /// Takes connections at this port too, and answers which port that is. Port 0 leaves the choice to the system.
    fn open(&mut self, port: u16) -> Opened
        ensures moves { OpenMoves (ports self.old) (ports self.new) result }
        ensures given { given self.new ≡ given self.old }
        ensures later { faults self.old ≤ faults self.new }
        ensures cause { OpenCounts (faults self.old) (faults self.new) result }
        ensures pauses { pauses self.new ≡ pauses self.old };

    /// Takes the next connection that waits.
    fn accept(&mut self) -> Accepted<Self::L>
        ensures moves { AcceptMoves (given self.old) (given self.new) result }
        ensures ports { ports self.new ≡ ports self.old }
        ensures later { (faults self.old ≤ faults self.new) × (pauses self.old ≤ pauses self.new) }
        ensures cause { AcceptCounts (faults self.old) (faults self.new) result }
        ensures pauses { AcceptPauses (pauses self.old) (pauses self.new) result };

    /// How many of its calls failed, up to the greatest number.
    fn faults(&self) -> u64
        ensures { result ≡ faults self.now };

    /// How many of its answers were `NotYet`, up to the greatest number.
    fn pauses(&self) -> u64
        ensures { result ≡ pauses self.now };
}
