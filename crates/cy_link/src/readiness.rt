// Which connections have something to read, or room to write.
ghost use Rattle.std.specs.Prelude.{◌≡◌, ◌≤◌, ℕ, length};

use crate::Link;

/// An event: the connection of this place may be read from, or written to. It may be spurious.
#[derive(Clone, Copy, Debug, PartialEq, Eq)]
pub struct Ready {
    pub place: u32,
    pub read: bool,
    pub write: bool,
}

/// What a poll answers.
#[derive(Clone, Copy, Debug, PartialEq, Eq)]
pub enum Polled {
    /// So many events stand at the slice's front.
    Events(usize),
    /// The poll failed, and the count of faults says so.
    Failed,
}

/// What tells of readiness.
pub trait Readiness<L: Link> {
    ghost use Rattle.cy_link.specs.Polls.{RegisterCounts, IsPollOf, PollCounts};

    /// How many of its calls failed.
    ghost faults: { Self → ℕ };

    /// Tells from now on of this connection, under this place, and says whether it could.
    fn register(&mut self, link: &mut L, place: u32) -> bool
        ensures gave { L.gave link.new ≡ L.gave link.old }
        ensures left { L.left link.new ≡ L.left link.old }
        ensures took { L.took link.new ≡ L.took link.old }
        ensures in_faults { L.in_faults link.new ≡ L.in_faults link.old }
        ensures out_faults { L.out_faults link.new ≡ L.out_faults link.old }
        ensures pauses { L.pauses link.new ≡ L.pauses link.old }
        ensures later { faults self.old ≤ faults self.new }
        ensures cause { RegisterCounts (faults self.old) (faults self.new) result };

    /// Puts events at the slice's front. It waits for one, but for this many milliseconds at most.
    fn poll(&mut self, limit: u64, into: &mut [Ready]) -> Polled
        ensures within { IsPollOf (length into.old) result }
        ensures later { faults self.old ≤ faults self.new }
        ensures cause { PollCounts (faults self.old) (faults self.new) result };

    /// How many of its calls failed, up to the greatest number.
    fn faults(&self) -> u64
        ensures { result ≡ faults self.now };
}
