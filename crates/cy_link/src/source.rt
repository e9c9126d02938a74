// Where bytes come from.
ghost use Rattle.std.specs.Prelude.{◌≡◌, ◌≤◌, ◌<◌, ℕ, List, length, Option};

/// What a read answers.
#[derive(Clone, Copy, Debug, PartialEq, Eq)]
pub enum Read {
    /// So many bytes stand at the slice's front.
    Got(usize),
    /// There are no more.
    End,
    /// There are none now, but there may be later.
    NotYet,
    /// The read failed, and the count of faults says so.
    Failed,
}

/// Something to read from to its end, as a file. It never answers `NotYet`.
pub trait Source {
    ghost use Rattle.cy_link.specs.Reads.{IsReadOf, ReadMoves, ReadLeaves, ReadCounts};

    /// What it has left, where it tells.
    ghost left: { Self → Option (List ℕ) };

    /// How many of its reads failed.
    ghost faults: { Self → ℕ };

    /// Reads some of what is left into the front of the slice.
    fn read(&mut self, into: &mut [u8]) -> Read
        requires { 0 < length into.old }
        ensures within { IsReadOf (length into.old) result }
        ensures moves { ReadMoves (left self.old) (left self.new) into.new result }
        ensures leaves { ReadLeaves (left self.old) into.old into.new result }
        ensures later { faults self.old ≤ faults self.new }
        ensures cause { ReadCounts (faults self.old) (faults self.new) result };

    /// How many of its reads failed, up to the greatest number.
    fn faults(&self) -> u64
        ensures { result ≡ faults self.now };
}
