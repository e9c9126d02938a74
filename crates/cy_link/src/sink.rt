// Where bytes go.
ghost use Rattle.std.specs.Prelude.{◌≡◌, ◌≤◌, ◌<◌, ℕ, List, length, Option};

/// What a write answers.
#[derive(Clone, Copy, Debug, PartialEq, Eq)]
pub enum Write {
    /// So many of the bytes were taken, from the front.
    Took(usize),
    /// None was taken, but some may be later.
    NotYet,
    /// The write failed, and the count of faults says so.
    Failed,
}

/// Something to write to, as a file. It never answers `NotYet`.
pub trait Sink {
    ghost use Rattle.cy_link.specs.Writes.{IsWriteOf, WriteMoves, WriteCounts};

    /// What it holds, where it tells.
    ghost held: { Self → Option (List ℕ) };

    /// How many of its writes failed.
    ghost faults: { Self → ℕ };

    /// Writes some of the bytes, from their front.
    fn write(&mut self, bytes: &[u8]) -> Write
        requires { 0 < length bytes.now }
        ensures within { IsWriteOf (length bytes.now) result }
        ensures moves { WriteMoves (held self.old) (held self.new) bytes.now result }
        ensures later { faults self.old ≤ faults self.new }
        ensures cause { WriteCounts (faults self.old) (faults self.new) result };

    /// How many of its writes failed, up to the greatest number.
    fn faults(&self) -> u64
        ensures { result ≡ faults self.now };
}
