// The two directions of one connection.
ghost use Rattle.std.specs.Prelude.{◌≡◌, ◌≤◌, ◌<◌, ℕ, List, length, Option};

use crate::{Read, Write};

/// A connection: bytes come from its peer and go to it. Where there are none now, or the peer takes none now, it says
/// so, and the caller comes back later.
pub trait Link {
    ghost use Rattle.cy_link.specs.Reads.{ReadMoves, ReadLeaves, ReadCounts};
    ghost use Rattle.cy_link.specs.Writes.{WriteMoves, WriteCounts};
    ghost use Rattle.cy_link.specs.LinkReads.{IsLinkRead, ReadGives, ReadPauses};
    ghost use Rattle.cy_link.specs.LinkWrites.{IsLinkWrite, WritePauses};

    /// What its reads gave so far, where it tells.
    ghost gave: { Self → Option (List ℕ) };

    /// What its reads have left to give, where it tells.
    ghost left: { Self → Option (List ℕ) };

    /// What its writes took so far, where it tells.
    ghost took: { Self → Option (List ℕ) };

    /// How many of its reads failed.
    ghost in_faults: { Self → ℕ };

    /// How many of its writes failed.
    ghost out_faults: { Self → ℕ };

    /// How many of its answers were `NotYet`.
    ghost pauses: { Self → ℕ };

    /// Reads some of what is left into the front of the slice.
    fn read(&mut self, into: &mut [u8]) -> Read
        requires { 0 < length into.old }
        ensures within { IsLinkRead (length into.old) result }
        ensures moves { ReadMoves (left self.old) (left self.new) into.new result }
        ensures gives { ReadGives (gave self.old) (gave self.new) into.new result }
        ensures leaves { ReadLeaves (left self.old) into.old into.new result }
        ensures took { took self.new ≡ took self.old }
        ensures later { (in_faults self.old ≤ in_faults self.new) × (pauses self.old ≤ pauses self.new) }
        ensures cause { ReadCounts (in_faults self.old) (in_faults self.new) result }
        ensures pauses { ReadPauses (pauses self.old) (pauses self.new) result }
        ensures out_faults { out_faults self.new ≡ out_faults self.old };

    /// Writes some of the bytes, from their front.
    fn write(&mut self, bytes: &[u8]) -> Write
        requires { 0 < length bytes.now }
        ensures within { IsLinkWrite (length bytes.now) result }
        ensures moves { WriteMoves (took self.old) (took self.new) bytes.now result }
        ensures gave { gave self.new ≡ gave self.old }
        ensures left { left self.new ≡ left self.old }
        ensures later { (out_faults self.old ≤ out_faults self.new) × (pauses self.old ≤ pauses self.new) }
        ensures cause { WriteCounts (out_faults self.old) (out_faults self.new) result }
        ensures pauses { WritePauses (pauses self.old) (pauses self.new) result }
        ensures in_faults { in_faults self.new ≡ in_faults self.old };

    /// How many of its reads failed, up to the greatest number.
    fn in_faults(&self) -> u64
        ensures { result ≡ in_faults self.now };

    /// How many of its writes failed, up to the greatest number.
    fn out_faults(&self) -> u64
        ensures { result ≡ out_faults self.now };

    /// How many of its answers were `NotYet`, up to the greatest number.
    fn pauses(&self) -> u64
        ensures { result ≡ pauses self.now };
}
