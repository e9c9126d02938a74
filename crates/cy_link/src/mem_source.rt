// A source in memory.
ghost use Rattle.std.specs.Prelude.{◌≡◌, ◌≤◌, ◌<◌, ◌+◌, ◌-◌, ◌^◌, ◌↔◌, ℕ, [], length, min, IsTrue, Some};

use crate::calls::Calls;
use crate::{Read, Source};

/// A source that gives the bytes that it is made of, a piece at a time, but for the reads that are to fail.
#[derive(Drop)]
pub struct MemSource {
    content: Vec<u8>,
    position: usize,
    piece: usize,
    calls: Calls,
    ghost within: { position ≤ length content.items },
    ghost some: { 0 < piece },
}

impl MemSource {
    ghost use Rattle.cy_link.specs.Memory.{source_left, source_failing, source_reads, source_faults, source_piece};

    /// A source of these bytes. A read gives at most `piece` of them, and the reads of these numbers, of which the
    /// first is 0, fail.
    pub fn new(content: Vec<u8>, failing: Vec<u64>, piece: usize) -> Self
        requires { 0 < piece }
        ensures left { source_left result ≡ content.items }
        ensures failing { source_failing result ≡ failing.items }
        ensures piece { source_piece result ≡ piece }
        ensures reads { source_reads result ≡ 0 }
        ensures faults { source_faults result ≡ 0 }
    {
        MemSource {
            content,
            position: 0,
            piece,
            calls: Calls::new(failing),
        }
    }
}

impl Source for MemSource {
    ghost use Rattle.cy_link.specs.Memory.{is_listed, source_left, source_failing, source_reads, source_faults, source_piece};
    ghost use Rattle.cy_link.specs.Reads.{IsReadOf, ReadMoves, ReadLeaves, ReadCounts};

    ghost left = { λ s. Some (source_left s) };

    ghost faults = { λ s. source_faults s };

    // A read of a listed number fails. Any other gives all that the slice, the piece and what is left allow.
    fn read(&mut self, into: &mut [u8]) -> Read
        requires { 0 < length into.old }
        ensures within { IsReadOf (length into.old) result }
        ensures moves { ReadMoves (Some (source_left self.old)) (Some (source_left self.new)) into.new result }
        ensures leaves { ReadLeaves (Some (source_left self.old)) into.old into.new result }
        ensures later { source_faults self.old ≤ source_faults self.new }
        ensures cause { ReadCounts (source_faults self.old) (source_faults self.new) result }
        ensures listed { (result ≡ Read.Failed) ↔ IsTrue (is_listed (source_failing self.old) (source_reads self.old)) }
        ensures full { (n : ℕ) → result ≡ Read.Got n → n ≡ min (source_piece self.old) (min (length into.old) (length (source_left self.old))) }
        ensures failing { source_failing self.new ≡ source_failing self.old }
        ensures reads { source_reads self.new ≡ min (source_reads self.old + 1) (2 ^ 64 - 1) }
        ensures piece { source_piece self.new ≡ source_piece self.old }
    {
        if self.calls.next_fails() {
            self.calls.add_fault();
            return Read::Failed;
        }
        let rest = &self.content[self.position..];
        if rest.is_empty() {
            return Read::End;
        }
        let count = self.piece.min(into.len()).min(rest.len());
        into[..count].copy_from_slice(&rest[..count]);
        self.position += count;
        Read::Got(count)
    }

    fn faults(&self) -> u64 {
        self.calls.faults()
    }
}
