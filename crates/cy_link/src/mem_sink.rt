// A sink in memory.
ghost use Rattle.std.specs.Prelude.{◌≡◌, ◌≤◌, ◌<◌, ◌+◌, ◌-◌, ◌^◌, ◌⊎◌, ℕ, length, min, IsTrue, Some, vec_capacity};

use crate::calls::Calls;
use crate::{Sink, Write};

/// A sink that keeps what is written, a piece at a time, but for the writes that are to fail. A write for which it
/// gets no memory fails too.
#[derive(Drop)]
pub struct MemSink {
    content: Vec<u8>,
    piece: usize,
    calls: Calls,
    ghost some: { 0 < piece },
}

impl MemSink {
    ghost use Rattle.cy_link.specs.Memory.{sink_held, sink_room, sink_failing, sink_writes, sink_faults, sink_piece};

    /// A sink that holds these bytes and adds to them. A write takes at most `piece` bytes, and the writes of these
    /// numbers, of which the first is 0, fail.
    pub fn new(content: Vec<u8>, failing: Vec<u64>, piece: usize) -> Self
        requires { 0 < piece }
        ensures held { sink_held result ≡ content.items }
        ensures room { sink_room result ≡ vec_capacity content }
        ensures failing { sink_failing result ≡ failing.items }
        ensures piece { sink_piece result ≡ piece }
        ensures writes { sink_writes result ≡ 0 }
        ensures faults { sink_faults result ≡ 0 }
    {
        MemSink {
            content,
            piece,
            calls: Calls::new(failing),
        }
    }

    /// What it holds.
    pub fn held(&self) -> &[u8]
        ensures { result.now ≡ sink_held self.now }
    {
        &self.content
    }

    /// What it holds, as the vector itself.
    pub fn into_vec(self) -> Vec<u8>
        ensures { result.items ≡ sink_held self }
    {
        self.content
    }
}

impl Sink for MemSink {
    ghost use Rattle.cy_link.specs.Memory.{is_listed, sink_held, sink_room, sink_failing, sink_writes, sink_faults, sink_piece};
    ghost use Rattle.cy_link.specs.Writes.{IsWriteOf, WriteMoves, WriteCounts};

    ghost held = { λ s. Some (sink_held s) };

    ghost faults = { λ s. sink_faults s };

    // A write of a listed number fails. Any other takes all that the piece allows, and fails only for want of room.
    fn write(&mut self, bytes: &[u8]) -> Write
        requires { 0 < length bytes.now }
        ensures within { IsWriteOf (length bytes.now) result }
        ensures moves { WriteMoves (Some (sink_held self.old)) (Some (sink_held self.new)) bytes.now result }
        ensures later { sink_faults self.old ≤ sink_faults self.new }
        ensures cause { WriteCounts (sink_faults self.old) (sink_faults self.new) result }
        ensures listed { IsTrue (is_listed (sink_failing self.old) (sink_writes self.old)) → result ≡ Write.Failed }
        ensures failed { result ≡ Write.Failed → IsTrue (is_listed (sink_failing self.old) (sink_writes self.old)) ⊎ (sink_room self.old < length (sink_held self.old) + min (sink_piece self.old) (length bytes.now)) }
        ensures full { (n : ℕ) → result ≡ Write.Took n → n ≡ min (sink_piece self.old) (length bytes.now) }
        ensures room { sink_room self.old ≤ sink_room self.new }
        ensures failing { sink_failing self.new ≡ sink_failing self.old }
        ensures writes { sink_writes self.new ≡ min (sink_writes self.old + 1) (2 ^ 64 - 1) }
        ensures piece { sink_piece self.new ≡ sink_piece self.old }
    {
        if self.calls.next_fails() {
            self.calls.add_fault();
            return Write::Failed;
        }
        let front = &bytes[..self.piece.min(bytes.len())];
        match self.content.extend_from_slice(front) {
            Ok(()) => Write::Took(front.len()),
            Err(_) => {
                self.calls.add_fault();
                Write::Failed
            }
        }
    }

    fn faults(&self) -> u64 {
        self.calls.faults()
    }
}
