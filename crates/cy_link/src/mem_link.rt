// A link in memory.
ghost use Rattle.std.specs.Prelude.{◌≡◌, ◌≤◌, ◌<◌, ◌+◌, ◌-◌, ◌^◌, ◌⊎◌, ◌≢◌, ℕ, true, [], List, length, min, drop, take, filter, cond, IsTrue, Some, vec_capacity};
ghost use Rattle.std.specs.List.{list_all};
ghost use Rattle.cy_link.specs.Items.{is_in_first, bytes_of, is_filled, read_of, write_of};

use crate::calls::Calls;
use crate::{Input, Link, Output, Read, Write};

/// Where the next read begins: at this byte of this item.
#[derive(Clone, Copy, Debug, PartialEq, Eq)]
struct Cursor {
    item: usize,
    byte: usize,
}

impl Cursor {
    /// Past so many bytes of a piece of this length.
    fn past(self, count: usize, len: usize) -> Cursor
        requires { (self.byte + count ≤ len) × (self.item + 1 < 2 ^ 64) }
        ensures whole { self.byte + count ≡ len → result ≡ record { item = self.item + 1; byte = 0 } }
        ensures part { self.byte + count < len → result ≡ record { item = self.item; byte = self.byte + count } }
    {
        if self.byte + count == len {
            Cursor {
                item: self.item + 1,
                byte: 0,
            }
        } else {
            Cursor {
                item: self.item,
                byte: self.byte + count,
            }
        }
    }
}

/// A link that gives the pieces that it is made of, and keeps what is written, but for the calls that pause or fail.
/// A write for which it gets no memory fails too.
#[derive(Drop)]
pub struct MemLink {
    inputs: Vec<Input>,
    cursor: Cursor,
    reads: Calls,
    outputs: Vec<Output>,
    written: usize,
    taken: Vec<u8>,
    writes: Calls,
    pauses: u64,
    ghost within: { written ≤ length outputs.items },
    ghost filled: { list_all is_filled inputs.items ≡ true },
    ghost in_first: { is_in_first cursor.byte (drop cursor.item inputs.items) ≡ true },
}

impl MemLink {
    ghost use Rattle.cy_link.specs.MemoryLinks.{link_inputs, link_byte, link_left, link_gave, link_took, link_room, link_outputs, link_failing_reads, link_reads, link_failing_writes, link_writes, link_in_faults, link_out_faults, link_pauses};

    /// A link that reads these items and then its end, adds what is written to these bytes, and finds these items as
    /// it writes, and then room for all. The reads and the writes of these numbers fail, of which the first is 0 for
    /// each.
    pub fn new(
        inputs: Vec<Input>,
        outputs: Vec<Output>,
        taken: Vec<u8>,
        failing_reads: Vec<u64>,
        failing_writes: Vec<u64>,
    ) -> Self
        ensures inputs { link_inputs result ≡ filter is_filled inputs.items }
        ensures byte { link_byte result ≡ 0 }
        ensures left { link_left result ≡ bytes_of inputs.items }
        ensures gave { link_gave result ≡ [] }
        ensures outputs { link_outputs result ≡ outputs.items }
        ensures took { link_took result ≡ taken.items }
        ensures room { link_room result ≡ vec_capacity taken }
        ensures failing_reads { link_failing_reads result ≡ failing_reads.items }
        ensures failing_writes { link_failing_writes result ≡ failing_writes.items }
        ensures reads { link_reads result ≡ 0 }
        ensures writes { link_writes result ≡ 0 }
        ensures counts { (link_in_faults result ≡ 0) × (link_out_faults result ≡ 0) × (link_pauses result ≡ 0) }
    {
        let mut inputs = inputs;
        inputs.retain(|input| input.is_filled());
        MemLink {
            inputs,
            cursor: Cursor { item: 0, byte: 0 },
            reads: Calls::new(failing_reads),
            outputs,
            written: 0,
            taken,
            writes: Calls::new(failing_writes),
            pauses: 0,
        }
    }

    /// What it took.
    pub fn taken(&self) -> &[u8]
        ensures { result.now ≡ link_took self.now }
    {
        &self.taken
    }
}

impl Link for MemLink {
    ghost use Rattle.cy_link.specs.Memory.{is_listed};
    ghost use Rattle.cy_link.specs.MemoryLinks.{link_inputs, link_byte, link_left, link_gave, link_took, link_room, link_outputs, link_failing_reads, link_reads, link_failing_writes, link_writes, link_in_faults, link_out_faults, link_pauses};
    ghost use Rattle.cy_link.specs.Reads.{ReadMoves, ReadLeaves, ReadCounts};
    ghost use Rattle.cy_link.specs.Writes.{WriteMoves, WriteCounts};
    ghost use Rattle.cy_link.specs.LinkReads.{IsLinkRead, ReadGives, ReadPauses};
    ghost use Rattle.cy_link.specs.LinkWrites.{IsLinkWrite, WritePauses};

    ghost gave = { λ l. Some (link_gave l) };

    ghost left = { λ l. Some (link_left l) };

    ghost took = { λ l. Some (link_took l) };

    ghost in_faults = { λ l. link_in_faults l };

    ghost out_faults = { λ l. link_out_faults l };

    ghost pauses = { λ l. link_pauses l };

    // A read of a listed number fails. Any other finds the next item, or the end.
    fn read(&mut self, into: &mut [u8]) -> Read
        requires { 0 < length into.old }
        ensures within { IsLinkRead (length into.old) result }
        ensures moves { ReadMoves (Some (link_left self.old)) (Some (link_left self.new)) into.new result }
        ensures gives { ReadGives (Some (link_gave self.old)) (Some (link_gave self.new)) into.new result }
        ensures leaves { ReadLeaves (Some (link_left self.old)) into.old into.new result }
        ensures took { Some (link_took self.new) ≡ Some (link_took self.old) }
        ensures later { (link_in_faults self.old ≤ link_in_faults self.new) × (link_pauses self.old ≤ link_pauses self.new) }
        ensures cause { ReadCounts (link_in_faults self.old) (link_in_faults self.new) result }
        ensures pauses { ReadPauses (link_pauses self.old) (link_pauses self.new) result }
        ensures out_faults { link_out_faults self.new ≡ link_out_faults self.old }
        ensures used { result ≡ Read.NotYet → link_inputs self.new ≡ drop 1 (link_inputs self.old) }
        ensures kept { result ≡ Read.Failed → (link_inputs self.new ≡ link_inputs self.old) × (link_byte self.new ≡ link_byte self.old) }
        ensures reads { link_reads self.new ≡ min (link_reads self.old + 1) (2 ^ 64 - 1) }
        ensures writes { (link_outputs self.new ≡ link_outputs self.old) × (link_writes self.new ≡ link_writes self.old) }
        ensures failing { (link_failing_reads self.new ≡ link_failing_reads self.old) × (link_failing_writes self.new ≡ link_failing_writes self.old) }
        ensures answer { result ≡ cond (is_listed (link_failing_reads self.old) (link_reads self.old)) Read.Failed (read_of (link_byte self.old) (link_inputs self.old) (length into.old)) }
    {
        if self.reads.next_fails() {
            self.reads.add_fault();
            return Read::Failed;
        }
        let Cursor { item, byte } = self.cursor;
        let Some(input) = self.inputs.get(item) else {
            return Read::End;
        };
        match input {
            Input::Pause => {
                self.pauses = self.pauses.saturating_add(1);
                self.cursor = Cursor {
                    item: item + 1,
                    byte: 0,
                };
                Read::NotYet
            }
            Input::Piece(bytes) => {
                let rest = &bytes[byte..];
                let count = into.len().min(rest.len());
                into[..count].copy_from_slice(&rest[..count]);
                self.cursor = Cursor { item, byte }.past(count, bytes.len());
                Read::Got(count)
            }
        }
    }

    // A write of a listed number fails. Any other finds the next item, or room for all, and fails only for want of
    // memory.
    fn write(&mut self, bytes: &[u8]) -> Write
        requires { 0 < length bytes.now }
        ensures within { IsLinkWrite (length bytes.now) result }
        ensures moves { WriteMoves (Some (link_took self.old)) (Some (link_took self.new)) bytes.now result }
        ensures gave { Some (link_gave self.new) ≡ Some (link_gave self.old) }
        ensures left { Some (link_left self.new) ≡ Some (link_left self.old) }
        ensures later { (link_out_faults self.old ≤ link_out_faults self.new) × (link_pauses self.old ≤ link_pauses self.new) }
        ensures cause { WriteCounts (link_out_faults self.old) (link_out_faults self.new) result }
        ensures pauses { WritePauses (link_pauses self.old) (link_pauses self.new) result }
        ensures in_faults { link_in_faults self.new ≡ link_in_faults self.old }
        ensures used { result ≢ Write.Failed → link_outputs self.new ≡ drop 1 (link_outputs self.old) }
        ensures kept { result ≡ Write.Failed → link_outputs self.new ≡ link_outputs self.old }
        ensures room { link_room self.old ≤ link_room self.new }
        ensures writes { link_writes self.new ≡ min (link_writes self.old + 1) (2 ^ 64 - 1) }
        ensures reads { (link_inputs self.new ≡ link_inputs self.old) × (link_byte self.new ≡ link_byte self.old) × (link_reads self.new ≡ link_reads self.old) }
        ensures failing { (link_failing_reads self.new ≡ link_failing_reads self.old) × (link_failing_writes self.new ≡ link_failing_writes self.old) }
        ensures listed { IsTrue (is_listed (link_failing_writes self.old) (link_writes self.old)) → result ≡ Write.Failed }
        ensures failed { result ≡ Write.Failed → IsTrue (is_listed (link_failing_writes self.old) (link_writes self.old)) ⊎ (link_room self.old < length (link_took self.old) + length bytes.now) }
        ensures answer { result ≢ Write.Failed → result ≡ write_of (link_outputs self.old) (length bytes.now) }
    {
        if self.writes.next_fails() {
            self.writes.add_fault();
            return Write::Failed;
        }
        let room = match self.outputs.get(self.written) {
            Some(Output::Pause) => {
                self.pauses = self.pauses.saturating_add(1);
                self.written += 1;
                return Write::NotYet;
            }
            Some(Output::Room(room)) => (*room).max(1),
            None => bytes.len(),
        };
        let front = &bytes[..room.min(bytes.len())];
        match self.taken.extend_from_slice(front) {
            Ok(()) => {
                self.written = (self.written + 1).min(self.outputs.len());
                Write::Took(front.len())
            }
            Err(_) => {
                self.writes.add_fault();
                Write::Failed
            }
        }
    }

    fn in_faults(&self) -> u64 {
        self.reads.faults()
    }

    fn out_faults(&self) -> u64 {
        self.writes.faults()
    }

    fn pauses(&self) -> u64 {
        self.pauses
    }
}
