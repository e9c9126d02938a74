//! The two rings of a connection.

ghost use Rattle.std.specs.Prelude.{◌≡◌, ◌+◌, ◌-◌, ◌++◌, ◌≤◌, [], length, take, drop, min, IfOk, vec_len, vec_capacity};
ghost use Rattle.std.specs.Borrow.{sem};

use crate::fault::NoMemory;
use std::alloc::Global;
use std::marker::Model;

/// How many bytes the in ring holds at most.
pub const IN_CAPACITY: usize = 16_384;

/// How many bytes the out ring holds at most.
pub const OUT_CAPACITY: usize = 32_768;

/// The in ring and the out ring of a connection. Contracts see the two lists of bytes that they hold, the oldest byte
/// first. All memory is taken when the kit is made, and no later call takes any.
#[derive(Drop)]
pub struct ConnKit {
    input: Vec<u8>,
    output: Vec<u8>,
}

impl Model for ConnKit {
    ghost use Rattle.std.specs.Prelude.{◌≤◌, vec_len, vec_capacity};
    ghost use Rattle.cy_rings.specs.Rings.{Rings};
    ghost use Rattle.cy_rings.specs.declared.kit.TheConstants.{IN_CAPACITY, OUT_CAPACITY};

    ghost Value = { Rings };

    ghost view = { λ k. record { input = k.input.items; output = k.output.items } };

    ghost invariant = { λ k. (vec_len k.input ≤ IN_CAPACITY) × (IN_CAPACITY ≤ vec_capacity k.input)
        × (vec_len k.output ≤ OUT_CAPACITY) × (OUT_CAPACITY ≤ vec_capacity k.output) };
}

impl ConnKit {
    ghost use Rattle.cy_rings.specs.Lending.{IsGivenBack};

    /// Two empty rings, with all the memory that they will ever need.
    ///
    /// # Errors
    ///
    /// `NoMemory` where memory ran out.
    pub fn new(alloc: Global) -> Result<ConnKit, NoMemory>
        ensures { IfOk result (λ kit. kit ≡ record { input = []; output = [] }) }
    {
        Ok(ConnKit {
            input: Vec::with_capacity(alloc, IN_CAPACITY)?,
            output: Vec::with_capacity(alloc, OUT_CAPACITY)?,
        })
    }

    /// Puts bytes that came from the socket behind those in the in ring, as many as fit, and says how many.
    pub fn put_in(&mut self, bytes: &[u8]) -> usize
        ensures count { result ≡ min (length bytes.now) (IN_CAPACITY - length self.old.input) }
        ensures rings { self.new ≡ record self.old { input = self.old.input ++ take result bytes.now } }
    {
        let count = bytes.len().min(self.in_room());
        append(&mut self.input, &bytes[..count]);
        count
    }

    /// How many bytes the in ring holds.
    pub fn in_len(&self) -> usize
        ensures held { result ≡ length self.now.input }
        ensures within { result ≤ IN_CAPACITY }
    {
        self.input.len()
    }

    /// How many more bytes the in ring can take.
    pub fn in_room(&self) -> usize
        ensures { result + length self.now.input ≡ IN_CAPACITY }
    {
        IN_CAPACITY - self.input.len()
    }

    /// All bytes in the in ring, in one slice.
    pub fn in_front(&mut self) -> &[u8]
        ensures held { result.now ≡ self.old.input }
        ensures within { length result.now ≤ IN_CAPACITY }
        ensures* given_back { sem 𝓛 (IsGivenBack self.entry) }
    {
        self.input.as_slice()
    }

    /// Takes the first `n` bytes out of the in ring. It costs a move of those that stay to the front, so take all
    /// that was read at once and not byte by byte.
    pub fn take_in(&mut self, n: usize)
        requires { n ≤ length self.old.input }
        ensures { self.new ≡ record self.old { input = drop n self.old.input } }
    {
        drop_front(&mut self.input, n);
    }

    /// Puts bytes for the socket behind those in the out ring. They must fit: `out_room` tells.
    pub fn put_out(&mut self, bytes: &[u8])
        requires { length self.old.output + length bytes.now ≤ OUT_CAPACITY }
        ensures { self.new ≡ record self.old { output = self.old.output ++ bytes.now } }
    {
        append(&mut self.output, bytes);
    }

    /// How many bytes the out ring holds.
    pub fn out_len(&self) -> usize
        ensures held { result ≡ length self.now.output }
        ensures within { result ≤ OUT_CAPACITY }
    {
        self.output.len()
    }

    /// How many more bytes the out ring can take.
    pub fn out_room(&self) -> usize
        ensures { result + length self.now.output ≡ OUT_CAPACITY }
    {
        OUT_CAPACITY - self.output.len()
    }

    /// All bytes in the out ring, in one slice.
    pub fn out_front(&mut self) -> &[u8]
        ensures held { result.now ≡ self.old.output }
        ensures within { length result.now ≤ OUT_CAPACITY }
        ensures* given_back { sem 𝓛 (IsGivenBack self.entry) }
    {
        self.output.as_slice()
    }

    /// Takes the first `n` bytes out of the out ring, which the socket took. It costs a move of those that stay to
    /// the front.
    pub fn took_out(&mut self, n: usize)
        requires { n ≤ length self.old.output }
        ensures { self.new ≡ record self.old { output = drop n self.old.output } }
    {
        drop_front(&mut self.output, n);
    }

    /// Empties both rings. Their memory stays.
    pub fn clear(&mut self)
        ensures { self.new ≡ record { input = []; output = [] } }
    {
        self.input.clear();
        self.output.clear();
    }
}

/// Puts bytes at the end of a ring that has room for them.
fn append(ring: &mut Vec<u8>, bytes: &[u8])
    requires { vec_len ring.old + length bytes.now ≤ vec_capacity ring.old }
    ensures items { ring.new.items ≡ ring.old.items ++ bytes.now }
    ensures len { vec_len ring.new ≡ vec_len ring.old + length bytes.now }
    ensures capacity { vec_capacity ring.old ≤ vec_capacity ring.new }
{
    ring.extend_from_slice(bytes).unwrap();
}

/// Takes the first `n` bytes out of a ring, and moves the rest to the front.
fn drop_front(ring: &mut Vec<u8>, n: usize)
    requires { n ≤ vec_len ring.old }
    ensures items { ring.new.items ≡ drop n ring.old.items }
    ensures len { vec_len ring.new + n ≡ vec_len ring.old }
    ensures capacity { vec_capacity ring.new ≡ vec_capacity ring.old }
{
    let left = ring.len() - n;
    ring.copy_within(n.., 0);
    ring.truncate(left);
}
