// Reads a source to its end.
ghost use Rattle.std.specs.Prelude.{◌≡◌, ◌≢◌, ◌≤◌, ◌<◌, IfOk, vec_len, length, None};
ghost use Rattle.cy_link.specs.Causes.{Rose};
ghost use Rattle.cyctl.specs.Causes.{ReadsAll, WasRead};
ghost use Rattle.cyctl.specs.declared.input.InputFault.TheVariants.{NoMemory};

use cy_link::{Read, Source};
use std::alloc::{AllocError, Global};
use std::io;
use std::io::ErrorKind;

/// The most bytes that an input may have.
pub const GREATEST_INPUT: usize = 67_108_864;

// The most bytes that are read at once.
const PAGE: usize = 16_384;

/// Why an input wasn't read to its end.
#[derive(Clone, Copy, Debug, PartialEq, Eq)]
pub enum InputFault {
    /// The source failed.
    Failed,
    /// It has more than `GREATEST_INPUT` bytes.
    TooLarge,
    /// There is no memory for it.
    NoMemory,
}

impl From<AllocError> for InputFault {
    ghost from_gives = { λ _ fault. fault ≡ NoMemory };

    fn from(_: AllocError) -> Self {
        InputFault::NoMemory
    }
}

/// All that the source has left.
pub fn read_all<S: Source>(alloc: Global, source: &mut S) -> Result<Vec<u8>, InputFault>
    ensures whole { IfOk result (λ input. ReadsAll (S.left source.old) (S.left source.new) input.items) }
    ensures size { IfOk result (λ input. vec_len input ≤ GREATEST_INPUT) }

    // A source failed only where its count rose, and the count rises nowhere else.
    ensures failed { result ≡ Err InputFault.Failed → Rose (S.faults source.old) (S.faults source.new) }
    ensures same { result ≢ Err InputFault.Failed → S.faults source.new ≡ S.faults source.old }
    ensures later { S.faults source.old ≤ S.faults source.new }

    // An input is too large exactly where more than the greatest number of bytes were read.
    ensures too_large { result ≡ Err InputFault.TooLarge → WasRead (λ n. GREATEST_INPUT < n) (S.left source.old) (S.left source.new) }
    ensures not_too_large { result ≢ Err InputFault.TooLarge → WasRead (λ n. n ≤ GREATEST_INPUT) (S.left source.old) (S.left source.new) }
{
    let mut input = Vec::new(alloc);
    let mut page = [0u8; PAGE];
    // Each turn reads a byte or more.
    for _turn in 0..GREATEST_INPUT + 1 {
        match source.read(&mut page) {
            Read::Got(count) if count > GREATEST_INPUT - input.len() => {
                return Err(InputFault::TooLarge);
            }
            Read::Got(count) => input.extend_from_slice(&page[..count])?,
            Read::End => return Ok(input),
            Read::Failed => return Err(InputFault::Failed),
            Read::NotYet => unreachable!(),
        }
    }
    unreachable!()
}

/// A source over a reader of the system, which tells nothing of its bytes.
#[derive(Drop)]
pub struct StdSource<R> {
    pub reader: R,
    faults: u64,
}

impl<R> StdSource<R> {
    /// A source that has not failed.
    pub fn new(reader: R) -> Self
        ensures reader { result.reader ≡ reader }
        ensures calm { result.faults ≡ 0 }
    {
        StdSource { reader, faults: 0 }
    }
}

// How often a read that a signal broke off is tried again.
const TRIES: usize = 16;

impl<R: io::Read> Source for StdSource<R> {
    ghost use Rattle.cy_link.specs.Reads.{IsReadOf, ReadMoves, ReadLeaves, ReadCounts};

    ghost left = { λ _. None };

    ghost faults = { λ s. s.faults };

    // What a reader of known bytes gives is passed on, and only its end ends the source.
    fn read(&mut self, into: &mut [u8]) -> Read
        requires { 0 < length into.old }
        ensures within { IsReadOf (length into.old) result }
        ensures moves { ReadMoves None None into.new result }
        ensures leaves { ReadLeaves None into.old into.new result }
        ensures later { self.old.faults ≤ self.new.faults }
        ensures cause { ReadCounts self.old.faults self.new.faults result }
        ensures passes { ReadMoves (R.remaining self.old.reader) (R.remaining self.new.reader) into.new result }
    {
        for _try in 0..TRIES {
            match self.reader.read(into) {
                Ok(0) => return Read::End,
                Ok(count) => return Read::Got(count),
                Err(e) if e.kind() == ErrorKind::Interrupted => {}
                Err(_) => break,
            }
        }
        self.faults = self.faults.saturating_add(1);
        Read::Failed
    }

    fn faults(&self) -> u64 {
        self.faults
    }
}

#[cfg(test)]
mod tests;
