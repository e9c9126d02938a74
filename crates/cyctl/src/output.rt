// Writes a text to a sink.
ghost use Rattle.std.specs.Prelude.{◌≡◌, ◌≤◌, ◌<◌, OnOk, OnErr, length, None};
ghost use Rattle.cy_link.specs.Causes.{Rose};
ghost use Rattle.std.specs.Io.KnownBytes.{Appends};
ghost use Rattle.cyctl.specs.Causes.{WritesFront};

use cy_link::{Sink, Write};
use std::io;
use std::io::ErrorKind;

/// The sink failed.
#[derive(Clone, Copy, Debug, PartialEq, Eq)]
pub struct OutputFault;

/// Writes all of the text.
pub fn write_all<K: Sink>(sink: &mut K, text: &[u8]) -> Result<(), OutputFault>
    ensures whole { OnOk result (Appends (K.held sink.old) (K.held sink.new) text.now) }
    ensures front { OnErr result (WritesFront (K.held sink.old) (K.held sink.new) text.now) }

    // The sink failed only where its count rose, and the count rises nowhere else.
    ensures failed { OnErr result (Rose (K.faults sink.old) (K.faults sink.new)) }
    ensures same { OnOk result (K.faults sink.new ≡ K.faults sink.old) }
    ensures later { K.faults sink.old ≤ K.faults sink.new }
{
    let mut written = 0;
    while written < text.len() {
        match sink.write(&text[written..]) {
            Write::Took(count) => written += count,
            Write::Failed => return Err(OutputFault),
            Write::NotYet => unreachable!(),
        }
    }
    Ok(())
}

/// A sink over a writer of the system, which tells nothing of its bytes.
#[derive(Drop)]
pub struct StdSink<W> {
    pub writer: W,
    faults: u64,
}

impl<W> StdSink<W> {
    /// A sink that has not failed.
    pub fn new(writer: W) -> Self
        ensures writer { result.writer ≡ writer }
        ensures calm { result.faults ≡ 0 }
    {
        StdSink { writer, faults: 0 }
    }
}

// How often a write that a signal broke off is tried again.
const TRIES: usize = 16;

impl<W: io::Write> Sink for StdSink<W> {
    ghost use Rattle.cy_link.specs.Writes.{IsWriteOf, WriteMoves, WriteCounts};

    ghost held = { λ _. None };

    ghost faults = { λ s. s.faults };

    // A writer of known bytes gets what is passed on. One that takes no byte has failed.
    fn write(&mut self, bytes: &[u8]) -> Write
        requires { 0 < length bytes.now }
        ensures within { IsWriteOf (length bytes.now) result }
        ensures moves { WriteMoves None None bytes.now result }
        ensures later { self.old.faults ≤ self.new.faults }
        ensures cause { WriteCounts self.old.faults self.new.faults result }
        ensures passes { WriteMoves (W.contents self.old.writer) (W.contents self.new.writer) bytes.now result }
    {
        for _try in 0..TRIES {
            match self.writer.write(bytes) {
                Ok(0) => break,
                Ok(count) => return Write::Took(count),
                Err(e) if e.kind() == ErrorKind::Interrupted => {}
                Err(_) => break,
            }
        }
        self.faults = self.faults.saturating_add(1);
        Write::Failed
    }

    fn faults(&self) -> u64 {
        self.faults
    }
}

#[cfg(test)]
mod tests;
