//! A connection over a socket.
ghost use Rattle.std.specs.Prelude.{◌≡◌, ◌≤◌, ◌<◌, ◌+◌, ◌-◌, ◌^◌, length, min};
ghost use Rattle.cy_link.specs.LinkReads.{IsLinkRead};
ghost use Rattle.cy_link.specs.LinkWrites.{IsLinkWrite};

use crate::marks::Marks;
use cy_link::{Link, Read, Write};
use mio::net::TcpStream;
use std::alloc::Global;
use std::io::{ErrorKind, Read as _, Write as _};
use std::sync::Arc;

/// How often a read or a write is tried that a signal breaks off.
const TRIES: u32 = 1000;

/// A connection over a socket that doesn't block.
#[derive(Drop)]
pub struct MioLink {
    pub(crate) stream: TcpStream,
    // The marks of the `MioReady` that tells of it, and its place there.
    pub(crate) marks: Option<Arc<Marks, Global>>,
    pub(crate) place: u32,
    // The last read got less than it asked for, so the socket held no more.
    is_drained: bool,
    in_faults: u64,
    out_faults: u64,
    pauses: u64,
}

impl MioLink {
    ghost use Rattle.cy_net.specs.Counts.{link_in_faults, link_out_faults, link_pauses};

    /// A connection over this stream, which doesn't block.
    pub fn new(stream: TcpStream) -> MioLink
        ensures counts { (link_in_faults result ≡ 0) × (link_out_faults result ≡ 0) × (link_pauses result ≡ 0) }
    {
        MioLink {
            stream,
            marks: None,
            place: 0,
            is_drained: false,
            in_faults: 0,
            out_faults: 0,
            pauses: 0,
        }
    }

    /// Whether the next read can do without a system call: the one before emptied the socket, and no event has told of
    /// an end since. It is so once, and then the system is asked again.
    fn is_known_empty(&mut self) -> bool
        ensures in_faults { link_in_faults self.new ≡ link_in_faults self.old }
        ensures out_faults { link_out_faults self.new ≡ link_out_faults self.old }
        ensures pauses { link_pauses self.new ≡ link_pauses self.old }
    {
        let was_drained = self.is_drained;
        self.is_drained = false;
        match &self.marks {
            Some(marks) => was_drained && !marks.get(self.place),
            None => false,
        }
    }

    /// Counts a pause.
    fn pause(&mut self)
        ensures in_faults { link_in_faults self.new ≡ link_in_faults self.old }
        ensures out_faults { link_out_faults self.new ≡ link_out_faults self.old }
        ensures pauses { link_pauses self.new ≡ min (link_pauses self.old + 1) (2 ^ 64 - 1) }
        ensures later { link_pauses self.old ≤ link_pauses self.new }
    {
        self.pauses = self.pauses.saturating_add(1);
    }
}

impl Link for MioLink {
    ghost use Rattle.std.specs.Prelude.{None};
    ghost use Rattle.cy_net.specs.Counts.{link_in_faults, link_out_faults, link_pauses};

    ghost gave = { λ _. None };

    ghost left = { λ _. None };

    ghost took = { λ _. None };

    ghost in_faults = { λ l. link_in_faults l };

    ghost out_faults = { λ l. link_out_faults l };

    ghost pauses = { λ l. link_pauses l };

    fn read(&mut self, into: &mut [u8]) -> Read {
        if self.is_known_empty() {
            self.pause();
            return Read::NotYet;
        }
        let answer = read_stream(&mut self.stream, into);
        match answer {
            Read::Got(count) => self.is_drained = count < into.len(),
            Read::End => {}
            Read::NotYet => self.pause(),
            Read::Failed => self.in_faults = self.in_faults.saturating_add(1),
        }
        answer
    }

    fn write(&mut self, bytes: &[u8]) -> Write {
        let answer = write_stream(&mut self.stream, bytes);
        match answer {
            Write::Took(_) => {}
            Write::NotYet => self.pause(),
            Write::Failed => self.out_faults = self.out_faults.saturating_add(1),
        }
        answer
    }

    fn in_faults(&self) -> u64 {
        self.in_faults
    }

    fn out_faults(&self) -> u64 {
        self.out_faults
    }

    fn pauses(&self) -> u64 {
        self.pauses
    }
}

/// Reads from the stream, and again where a signal broke the read off.
fn read_stream(stream: &mut TcpStream, into: &mut [u8]) -> Read
    requires { 0 < length into.old }
    ensures { IsLinkRead (length into.old) result }
{
    for _ in 0..TRIES {
        match stream.read(into) {
            Ok(0) => return Read::End,
            Ok(count) => return Read::Got(count),
            Err(fault) if fault.kind() == ErrorKind::WouldBlock => return Read::NotYet,
            Err(fault) if fault.kind() == ErrorKind::Interrupted => {}
            Err(_) => return Read::Failed,
        }
    }
    Read::Failed
}

/// Writes to the stream, and again where a signal broke the write off. That a stream takes nothing is a fault.
fn write_stream(stream: &mut TcpStream, bytes: &[u8]) -> Write
    ensures { IsLinkWrite (length bytes.now) result }
{
    for _ in 0..TRIES {
        match stream.write(bytes) {
            Ok(0) => return Write::Failed,
            Ok(count) => return Write::Took(count),
            Err(fault) if fault.kind() == ErrorKind::WouldBlock => return Write::NotYet,
            Err(fault) if fault.kind() == ErrorKind::Interrupted => {}
            Err(_) => return Write::Failed,
        }
    }
    Write::Failed
}
