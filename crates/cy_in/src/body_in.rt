//! The body of a request, as it comes.

ghost use Rattle.std.specs.Prelude.{◌≡◌, ◌+◌, ◌-◌, ◌≤◌, ◌++◌, None, drop, length, take};
ghost use Rattle.cy_event.specs.Bodies.{first_stage};
ghost use Rattle.cy_in.specs.Scans.{scan_at};

use crate::fault::{BodyFault, Scan};
use crate::marks::{GREATEST_RAW, give_bytes, scan_bytes};
use cy_event::{BodyMark, BodyStage, Framing, Limits, Reply};
use cy_rings::ConnKit;
use std::marker::Model;

/// A body on its way through the in ring: how far it was scanned, and how far it was taken out of the ring. It keeps no
/// byte and takes no memory. The ring holds what was scanned and not taken first, and then what wasn't scanned yet:
/// between two calls bytes are only put in.
///
/// Each call with a kit asks that the bytes taken since `start` and those that the in ring holds are at most 2^62.
#[derive(Debug, Drop)]
pub struct BodyIn {
    scanned: BodyMark,
    taken: BodyMark,
    max_trailer: u32,
    swallowed_from: Option<u64>,
}

impl Model for BodyIn {
    ghost use Rattle.cy_in.specs.Intakes.{Intake, IsIntake};

    ghost Value = { Intake };

    ghost view = { λ b. record { scanned = b.scanned; taken = b.taken; max_trailer = b.max_trailer; swallowed_from = b.swallowed_from } };

    ghost invariant = { λ b. IsIntake (record { scanned = b.scanned; taken = b.taken; max_trailer = b.max_trailer; swallowed_from = b.swallowed_from }) };
}

impl BodyIn {
    ghost use Rattle.cy_in.specs.Intakes.{IsShort, after_read, after_scan, after_swallow, ahead, content_read, has_content, is_ready, is_whole, piece, scan_answer, started, swallow_answer, swallowed, taken_by, waiting};
    ghost use Rattle.cy_in.specs.Reads.{reply_of_read};

    /// No body, which is whole from the start.
    pub fn none() -> BodyIn
        ensures { result ≡ started Framing.None }
    {
        BodyIn::at_start(Framing::None)
    }

    /// Begins at the first byte of a body, of at most 2^62 bytes where it has a length.
    pub fn start(&mut self, body: Framing)
        requires { IsShort body }
        ensures { self.new ≡ started body }
    {
        *self = BodyIn::at_start(body);
    }

    /// Scans the bytes of the ring that weren't scanned yet, and says what all that was scanned is. It takes no byte.
    pub fn scan(&mut self, kit: &mut ConnKit, limits: &Limits) -> Scan
        requires { self.old.taken.raw + length kit.old.input ≤ GREATEST_RAW }
        ensures answer { result ≡ scan_answer self.new }
        ensures after { self.new ≡ after_scan limits.now.max_trailer self.old kit.old.input }
        ensures kit { kit.new ≡ kit.old }
    {
        let ahead = self.ahead();
        let front: &[u8] = kit.in_front();
        self.scanned = scan_bytes(limits.max_trailer, self.scanned, behind(front, ahead));
        self.max_trailer = limits.max_trailer;
        scan_at(self.scanned)
    }

    /// Answers `Got` and gives the content that waits to the front of `into`, as much as there is and as fits, and takes the shortest part
    /// of the body that holds it. Where none waits and the body is whole, the answer
    /// is `GotEnd`, and all of it is taken; else it is `Again`. No
    /// `swallow` may have been called since `start`.
    pub fn read(&mut self, kit: &mut ConnKit, into: &mut [u8]) -> Reply
        requires size { self.old.taken.raw + length kit.old.input ≤ GREATEST_RAW }
        requires unswallowed { self.old.swallowed_from ≡ None }
        ensures answer { result ≡ reply_of_read (length into.old) self.old kit.old.input }
        ensures into { let content = content_read (length into.old) self.old kit.old.input in into.new ≡ content ++ drop (length content) into.old }
        ensures after { self.new ≡ after_read (length into.old) self.old kit.old.input }
        ensures kit { kit.new ≡ record kit.old { input = drop (taken_by self.old self.new) kit.old.input } }
        ensures room { self.new.taken.raw + length kit.new.input ≤ GREATEST_RAW }
    {
        if self.waiting() > 0 {
            Reply::Got(self.give(kit, into) as u64)
        } else if self.is_whole() {
            self.take_all(kit);
            Reply::GotEnd
        } else {
            Reply::Again
        }
    }

    /// Whether a read of one byte would answer something other than `Again`. No `swallow` may have been called since
    /// `start`.
    pub fn is_ready(&self) -> bool
        requires { self.now.swallowed_from ≡ None }
        ensures { result ≡ is_ready self.now }
    {
        self.waiting() > 0 || self.is_whole()
    }

    /// Scans, and takes all that was scanned, whether it was read or not. Once more bytes were taken so than
    /// `max_swallow`, it answers `SwallowLimit`. The byte that makes a body bad is never taken: where both are so, more
    /// than `max_swallow` bytes came before it.
    pub fn swallow(&mut self, kit: &mut ConnKit, limits: &Limits) -> Scan
        requires { self.old.taken.raw + length kit.old.input ≤ GREATEST_RAW }
        ensures answer { result ≡ swallow_answer limits.now.max_swallow self.new }
        ensures after { self.new ≡ after_swallow limits.now.max_trailer self.old kit.old.input }
        ensures kit { kit.new ≡ record kit.old { input = drop (taken_by self.old self.new) kit.old.input } }
        ensures room { self.new.taken.raw + length kit.new.input ≤ GREATEST_RAW }
    {
        let from = self.swallowed_from.unwrap_or(self.taken.raw);
        let scan = self.scan(kit, limits);
        self.take_all(kit);
        self.swallowed_from = Some(from);
        if self.taken.raw.saturating_sub(from) > limits.max_swallow {
            Scan::Bad(BodyFault::SwallowLimit)
        } else {
            scan
        }
    }

    /// What all that was scanned is.
    pub fn found(&self) -> Scan
        ensures { result ≡ scan_answer self.now }
    {
        scan_at(self.scanned)
    }

    /// How many bytes were swallowed.
    pub fn swallowed(&self) -> u64
        ensures { result ≡ swallowed self.now }
    {
        let from = self.swallowed_from.unwrap_or(self.taken.raw);
        self.taken.raw.saturating_sub(from)
    }

    fn at_start(body: Framing) -> BodyIn
        ensures { result ≡ started body }
    {
        let first = BodyMark {
            raw: 0,
            content: 0,
            stage: first_stage(body),
        };
        BodyIn {
            scanned: first,
            taken: first,
            max_trailer: 0,
            swallowed_from: None,
        }
    }

    /// How many bytes stand first in the ring that were scanned.
    fn ahead(&self) -> usize
        ensures { result ≡ ahead self.now }
    {
        (self.scanned.raw - self.taken.raw) as usize
    }

    /// How much content was scanned and not read.
    fn waiting(&self) -> u64
        ensures { result ≡ waiting self.now }
    {
        self.scanned.content.saturating_sub(self.taken.content)
    }

    fn is_whole(&self) -> bool
        ensures { result ≡ is_whole self.now.scanned.stage }
    {
        self.scanned.stage == BodyStage::Whole
    }

    /// Gives content, which waits.
    fn give(&mut self, kit: &mut ConnKit, into: &mut [u8]) -> usize
        requires { self.old.taken.raw + length kit.old.input ≤ GREATEST_RAW }
        ensures given { let content = (piece (length into.old) self.old kit.old.input).content in into.new ≡ content ++ drop (length content) into.old }
        ensures count { result ≡ length (piece (length into.old) self.old kit.old.input).content }
        ensures after { self.new ≡ record self.old { taken = (piece (length into.old) self.old kit.old.input).mark } }
        ensures kit { kit.new ≡ record kit.old { input = drop (taken_by self.old self.new) kit.old.input } }
        ensures room { self.new.taken.raw + length kit.new.input ≤ GREATEST_RAW }
    {
        let most = self.waiting().min(into.len() as u64) as usize;
        let ahead = self.ahead();
        let front: &[u8] = kit.in_front();
        let (taken, count) = give_bytes(
            self.max_trailer,
            self.taken,
            first(front, ahead),
            most,
            into,
        );
        kit.take_in((taken.raw - self.taken.raw) as usize);
        self.taken = taken;
        count
    }

    /// Takes all that was scanned.
    fn take_all(&mut self, kit: &mut ConnKit)
        requires { self.old.taken.raw + length kit.old.input ≤ GREATEST_RAW }
        ensures after { self.new ≡ record self.old { taken = self.old.scanned } }
        ensures kit { kit.new ≡ record kit.old { input = drop (ahead self.old) kit.old.input } }
        ensures room { self.new.taken.raw + length kit.new.input ≤ GREATEST_RAW }
    {
        let ahead = self.ahead();
        self.taken = self.scanned;
        take_up_to(kit, ahead);
    }
}

/// What may come first.
fn first_stage(body: Framing) -> BodyStage
    ensures { result ≡ first_stage body }
{
    match body {
        Framing::None | Framing::Length(0) => BodyStage::Whole,
        Framing::Length(length) => BodyStage::Counted(length),
        Framing::Chunked => BodyStage::SizeDue,
    }
}

/// What the bytes before the mark are.
fn scan_at(mark: BodyMark) -> Scan
    ensures { result ≡ scan_at mark mark.stage }
{
    match mark.stage {
        BodyStage::Whole => Scan::Whole,
        BodyStage::Malformed => Scan::Bad(BodyFault::BadChunk { place: mark.raw }),
        BodyStage::TooLong => Scan::Bad(BodyFault::TrailerTooLarge),
        _ => Scan::Partial,
    }
}

/// The first `n` bytes, where there are as many.
fn first(bytes: &[u8], n: usize) -> &[u8]
    ensures first { result.now ≡ take n bytes.now }
    ensures within { length result.now ≤ length bytes.now }
{
    &bytes[..n.min(bytes.len())]
}

/// The bytes behind the first `n`.
fn behind(bytes: &[u8], n: usize) -> &[u8]
    ensures behind { result.now ≡ drop n bytes.now }
    ensures within { length result.now ≡ length bytes.now - n }
{
    &bytes[n.min(bytes.len())..]
}

/// Takes the first `n` bytes out of the in ring, where it holds as many.
fn take_up_to(kit: &mut ConnKit, n: usize)
    ensures { kit.new ≡ record kit.old { input = drop n kit.old.input } }
{
    let held = kit.in_len();
    kit.take_in(n.min(held));
}

#[cfg(test)]
mod tests;
