//! The content of one answer after another.
ghost use Rattle.std.specs.Prelude.{◌≡◌, ◌+◌, ◌-◌, ◌<◌, ◌≤◌, ◌++◌, [], false, length, min, take, true, vec_len, vec_capacity, IfOk};
ghost use Rattle.cy_event.specs.AnswerModes.{last_text, piece_text};
ghost use Rattle.cy_event.specs.Answering.{can_cut};
ghost use Rattle.cy_event.specs.declared.limits.TheConstants.{GREATEST_MOMENT};
ghost use Rattle.cy_rings.specs.declared.kit.TheConstants.{OUT_CAPACITY};
ghost use Rattle.cy_out.specs.Told.{told_asked, told_mode};

use crate::chunk::{put, put_chunk};
use crate::mode::{Answer, Mode};
use cy_event::{NoMemory, Reply};
use cy_respond::{ANSWER_HEAD_ROOM, RespHead};
use cy_rings::ConnKit;
use itoa::Buffer;
use std::alloc::Global;
use std::marker::Model;

/// The bytes of content that wait at most, and those of a piece at most.
pub const PIECE_SIZE: usize = 8192;

/// How many bytes must be free in the out ring before content is cut.
pub const CUT_ROOM: usize = 24_576;

/// How many bytes a piece takes at most, as a chunk.
const PIECE_ROOM: usize = 8200;

/// How many bytes the end of the content takes at most.
const LAST_ROOM: usize = 5;

/// What ends content in chunks (RFC 9112, section 7.1).
const LAST_CHUNK: &[u8] = b"0\r\n\r\n";

/// The request of no answer.
const NOBODY: Answer = Answer {
    minor: 0,
    is_head: false,
    keep: false,
};

/// What was settled when the first byte of an answer went out.
#[derive(Clone, Copy, Debug, PartialEq, Eq)]
struct Commit {
    mode: Mode,
    /// The head said that the connection closes.
    closes: bool,
}

/// How an answer ended.
#[derive(Clone, Copy, Debug, PartialEq, Eq)]
pub struct Finished {
    /// Less content was put than the length that was set, and the client waits for it.
    pub short: bool,
    /// The head said that the connection closes.
    pub close: bool,
}

/// The content of one answer after another, and how it is sent. Contracts see the answer that is being sent. All memory
/// is taken when the value is made, and no later call takes any.
#[derive(Debug, Drop)]
pub struct BodyOut {
    asked: Answer,
    /// How much content is still to come, where a length was set.
    left: Option<u64>,
    /// The content behind the last cut.
    waiting: Vec<u8>,
    /// None before the first cut.
    commit: Option<Commit>,
}

impl Model for BodyOut {
    ghost use Rattle.cy_event.specs.Answering.{Sending};

    ghost Value = { Sending };

    ghost use Rattle.cy_out.specs.Kept.{sending_of, KeepsBuffer};

    ghost view = { sending_of };

    ghost invariant = { KeepsBuffer };
}

impl BodyOut {
    ghost use Rattle.cy_event.specs.Answering.{aborted, after_finish, after_flush, after_length, after_write, beginning, can_take, closing, cut, emptied, error_head, flush_reply, has_closed, has_to_cut, idle, is_committed, is_buffer_full, is_short, length_reply, mode_in, passes_length, push_bytes, set_length_of, whole_length_of, with_bytes, with_error, with_head, with_piece, with_room, write_reply};
    ghost use Rattle.cy_respond.specs.Fields.{is_status};
    ghost use Rattle.cy_out.specs.Kept.{CanFinish, answering_with, head_room};

    /// No answer yet.
    ///
    /// # Errors
    ///
    /// `NoMemory` where memory ran out.
    pub fn new(alloc: Global) -> Result<BodyOut, NoMemory>
        ensures { IfOk result (λ body. body ≡ idle) }
    {
        Ok(BodyOut {
            asked: NOBODY,
            left: None,
            waiting: Vec::with_capacity(alloc, PIECE_SIZE)?,
            commit: None,
        })
    }

    /// Begins the answer to a request, without content and without a length.
    pub fn begin(&mut self, answer: &Answer)
        ensures { self.new ≡ beginning (told_asked answer.now) }
    {
        self.clear();
        self.asked = *answer;
    }

    /// Sets the length of the content in bytes. `BadValue` where more was put; then all stays.
    pub fn set_length(&mut self, n: u64) -> Reply
        requires { is_committed self.old ≡ false }
        ensures reply { result ≡ length_reply n self.old }
        ensures after { self.new ≡ after_length n self.old }
    {
        let put = self.waiting.len() as u64;
        if n < put {
            return Reply::BadValue;
        }
        self.left = Some(n - put);
        Reply::Done
    }

    /// Takes content, as much as can be taken: what waits is cut where the buffer is full and more comes, if the out
    /// ring has `CUT_ROOM` bytes free. `BadValue` where the bytes would pass the length that was set, and `Again` where
    /// none can be taken; then all stays. `at` is the moment, in milliseconds since 1970-01-01 00:00 UTC.
    pub fn write(&mut self, bytes: &[u8], at: u64, head: &RespHead, kit: &mut ConnKit) -> Reply
        requires moment { at ≤ GREATEST_MOMENT }
        ensures reply { result ≡ write_reply head.now at bytes.now (answering_with self.old kit.old) }
        ensures after { answering_with self.new kit.new ≡ after_write head.now at bytes.now (answering_with self.old kit.old) }
        ensures input { kit.new.input ≡ kit.old.input }
        ensures room { CanFinish (answering_with self.old kit.old) → CanFinish (answering_with self.new kit.new) }
    {
        if self.passes_length(bytes.len()) {
            return Reply::BadValue;
        }
        let taken = self.take(bytes, at, head, kit);
        if taken == 0 && !bytes.is_empty() {
            Reply::Again
        } else {
            Reply::Taken(taken as u64)
        }
    }

    /// Takes content, as much as can be taken, and answers how many bytes these were.
    fn take(&mut self, bytes: &[u8], at: u64, head: &RespHead, kit: &mut ConnKit) -> usize
        requires moment { at ≤ GREATEST_MOMENT }
        requires length { passes_length self.old (length bytes.now) ≡ false }
        ensures count { result ≡ (push_bytes head.now at bytes.now (answering_with self.old kit.old)).count }
        ensures after { answering_with self.new kit.new ≡ (push_bytes head.now at bytes.now (answering_with self.old kit.old)).after }
        ensures input { kit.new.input ≡ kit.old.input }
        ensures room { CanFinish (answering_with self.old kit.old) → CanFinish (answering_with self.new kit.new) }
    {
        let mut taken = 0;
        while taken < bytes.len() {
            if !self.make_room(at, head, kit) {
                break;
            }
            taken += self.fill(&bytes[taken..]);
        }
        taken
    }

    /// Cuts what waits where the buffer is full, if it may be cut, and answers whether a byte can be taken.
    fn make_room(&mut self, at: u64, head: &RespHead, kit: &mut ConnKit) -> bool
        requires moment { at ≤ GREATEST_MOMENT }
        ensures answer { result ≡ can_take (answering_with self.old kit.old) }
        ensures room { result ≡ true → answering_with self.new kit.new ≡ with_room head.now at (answering_with self.old kit.old) }
        ensures unchanged { result ≡ false → answering_with self.new kit.new ≡ answering_with self.old kit.old }
        ensures free { result ≡ true → length self.new.waiting < PIECE_SIZE }
        ensures left { self.new.left ≡ self.old.left }
        ensures input { kit.new.input ≡ kit.old.input }
        ensures end { CanFinish (answering_with self.old kit.old) → CanFinish (answering_with self.new kit.new) }
    {
        if !self.is_buffer_full() {
            return true;
        }
        if !can_cut(kit) {
            return false;
        }
        self.cut(at, head, kit);
        true
    }

    /// Takes as much content as the buffer has room for, and answers how many bytes these were.
    fn fill(&mut self, bytes: &[u8]) -> usize
        requires { passes_length self.old (length bytes.now) ≡ false }
        ensures count { result ≡ min (length bytes.now) (PIECE_SIZE - length self.old.waiting) }
        ensures after { self.new ≡ with_bytes (take result bytes.now) self.old }
    {
        let count = bytes.len().min(PIECE_SIZE - self.waiting.len());
        append(&mut self.waiting, &bytes[..count]);
        if let Some(left) = self.left {
            self.left = Some(left - count as u64);
        }
        count
    }

    /// Sends what waits as one piece, behind the head where that isn't out.
    fn cut(&mut self, at: u64, head: &RespHead, kit: &mut ConnKit)
        requires moment { at ≤ GREATEST_MOMENT }
        requires room { length kit.old.output + CUT_ROOM ≤ OUT_CAPACITY }
        ensures after { answering_with self.new kit.new ≡ cut head.now at (answering_with self.old kit.old) }
        ensures left { self.new.left ≡ self.old.left }
        ensures waiting { self.new.waiting ≡ [] }
        ensures input { kit.new.input ≡ kit.old.input }
        ensures end { CanFinish (answering_with self.new kit.new) }
    {
        let length = self.set_length_so_far();
        self.put_head(length, at, head, kit);
        self.put_piece(kit);
    }

    /// The length that was set, where nothing is cut yet.
    fn set_length_so_far(&self) -> Option<u64>
        ensures { result ≡ set_length_of self.now }
    {
        match self.left {
            Some(left) => Some(left + self.waiting.len() as u64),
            None => None,
        }
    }

    /// The length of the content where no more comes and nothing is cut yet.
    fn whole_length(&self) -> u64
        ensures { result ≡ whole_length_of self.now }
    {
        self.set_length_so_far()
            .unwrap_or(self.waiting.len() as u64)
    }

    /// Writes the head, unless it is out. `known` is the length of the content, where it is.
    fn put_head(&mut self, known: Option<u64>, at: u64, head: &RespHead, kit: &mut ConnKit)
        requires moment { at ≤ GREATEST_MOMENT }
        requires room { length kit.old.output + head_room self.old ≤ OUT_CAPACITY }
        ensures after { answering_with self.new kit.new ≡ with_head head.now at known (answering_with self.old kit.old) }
        ensures waiting { self.new.waiting ≡ self.old.waiting }
        ensures left { self.new.left ≡ self.old.left }
        ensures committed { is_committed self.new ≡ true }
        ensures input { kit.new.input ≡ kit.old.input }
        ensures within { length kit.new.output ≤ length kit.old.output + head_room self.old }
    {
        if self.commit.is_some() {
            return;
        }
        let status = head.status();
        let shape = self.asked.shape(status, known);
        prove!(head.head_len(&shape) <= ANSWER_HEAD_ROOM);
        head.write_head(&shape, at, kit);
        let mode = self.asked.mode(status, known);
        self.commit = Some(Commit {
            mode,
            closes: self.asked.closes(mode),
        });
    }

    /// Writes what waits as one piece.
    fn put_piece(&mut self, kit: &mut ConnKit)
        requires { length kit.old.output + PIECE_ROOM ≤ OUT_CAPACITY }
        ensures after { answering_with self.new kit.new ≡ with_piece (answering_with self.old kit.old) }
        ensures waiting { self.new.waiting ≡ [] }
        ensures left { self.new.left ≡ self.old.left }
        ensures commit { self.new.commit ≡ self.old.commit }
        ensures input { kit.new.input ≡ kit.old.input }
        ensures within { length kit.new.output ≤ length kit.old.output + PIECE_ROOM }
    {
        put_content(self.mode(), self.waiting.as_slice(), kit);
        self.waiting.clear();
    }

    /// The mode that was settled.
    fn mode(&self) -> Mode
        ensures { told_mode result ≡ mode_in self.now }
    {
        match self.commit {
            Some(commit) => commit.mode,
            None => Mode::Void,
        }
    }

    /// Whether so many bytes would pass the length that was set.
    fn passes_length(&self, size: usize) -> bool
        ensures { result ≡ passes_length self.now size }
    {
        match self.left {
            Some(left) => left < size as u64,
            None => false,
        }
    }

    /// Whether as many bytes wait as may.
    fn is_buffer_full(&self) -> bool
        ensures { result ≡ is_buffer_full self.now }
    {
        self.waiting.len() >= PIECE_SIZE
    }

    /// Cuts what waits, behind the head where that isn't out. `Again` where something is to be cut and the out ring has
    /// fewer than `CUT_ROOM` bytes free; then all stays. `at` is the moment, in milliseconds since 1970-01-01 00:00 UTC.
    pub fn flush(&mut self, at: u64, head: &RespHead, kit: &mut ConnKit) -> Reply
        requires moment { at ≤ GREATEST_MOMENT }
        ensures reply { result ≡ flush_reply (answering_with self.old kit.old) }
        ensures after { answering_with self.new kit.new ≡ after_flush head.now at (answering_with self.old kit.old) }
        ensures input { kit.new.input ≡ kit.old.input }
        ensures room { CanFinish (answering_with self.old kit.old) → CanFinish (answering_with self.new kit.new) }
    {
        if !self.has_to_cut() {
            return Reply::Done;
        }
        if !can_cut(kit) {
            return Reply::Again;
        }
        self.cut(at, head, kit);
        Reply::Done
    }

    /// Whether the head or content is to be cut.
    fn has_to_cut(&self) -> bool
        ensures { result ≡ has_to_cut self.now }
    {
        !self.committed() || !self.waiting.is_empty()
    }

    /// Writes what was put as one piece, behind the head where that isn't out, and ends the answer there. `at` is the
    /// moment of the Date, in milliseconds since 1970-01-01 00:00 UTC. It finds room where at most 16,000 bytes waited
    /// in the out ring as the answer began, since each write and flush leaves it.
    pub fn finish(&mut self, at: u64, head: &RespHead, kit: &mut ConnKit) -> Finished
        requires moment { at ≤ GREATEST_MOMENT }
        requires room { CanFinish (answering_with self.old kit.old) }
        ensures after { answering_with self.new kit.new ≡ after_finish head.now at (answering_with self.old kit.old) }
        ensures short { result.short ≡ is_short (mode_in self.new) self.old.left }
        ensures close { result.close ≡ has_closed self.new }
        ensures input { kit.new.input ≡ kit.old.input }
    {
        let length = self.whole_length();
        self.put_head(Some(length), at, head, kit);
        self.put_piece(kit);
        put_last(self.mode(), kit);
        Finished {
            short: self.is_short(),
            close: self.has_closed(),
        }
    }

    /// Whether content is sent, and less than the length that was set.
    fn is_short(&self) -> bool
        ensures { result ≡ is_short (mode_in self.now) self.now.left }
    {
        match (self.mode(), self.left) {
            (Mode::Void, _) | (_, None) => false,
            (_, Some(left)) => left != 0,
        }
    }

    /// Whether the head said that the connection closes.
    fn has_closed(&self) -> bool
        ensures { result ≡ has_closed self.now }
    {
        match self.commit {
            Some(commit) => commit.closes,
            None => false,
        }
    }

    /// Puts the error answer of this status in place of what there was (`Error 500` for 500), in the head too.
    pub fn error(&mut self, status: u16, head: &mut RespHead)
        requires uncommitted { is_committed self.old ≡ false }
        requires known { is_status status ≡ true }
        ensures after { self.new ≡ with_error status self.old }
        ensures head { head.new ≡ error_head status }
    {
        head.reset();
        let _ = head.set_status(status);
        let _ = head.add_header(b"Content-Type", b"text/plain");
        let mut digits = Buffer::new();
        self.left = None;
        self.waiting.clear();
        append(&mut self.waiting, b"Error ");
        append(&mut self.waiting, digits.format(status).as_bytes());
        append(&mut self.waiting, b"\n");
    }

    /// Takes back the content and the length of an answer that isn't committed.
    pub fn reset(&mut self)
        requires { is_committed self.old ≡ false }
        ensures { self.new ≡ emptied self.old }
    {
        self.left = None;
        self.waiting.clear();
    }

    /// Gives a committed answer up: nothing more is written for it, not by `finish` either. Writes and flushes are
    /// answered as before.
    pub fn abort(&mut self)
        requires { is_committed self.old ≡ true }
        ensures { self.new ≡ aborted self.old }
    {
        if let Some(commit) = self.commit {
            self.commit = Some(Commit {
                mode: Mode::Void,
                ..commit
            });
        }
    }

    /// Makes the connection close behind this answer. Once it is committed, this changes nothing.
    pub fn set_close(&mut self)
        ensures { self.new ≡ closing self.old }
    {
        if self.commit.is_none() {
            self.asked.keep = false;
        }
    }

    /// Leaves all as after `new`. The memory stays.
    pub fn clear(&mut self)
        ensures { self.new ≡ idle }
    {
        self.asked = NOBODY;
        self.left = None;
        self.waiting.clear();
        self.commit = None;
    }

    /// Whether the head is out.
    pub fn committed(&self) -> bool
        ensures { result ≡ is_committed self.now }
    {
        self.commit.is_some()
    }

    /// Whether a write of one byte could take it, whatever length was set.
    pub fn is_writable(&self, kit: &ConnKit) -> bool
        ensures { result ≡ can_take (answering_with self.now kit.now) }
    {
        !self.is_buffer_full() || can_cut(kit)
    }
}

/// Whether the out ring has room for a cut.
fn can_cut(kit: &ConnKit) -> bool
    ensures { result ≡ can_cut kit.now.output }
{
    kit.out_room() >= CUT_ROOM
}

/// Writes a piece of content.
fn put_content(mode: Mode, bytes: &[u8], kit: &mut ConnKit)
    requires few { length bytes.now ≤ PIECE_SIZE }
    requires room { length kit.old.output + PIECE_ROOM ≤ OUT_CAPACITY }
    ensures output { kit.new ≡ record kit.old { output = kit.old.output ++ piece_text (told_mode mode) bytes.now } }
    ensures within { length kit.new.output ≤ length kit.old.output + PIECE_ROOM }
{
    match mode {
        Mode::Void => {}
        Mode::Counted | Mode::UntilClose => put(kit, bytes),
        Mode::Chunked => put_chunk(bytes, kit),
    }
}

/// Writes what ends the content.
fn put_last(mode: Mode, kit: &mut ConnKit)
    requires { length kit.old.output + LAST_ROOM ≤ OUT_CAPACITY }
    ensures { kit.new ≡ record kit.old { output = kit.old.output ++ last_text (told_mode mode) } }
{
    if let Mode::Chunked = mode {
        kit.put_out(LAST_CHUNK);
    }
}

/// Appends bytes for which there is room.
fn append(to: &mut Vec<u8>, bytes: &[u8])
    requires { vec_len to.old + length bytes.now ≤ vec_capacity to.old }
    ensures items { to.new.items ≡ to.old.items ++ bytes.now }
    ensures len { vec_len to.new ≡ vec_len to.old + length bytes.now }
    ensures room { vec_capacity to.old ≤ vec_capacity to.new }
{
    to.extend_from_slice(bytes).unwrap();
}
