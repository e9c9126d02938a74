//! A connection, outside of its request.
ghost use Rattle.std.specs.Borrow.{sem};
ghost use Rattle.std.specs.Prelude.{◌≡◌, ◌≤◌, ◌+◌, ◌++◌, ◌∷◌, ℕ, [], length, take, drop, max, min, vec_len, vec_capacity, ◌&&◌, not, false, true, None, IfOk};
ghost use Rattle.cy_event.specs.declared.limits.TheConstants.{GREATEST_MOMENT};
ghost use Rattle.cy_model.specs.Settling.{begin_bound, is_awaited, is_last_number};
ghost use Rattle.cy_proc.specs.LineAnswers.{AnswersEachEvent, RestsEach};
ghost use Rattle.cy_in.specs.Intakes.{IsShort, content_read, is_ready, started};
ghost use Rattle.cy_in.specs.Reads.{reply_of_read};
ghost use Rattle.cy_model.specs.Endings.{is_bad_request};
ghost use Rattle.cy_event.specs.Answers.{after_put, content_buffer, error_answer, fresh_answer};
ghost use Rattle.cy_event.specs.declared.head.TheConstants.{FIELD_ROOM, HEAD_ROOM};
ghost use Rattle.cy_head.specs.Answers.{answer_to, filled_by};
ghost use Rattle.cy_rings.specs.declared.kit.TheConstants.{IN_CAPACITY, OUT_CAPACITY};
ghost use Rattle.cy_proc.specs.AnswerBytes.{said};
ghost use Rattle.cy_model.specs.Marks.{opened};
ghost use Rattle.cy_proc.specs.Lines.{Represents};
ghost use Rattle.cy_proc.specs.LineChanges.{after_begin, after_end_of, after_event, after_refusal, cause_after, cause_at_rest, connection_by, after_rest, after_told, at_moment, event_answer, front_at, gone_on, is_closed_line, is_due, is_gone_line, may_begin_line, passed_line, read_line, room_of, scanned_line, sent_from, standing_of, told_answer};

use crate::answer::{Connection, put_answer, put_begin, put_error};
use cy_event::{CloseCause, Event, Framing, Limits, Reply, RequestHead, extend_in_room};
use cy_head::{Due, Front, head_due, head_front};
use cy_in::{BodyIn, Scan};
use cy_rings::{ConnKit, NoMemory};
use std::alloc::Global;
use std::marker::Model;

/// How a connection stands that has no open request.
#[derive(Clone, Copy, Debug, PartialEq, Eq)]
pub enum Standing {
    /// It waits for bytes, or for the socket to take some.
    Waiting,
    /// A head is to be taken up or refused.
    Due,
    /// There is a cause to close it, and bytes still wait for the socket.
    Closing,
    /// It is closed.
    Gone,
}

/// What is kept of a connection outside of its request: the two rings, how far the body of the last request came, counts,
/// marks and the cause to close it.
#[derive(Drop)]
pub struct Line {
    kit: ConnKit,
    body: BodyIn,
    max_trailer: u32,
    came: u64,
    begun: u64,
    is_open: bool,
    cause: Option<CloseCause>,
    has_ended: bool,
    moment: u64,
}

impl Model for Line {
    ghost use Rattle.std.specs.Prelude.{◌≡◌, ◌≤◌, ◌+◌, None, length, true};
    ghost use Rattle.cy_model.specs.Inputs.{input_total};
    ghost use Rattle.cy_event.specs.declared.limits.TheConstants.{GREATEST_MOMENT};
    ghost use Rattle.cy_proc.specs.LineBodies.{IsInRing};
    ghost use Rattle.cy_proc.specs.Lines.{LineParts, open_bound};

    ghost Value = { LineParts };

    ghost view = { λ l. record {
      unread = l.kit.input;
      body = l.body;
      came = l.came;
      begun = l.begun;
      unsent = l.kit.output;
      is_open = l.is_open;
      cause = l.cause;
      has_ended = l.has_ended;
      moment = l.moment;
    } };

    ghost invariant = { λ l. (l.begun + length l.kit.input ≤ l.came) × (l.came ≤ input_total)
        × (l.is_open ≡ true → length l.kit.output ≤ open_bound) × (l.moment ≤ GREATEST_MOMENT)
        × IsInRing l.body l.kit.input l.came
        × (l.is_open ≡ true → l.body.swallowed_from ≡ None) × (l.max_trailer ≡ l.body.max_trailer) };
}

/// Bytes that one connection takes in all.
const INPUT_TOTAL: u64 = 1 << 62;

/// As many bytes may wait for the socket as a further head is taken up.
const BEGIN_BOUND: usize = 16_000;

impl Line {
    ghost use Rattle.cy_proc.specs.Lending.{IsGivenBack};

    /// A line of a connection to which nothing has happened.
    ///
    /// # Errors
    ///
    /// `NoMemory` where memory ran out.
    pub fn new(alloc: Global) -> Result<Line, NoMemory>
        ensures new { IfOk result (λ line. line ≡ record { unread = []; body = started Framing.None; came = 0; begun = 0; unsent = []; is_open = false; cause = None; has_ended = false; moment = 0 }) }

        // It stands for a connection that was admitted at moment 0, and once a moment has come for one admitted then.
        ensures stands { IfOk result (λ line. Represents ((0, opened) ∷ []) line) }
        ensures admitted { IfOk result (λ line. (t : ℕ) → Represents ((t, opened) ∷ []) (at_moment t line)) }
    {
        Ok(Line {
            kit: ConnKit::new(alloc)?,
            body: BodyIn::none(),
            max_trailer: 0,
            came: 0,
            begun: 0,
            is_open: false,
            cause: None,
            has_ended: false,
            moment: 0,
        })
    }

    /// Leaves nothing of the connection, and takes no memory: the line is that of the next one, admitted at this moment.
    pub fn renew(&mut self, at: u64)
        requires moment { at ≤ GREATEST_MOMENT }
        ensures new { self.new ≡ record { unread = []; body = started Framing.None; came = 0; begun = 0; unsent = []; is_open = false; cause = None; has_ended = false; moment = at } }
        ensures stands { Represents ((at, opened) ∷ []) self.new }
    {
        self.kit.clear();
        self.body = BodyIn::none();
        self.max_trailer = 0;
        self.came = 0;
        self.begun = 0;
        self.is_open = false;
        self.cause = None;
        self.has_ended = false;
        self.moment = at;
    }

    /// Takes what the socket tells, at the later of this moment and the last one. No request is open.
    pub fn event(&mut self, at: u64, event: Event, bytes: &[u8], limits: &Limits) -> Reply
        requires open { self.old.is_open ≡ false }
        requires moment { at ≤ GREATEST_MOMENT }
        ensures moment { self.new.moment ≡ max self.old.moment at }
        ensures answers { AnswersEachEvent limits.now self.new.moment event bytes.now self.old result self.new }
        ensures reply { result ≡ told_answer event bytes.now (at_moment at self.old) }
        ensures parts { self.new ≡ after_told limits.now event bytes.now (at_moment at self.old) }
    {
        self.advance(at);
        self.take(event, bytes, limits)
    }

    /// Makes the moves of the container but taking up a head, and says how the connection then stands. No request is
    /// open. It is no entry: what is settled belongs to the entry before, so it comes at the last moment of the line.
    pub fn settle(&mut self, _at: u64, limits: &Limits) -> Standing
        requires open { self.old.is_open ≡ false }
        ensures moment { self.new.moment ≡ self.old.moment }
        ensures rests { RestsEach limits.now self.old.moment self.old self.new }
        ensures parts { self.new ≡ after_rest limits.now self.old }
        ensures standing { result ≡ standing_of limits.now self.new }
    {
        self.rest(limits);
        self.standing(limits)
    }

    /// Why the connection closes, if there is a cause.
    pub fn cause(&self) -> Option<CloseCause>
        ensures { result ≡ self.now.cause }
    {
        self.cause
    }

    /// How many bytes of the input would be taken now, if no cause to close stands against it.
    pub fn in_room(&self) -> usize
        ensures room { result ≡ room_of self.now }
        ensures held { length self.now.unread + result ≤ IN_CAPACITY }
    {
        let left = INPUT_TOTAL - self.came;
        self.kit.in_room().min(left as usize)
    }

    /// How many bytes wait for the socket: as many as its ring holds at most.
    pub fn unsent_len(&self) -> usize
        ensures count { result ≡ length self.now.unsent }
        ensures within { result ≤ OUT_CAPACITY }
    {
        self.kit.out_len()
    }

    /// The bytes that wait for the socket.
    pub fn unsent(&mut self) -> &[u8]
        ensures bytes { result.now ≡ self.old.unsent }
        ensures within { length result.now ≤ OUT_CAPACITY }
        ensures* given_back { sem 𝓛 (IsGivenBack self.entry) }
    {
        self.kit.out_front()
    }

    /// Copies the first bytes that wait for the socket, as many as fit, and answers how many these are.
    pub fn copy_unsent(&mut self, into: &mut [u8]) -> usize
        ensures count { result ≡ min (length into.old) (length self.old.unsent) }
        ensures copied { into.new ≡ take result self.old.unsent ++ drop result into.old }
        ensures same { self.new ≡ self.old }
    {
        let unsent = self.kit.out_front();
        let count = into.len().min(unsent.len());
        into[..count].copy_from_slice(&unsent[..count]);
        count
    }

    /// Appends the bytes that wait for the socket behind the first of them. It takes no memory: `to` has room.
    pub fn push_unsent(&mut self, first: usize, to: &mut Vec<u8>)
        requires room { vec_len to.old + OUT_CAPACITY ≤ vec_capacity to.old }
        ensures pushed { to.new.items ≡ to.old.items ++ drop first self.old.unsent }
        ensures same { self.new ≡ self.old }
    {
        let unsent = self.kit.out_front();
        if first < unsent.len() {
            extend_in_room(to, &unsent[first..]);
        }
    }

    /// An entry comes at this moment, or at the last one where that is later.
    pub(crate) fn advance(&mut self, at: u64)
        requires { at ≤ GREATEST_MOMENT }
        ensures { self.new ≡ at_moment at self.old }
    {
        self.moment = self.moment.max(at);
    }

    /// How it stands as it is. No move of the container is made.
    pub fn standing(&mut self, limits: &Limits) -> Standing
        ensures standing { result ≡ standing_of limits.now self.old }
        ensures same { self.new ≡ self.old }
    {
        if self.is_gone() {
            Standing::Gone
        } else if self.cause.is_some() {
            Standing::Closing
        } else if self.may_begin() && !self.awaits_head(limits) {
            Standing::Due
        } else {
            Standing::Waiting
        }
    }

    /// Takes what the socket tells, and rests.
    pub(crate) fn take(&mut self, event: Event, bytes: &[u8], limits: &Limits) -> Reply
        ensures reply { result ≡ told_answer event bytes.now self.old }
        ensures parts { self.new ≡ after_told limits.now event bytes.now self.old }
    {
        if self.is_closed_to(event) {
            return Reply::Closed;
        }
        let reply = self.take_event(event, bytes);
        self.rest(limits);
        reply
    }

    fn take_event(&mut self, event: Event, bytes: &[u8]) -> Reply
        ensures reply { result ≡ event_answer event bytes.now self.old }
        ensures parts { self.new ≡ after_event event bytes.now self.old }
    {
        match event {
            Event::In => {
                let count = self.take_in(bytes);
                self.go_on();
                Reply::Taken(count as u64)
            }
            Event::End => {
                self.has_ended = true;
                Reply::Done
            }
            Event::Took(count) => Reply::Taken(self.took_out(count)),
        }
    }

    /// Takes bytes of the input, as many as there is room for.
    fn take_in(&mut self, bytes: &[u8]) -> usize
        ensures count { result ≡ length (take (room_of self.old) bytes.now) }
        ensures parts { self.new ≡ record self.old { unread = self.old.unread ++ take (room_of self.old) bytes.now; came = self.old.came + length (take (room_of self.old) bytes.now) } }
    {
        let left = (INPUT_TOTAL - self.came) as usize;
        let count = self.kit.put_in(&bytes[..bytes.len().min(left)]);
        self.came += count as u64;
        count
    }

    /// The bytes that came go on in the body of the last request: they are scanned, and passed over once that has ended.
    fn go_on(&mut self)
        ensures { self.new ≡ gone_on self.old }
    {
        if self.is_open || self.begun == 0 {
            self.scan();
        } else {
            self.pass_over();
        }
    }

    /// Scans what waits of the body.
    fn scan(&mut self)
        ensures { self.new ≡ scanned_line self.old }
    {
        let limits = scanning(self.max_trailer);
        let _found = self.body.scan(&mut self.kit, &limits);
    }

    /// Passes over what waits of the body of a request that has ended (RFC 9112, section 9.3).
    fn pass_over(&mut self)
        requires { self.old.is_open ≡ false }
        ensures { self.new ≡ passed_line self.old }
    {
        let limits = scanning(self.max_trailer);
        let _found = self.body.swallow(&mut self.kit, &limits);
    }

    /// Whether a read would give content of the open request, or tell its end.
    pub(crate) fn is_ready(&self) -> bool
        requires open { self.now.is_open ≡ true }
        ensures { result ≡ is_ready self.now.body }
    {
        self.body.is_ready()
    }

    /// Gives content of the open request to the front of `into`, as a read of as many bytes is answered.
    pub(crate) fn read(&mut self, into: &mut [u8]) -> Reply
        requires open { self.old.is_open ≡ true }
        ensures reply { result ≡ reply_of_read (length into.old) self.old.body self.old.unread }
        ensures into { let content = content_read (length into.old) self.old.body self.old.unread in into.new ≡ content ++ drop (length content) into.old }
        ensures parts { self.new ≡ read_line (length into.old) self.old }
    {
        self.body.read(&mut self.kit, into)
    }

    /// The socket took so many bytes, if so many wait for it.
    fn took_out(&mut self, count: u64) -> u64
        ensures count { result ≡ sent_from count self.old }
        ensures parts { self.new ≡ record self.old { unsent = drop (sent_from count self.old) self.old.unsent } }
    {
        let taken = count.min(self.kit.out_len() as u64);
        self.kit.took_out(taken as usize);
        taken
    }

    /// Whether an event finds the connection closed.
    fn is_closed_to(&self, event: Event) -> bool
        ensures { result ≡ is_closed_line event self.now }
    {
        match event {
            Event::In | Event::End => self.cause.is_some() || self.has_ended,
            Event::Took(_) => self.is_gone(),
        }
    }

    /// Whether it is closed.
    fn is_gone(&self) -> bool
        ensures { result ≡ is_gone_line self.now }
    {
        self.cause.is_some() && !self.is_open && self.kit.out_len() == 0
    }

    /// Whether a further head may be taken up.
    fn may_begin(&self) -> bool
        ensures { result ≡ may_begin_line self.now }
    {
        !self.is_open
            && self.cause.is_none()
            && self.body.found() == Scan::Whole
            && self.kit.out_len() <= BEGIN_BOUND
    }

    /// Makes the moves of the container but taking up a head.
    pub(crate) fn rest(&mut self, limits: &Limits)
        ensures { self.new ≡ after_rest limits.now self.old }
    {
        if self.cause.is_none() {
            self.cause = self.cause_at_rest(limits);
        }
    }

    /// Why it closes as it stands, where there is no cause yet: for its body, or for the end of its input inside a body or
    /// where a head is awaited.
    fn cause_at_rest(&mut self, limits: &Limits) -> Option<CloseCause>
        ensures cause { result ≡ cause_at_rest limits.now self.old }
        ensures same { self.new ≡ self.old }
    {
        if self.body.swallowed() > limits.max_swallow {
            return Some(CloseCause::SwallowLimit);
        }
        match self.body.found() {
            Scan::Bad(_) => Some(CloseCause::BadBody),
            Scan::Partial if self.has_ended => Some(CloseCause::InputEnd),
            Scan::Whole if self.has_ended && self.may_begin() && self.awaits_head(limits) => {
                Some(CloseCause::InputEnd)
            }
            _ => None,
        }
    }

    fn awaits_head(&mut self, limits: &Limits) -> bool
        ensures awaited { result ≡ is_awaited (front_at limits.now self.old) }
        ensures same { self.new ≡ self.old }
    {
        head_due(self.kit.in_front(), limits) == Due::Wait
    }

    /// Reads the head at the front of the bytes that wait into a table, and leaves the line as it is.
    pub(crate) fn read_head(&mut self, limits: &Limits, into: &mut RequestHead) -> Front
        requires head_room { limits.now.max_head ≤ HEAD_ROOM }
        requires field_room { limits.now.max_fields ≤ FIELD_ROOM }
        ensures front { result ≡ answer_to (front_at limits.now self.old) }
        ensures table { into.new ≡ filled_by (front_at limits.now self.old) into.old }
        ensures same { self.new ≡ self.old }
    {
        head_front(self.kit.in_front(), limits, into)
    }

    /// Whether the next request is the last that the connection may have.
    fn next_is_last(&self, limits: &Limits) -> bool
        ensures { result ≡ is_last_number limits.now.max_keep_alive (self.now.begun + 1) }
    {
        match u64::try_from(limits.max_keep_alive) {
            Ok(most) => most == self.begun + 1,
            Err(_) => false,
        }
    }

    /// Whether the connection may stay open after the next request, where its head says so.
    pub(crate) fn next_persists(&self, keep: bool, limits: &Limits) -> bool
        ensures { result ≡ (keep && not (is_last_number limits.now.max_keep_alive (self.now.begun + 1))) }
    {
        keep && !self.next_is_last(limits)
    }

    /// Refuses the head that is due.
    #[tactic(auto, using(crate::proofs::AnswerParts::refusal_with))]
    pub(crate) fn refuse(&mut self, status: u16, to_head: bool)
        requires open { self.old.is_open ≡ false }
        requires room { length self.old.unsent ≤ begin_bound }
        ensures { self.new ≡ after_refusal status to_head self.old }
    {
        put_error(
            &mut self.kit,
            status,
            !to_head,
            self.moment,
            Connection::Close,
        );
        self.cause = Some(CloseCause::Refused);
    }

    /// Takes up a head of this size, whose body is framed so, with as many bytes of trailers at most.
    pub(crate) fn begin(&mut self, size: usize, framing: Framing, max_trailer: u32, go_on: bool)
        requires some { 1 ≤ size }
        requires within { size ≤ length self.old.unread }
        requires room { length self.old.unsent ≤ begin_bound }
        requires short { IsShort framing }
        ensures { self.new ≡ after_begin size framing max_trailer go_on self.old }
    {
        self.kit.take_in(size);
        self.begun += 1;
        put_begin(&mut self.kit, go_on);
        self.is_open = true;
        self.body.start(framing);
        self.max_trailer = max_trailer;
        let limits = scanning(max_trailer);
        let _found = self.body.scan(&mut self.kit, &limits);
    }

    /// Ends the request with the answer of status 200 that has this content.
    pub(crate) fn end_with_content(&mut self, content: &[u8], keep: bool, minor: u8)
        requires open { self.old.is_open ≡ true }
        requires content { length content.now ≤ content_buffer }
        ensures { self.new ≡ after_end_of keep minor (after_put content.now fresh_answer) self.old }
    {
        let connection = self.connection(keep, minor);
        put_answer(&mut self.kit, content, self.moment, connection);
        self.is_open = false;
        self.cause = cause_after(keep, self.cause);
        self.pass_over();
    }

    /// Ends the request with the answer that tells of an error.
    #[tactic(auto, using(crate::proofs::AnswerParts::error_with))]
    pub(crate) fn end_with_error(&mut self, status: u16, keep: bool, minor: u8)
        requires open { self.old.is_open ≡ true }
        ensures { self.new ≡ after_end_of keep minor (error_answer status) self.old }
    {
        let connection = self.connection(keep, minor);
        put_error(&mut self.kit, status, true, self.moment, connection);
        self.is_open = false;
        self.cause = cause_after(keep, self.cause);
        self.pass_over();
    }

    /// Whether the body of the open request was none: it is bad, or the input ended inside it.
    pub(crate) fn is_bad_request(&self) -> bool
        ensures { result ≡ is_bad_request self.now.cause }
    {
        matches!(self.cause, Some(CloseCause::BadBody | CloseCause::InputEnd))
    }

    /// What an answer says of the connection.
    fn connection(&self, keep: bool, minor: u8) -> Connection
        ensures { said result ≡ connection_by keep self.now.cause minor }
    {
        if !keep || self.cause.is_some() {
            Connection::Close
        } else if minor == 1 {
            Connection::Silent
        } else {
            Connection::KeepAlive
        }
    }
}

/// Limits by which a body is scanned that may have so many bytes of trailers: those as its request began.
fn scanning(max_trailer: u32) -> Limits
    ensures { result.max_trailer ≡ max_trailer }
{
    let mut limits = Limits::standard(1);
    limits.max_trailer = max_trailer;
    limits
}

/// Why a connection closes after an answer: an answer that says so is a cause, where there is none yet.
fn cause_after(keep: bool, cause: Option<CloseCause>) -> Option<CloseCause>
    ensures { result ≡ cause_after keep cause }
{
    match cause {
        None if !keep => Some(CloseCause::LastAnswer),
        _ => cause,
    }
}

#[cfg(test)]
pub(crate) mod tests;
