//! One request's life: the head that was taken up, the callback that runs, and the answer.
ghost use Rattle.std.specs.Prelude.{◌≡◌, ◌≤◌, ◌<◌, ◌+◌, ℕ, [], length, slice_get, max, false, true, Some, is_some, IfOk, if◌then◌else◌};
ghost use Rattle.cy_event.specs.declared.limits.TheConstants.{GREATEST_MOMENT};
ghost use Rattle.cy_event.specs.declared.head.TheConstants.{HEAD_ROOM, FIELD_ROOM};
ghost use Rattle.cy_head.specs.Answers.{just_read};
ghost use Rattle.cy_model.specs.Entries.{job_reply};
ghost use Rattle.cy_model.specs.Jobs.{next_job};
ghost use Rattle.cy_model.specs.Marks.{Trace};
ghost use Rattle.cy_model.specs.Settling.{begin_bound};
ghost use Rattle.cy_model.specs.Steps.{IsWithinBytes};
ghost use Rattle.cy_proc.specs.LineChanges.{after_refusal, is_due, work_of};
ghost use Rattle.cy_proc.specs.ProcessorAnswers.{AnswersEachAct, AnswersEachEvent, AnswersEachTurn, GivesInto, IsReadInto, Serves, TakesUpEach, is_ended};
ghost use Rattle.cy_proc.specs.ProcessorChanges.{after_job, after_return, after_write, due_at, due_of_head, job_at, line_read, line_returned, line_with, processor_with, read_into, read_reply, write_reply};
ghost use Rattle.cy_proc.specs.Processors.{IsIdle, StandsForRequest, fresh_processor, has_request_at, is_free_at, is_open_at, is_over_at, part_at, request_folds};

use crate::line::Line;
use crate::verdict::{BAD_REQUEST, Judgement, judge};
use cy_event::{
    Act, Call, ChartItem, Event, Job, Limits, NoMemory, Reply, RequestHead, extend_in_room,
};
use cy_head::Front;
use cy_map::Mapper;
use cy_states::Machine;
use std::alloc::Global;
use std::marker::Model;

/// How far a processor's request has come.
#[derive(Clone, Copy, Debug, PartialEq, Eq)]
pub enum Stage {
    /// There is none.
    Free,
    /// Its service is owed.
    Owed,
    /// Its service runs.
    Serving,
    /// It has ended.
    Over,
    /// There is none: the head was refused.
    Refused,
}

/// Bytes of content that wait for the head at most.
const CONTENT_BUFFER: usize = 8192;

const NOT_FOUND: u16 = 404;

/// The life of one request. All memory is taken as a processor is made; `clear` makes it fit for the next request.
#[derive(Drop)]
pub struct Processor {
    limits: Limits,
    stage: Stage,
    table: RequestHead,
    machine: Machine,
    content: Vec<u8>,
    part: u32,
    can_async: bool,
    keep: bool,
}

impl Model for Processor {
    ghost use Rattle.std.specs.Prelude.{◌≡◌, ◌≤◌, vec_len, vec_capacity};
    ghost use Rattle.cy_event.specs.declared.head.TheConstants.{HEAD_ROOM, FIELD_ROOM};
    ghost use Rattle.cy_proc.specs.Processors.{IsReady, ProcessorParts};
    ghost use Rattle.cy_proc.specs.declared.processor.TheConstants.{CONTENT_BUFFER};

    ghost Value = { ProcessorParts };

    ghost view = { λ p. record {
      limits = p.limits;
      stage = p.stage;
      table = p.table;
      progress = p.machine;
      content = p.content.items;
      part = p.part;
      can_async = p.can_async;
      keep = p.keep;
    } };

    ghost invariant = { λ p. (vec_len p.content ≤ CONTENT_BUFFER) × (CONTENT_BUFFER ≤ vec_capacity p.content)
        × (p.limits.max_head ≤ HEAD_ROOM) × (p.limits.max_fields ≤ FIELD_ROOM) × IsReady p.stage p.machine };
}

impl Processor {
    /// A processor without a request, for connections of these limits.
    ///
    /// # Errors
    ///
    /// `NoMemory` where memory ran out.
    pub fn new(alloc: Global, limits: &Limits) -> Result<Processor, NoMemory>
        requires head_room { limits.now.max_head ≤ HEAD_ROOM }
        requires field_room { limits.now.max_fields ≤ FIELD_ROOM }
        ensures fresh { IfOk result (λ processor. processor ≡ fresh_processor limits.now) }

        // It stands for each trace in which no request is open.
        ensures stands { IfOk result (λ processor. (T : Trace) → IsIdle (request_folds T) → StandsForRequest T processor) }
    {
        Ok(Processor {
            limits: *limits,
            stage: Stage::Free,
            table: RequestHead::new(alloc, limits)?,
            machine: Machine::new(alloc)?,
            content: Vec::with_capacity(alloc, CONTENT_BUFFER)?,
            part: 0,
            can_async: false,
            keep: false,
        })
    }

    /// Takes up the head that is due on a line, or refuses it, at the last moment of the line. Answers `Done`.
    pub fn open(&mut self, line: &mut Line, _at: u64, rules: &Mapper) -> Reply
        requires free { self.old ≡ fresh_processor self.old.limits }
        requires due { is_due self.old.limits line.old ≡ true }
        ensures takes { TakesUpEach rules.now line.old self.old line.new self.new }
        ensures reply { result ≡ Reply.Done }
        ensures together { line.new.is_open ≡ is_open_at self.new.stage }
        ensures opened { is_free_at self.new.stage ≡ false }
        ensures uncalled { self.new.progress.chart ≡ [] }

        // So heads can't be due without end.
        ensures less { work_of line.new < work_of line.old }
        ensures limits { self.new.limits ≡ self.old.limits }
        ensures moment { line.new.moment ≡ line.old.moment }
    {
        self.take_up(line, rules);
        line.rest(&self.limits);
        Reply::Done
    }

    /// Takes what the socket tells while the request is open, at the later of this moment and the line's last one.
    pub fn event(&mut self, line: &mut Line, at: u64, event: Event, bytes: &[u8]) -> Reply
        requires open { is_open_at self.old.stage ≡ true }
        requires line { line.old.is_open ≡ true }
        requires moment { at ≤ GREATEST_MOMENT }
        ensures answers { AnswersEachEvent event bytes.now line.old self.old result line.new self.new }
        ensures answered { is_ended result ≡ false }
        ensures same { self.new ≡ self.old }
        ensures together { line.new.is_open ≡ true }
        ensures work { work_of line.new ≤ work_of line.old + length bytes.now }
        ensures moment { line.new.moment ≡ max line.old.moment at }
    {
        line.advance(at);
        line.take(event, bytes, &self.limits)
    }

    /// A worker turns to the open request: the callback that is owed begins.
    pub fn run(&mut self, line: &mut Line, at: u64) -> Reply
        requires open { is_open_at self.old.stage ≡ true }
        requires line { line.old.is_open ≡ true }
        requires moment { at ≤ GREATEST_MOMENT }
        ensures answers { AnswersEachTurn line.old self.old result line.new self.new }
        ensures answered { is_ended result ≡ false }
        ensures stays { is_open_at self.new.stage ≡ true }
        ensures together { line.new.is_open ≡ true }
        ensures work { work_of line.new ≡ work_of line.old }
        ensures limits { self.new.limits ≡ self.old.limits }
        ensures moment { line.new.moment ≡ max line.old.moment at }
    {
        line.advance(at);
        self.begin_job()
    }

    /// The callback that runs acts. A read gives content to the front of `into`, which has room for as much as it asks.
    pub fn act(
        &mut self,
        line: &mut Line,
        at: u64,
        act: &Act,
        bytes: &[u8],
        into: &mut [u8],
    ) -> Reply
        requires open { is_open_at self.old.stage ≡ true }
        requires line { line.old.is_open ≡ true }
        requires moment { at ≤ GREATEST_MOMENT }
        requires within { IsWithinBytes act.now bytes.now }
        requires into { IsReadInto act.now into.old }
        ensures answers { AnswersEachAct act.now bytes.now line.old self.old result into.new line.new self.new }
        ensures answered { is_ended result ≡ false }
        ensures together { line.new.is_open ≡ is_open_at self.new.stage }
        ensures opened { is_free_at self.new.stage ≡ false }
        ensures chart { length self.new.progress.chart ≤ length self.old.progress.chart + 1 }
        ensures work { work_of line.new ≤ work_of line.old }
        ensures limits { self.new.limits ≡ self.old.limits }
        ensures moment { line.new.moment ≡ max line.old.moment at }
        ensures into { GivesInto result into.old into.new }
    {
        line.advance(at);
        let Stage::Serving = self.stage else {
            return Reply::NotActive;
        };
        match *act {
            Act::Read(count) => self.read(line, &mut into[..count as usize]),
            Act::Write(count) => self.write(line, &bytes[..count as usize]),
            Act::Return => {
                self.finish(line);
                line.rest(&self.limits);
                Reply::Done
            }
        }
    }

    /// The callback that is owed, where none runs.
    pub fn next_job(&self, _line: &Line) -> Option<Job>
        ensures owed { (T : Trace) → Serves T _line.now self.now → result ≡ next_job T }
        ensures job { result ≡ job_at self.now }
    {
        self.owed_job()
    }

    /// The part of the open request: 0 where none is open.
    pub fn part(&self) -> u32
        ensures { result ≡ part_at self.now }
    {
        if self.is_open() { self.part } else { 0 }
    }

    /// The head of the request, with the path and the query of its target: an empty one where there is no request.
    pub fn head(&self) -> &RequestHead
        ensures { result.now ≡ self.now.table }
    {
        &self.table
    }

    /// Whether the head that was opened is done with: its request has ended, or it was refused. It is to be cleared.
    pub fn is_over(&self) -> bool
        ensures { result ≡ is_over_at self.now.stage }
    {
        matches!(self.stage, Stage::Over | Stage::Refused)
    }

    /// Whether a request was taken up that isn't cleared yet: it is open, or it is over. A refused head is none.
    pub fn has_request(&self) -> bool
        ensures { result ≡ has_request_at self.now.stage }
    {
        matches!(self.stage, Stage::Owed | Stage::Serving | Stage::Over)
    }

    /// Whether a request is open.
    pub fn is_open(&self) -> bool
        ensures { result ≡ is_open_at self.now.stage }
    {
        matches!(self.stage, Stage::Owed | Stage::Serving)
    }

    /// Whether no head was opened since it was made or cleared.
    pub fn is_free(&self) -> bool
        ensures { result ≡ is_free_at self.now.stage }
    {
        matches!(self.stage, Stage::Free)
    }

    /// The limits of the connections that it serves.
    pub fn limits(&self) -> &Limits
        ensures { result.now ≡ self.now.limits }
    {
        &self.limits
    }

    /// How many items the chart of the request has: 0 where there is none.
    pub fn chart_len(&self) -> usize
        ensures { result ≡ length self.now.progress.chart }
    {
        self.machine.chart_len()
    }

    /// The item of the chart at this place, from 0.
    pub fn chart_item(&self, i: usize) -> ChartItem
        requires { i < length self.now.progress.chart }
        ensures { slice_get self.now.progress.chart i ≡ Some result }
    {
        self.machine.chart_item(i)
    }

    /// Leaves nothing of the request, and takes no memory.
    pub fn clear(&mut self)
        ensures fresh { self.new ≡ fresh_processor self.old.limits }

        // It stands for each trace in which no request is open.
        ensures stands { (T : Trace) → IsIdle (request_folds T) → StandsForRequest T self.new }
    {
        self.stage = Stage::Free;
        self.table.clear();
        self.machine.clear();
        self.content.clear();
        self.part = 0;
        self.can_async = false;
        self.keep = false;
    }

    /// Takes up the head that is due, or refuses it.
    fn take_up(&mut self, line: &mut Line, rules: &Mapper)
        requires free { self.old ≡ fresh_processor self.old.limits }
        requires closed { line.old.is_open ≡ false }
        requires room { length line.old.unsent ≤ begin_bound }
        ensures line { line.new ≡ line_with (due_at self.old.limits rules.now line.old) line.old }
        ensures request { self.new ≡ processor_with (due_at self.old.limits rules.now line.old) self.old }
    {
        match line.read_head(&self.limits, &mut self.table) {
            Front::Wait => {}
            Front::Bad => self.refuse(line, BAD_REQUEST, false),
            Front::Head { length } => self.take_up_head(line, length, rules),
        }
    }

    /// Takes up the head of this size, which stands in the table, or refuses it.
    fn take_up_head(&mut self, line: &mut Line, size: usize, rules: &Mapper)
        requires closed { line.old.is_open ≡ false }
        requires some { 1 ≤ size }
        requires within { size ≤ length line.old.unread }
        requires room { length line.old.unsent ≤ begin_bound }
        requires free { self.old ≡ record (fresh_processor self.old.limits) { table = just_read self.old.table.head } }
        ensures line { line.new ≡ line_with (due_of_head self.old.limits rules.now size self.old.table.head line.old) line.old }
        ensures request { self.new ≡ processor_with (due_of_head self.old.limits rules.now size self.old.table.head line.old) (fresh_processor self.old.limits) }
    {
        match judge(&mut self.table, rules) {
            Judgement::TurnedAway { status } => {
                let to_head = self.table.method() == b"HEAD".as_slice();
                self.refuse(line, status, to_head);
            }
            Judgement::Unserved { framed } => {
                self.keep = line.next_persists(framed.keep, &self.limits);
                line.begin(size, framed.body, self.limits.max_trailer, false);
                line.end_with_error(NOT_FOUND, self.keep, self.table.minor());
                self.stage = Stage::Over;
            }
            Judgement::Served { found, framed } => {
                self.keep = line.next_persists(framed.keep, &self.limits);
                self.part = found.part;
                self.can_async = found.can_async;
                line.begin(size, framed.body, self.limits.max_trailer, framed.go_on);
                self.stage = Stage::Owed;
            }
        }
    }

    /// Refuses the head that is due, of which nothing is kept.
    fn refuse(&mut self, line: &mut Line, status: u16, to_head: bool)
        requires closed { line.old.is_open ≡ false }
        requires room { length line.old.unsent ≤ begin_bound }
        requires free { self.old ≡ record (fresh_processor self.old.limits) { table = self.old.table } }
        ensures line { line.new ≡ after_refusal status to_head line.old }
        ensures request { self.new ≡ record (fresh_processor self.old.limits) { stage = Stage.Refused } }
    {
        line.refuse(status, to_head);
        self.table.clear();
        self.stage = Stage::Refused;
    }

    fn owed_job(&self) -> Option<Job>
        ensures { result ≡ job_at self.now }
    {
        match self.stage {
            Stage::Owed => Some(Job::Service { part: self.part }),
            _ => None,
        }
    }

    /// Begins the callback that is owed.
    fn begin_job(&mut self) -> Reply
        ensures reply { result ≡ job_reply (job_at self.old) }
        ensures parts { self.new ≡ after_job (job_at self.old) self.old }
    {
        let Some(job) = self.owed_job() else {
            return Reply::Idle;
        };
        let _done = self.machine.call(Call::Run);
        self.stage = Stage::Serving;
        Reply::Begun(job)
    }

    /// Gives content of the request to the front of `into`, as much as waits and fits. Where none waits it tells the end of
    /// a whole body, and else that there is nothing yet, which is no step, nor is a read where there is a cause to close.
    fn read(&mut self, line: &mut Line, into: &mut [u8]) -> Reply
        requires line { line.old.is_open ≡ true }
        ensures reply { result ≡ read_reply (length into.old) line.old }
        ensures into { into.new ≡ read_into line.old into.old }
        ensures line { line.new ≡ line_read self.old.limits (length into.old) line.old }
        ensures same { self.new ≡ self.old }
    {
        if line.cause().is_some() {
            return Reply::Closed;
        }
        if !line.is_ready() {
            return Reply::Again;
        }
        let reply = line.read(into);
        line.rest(&self.limits);
        reply
    }

    /// Puts content, as much as there is room for; `Again` where there is none and some is asked. Where there is a cause to
    /// close it is no step.
    fn write(&mut self, line: &Line, bytes: &[u8]) -> Reply
        ensures reply { result ≡ (if is_some line.now.cause then Reply.Closed else write_reply self.old (length bytes.now)) }
        ensures parts { self.new ≡ (if is_some line.now.cause then self.old else after_write (length bytes.now) bytes.now self.old) }
    {
        if line.cause().is_some() {
            return Reply::Closed;
        }
        let room = CONTENT_BUFFER - self.content.len();
        let count = bytes.len().min(room);
        if count == 0 && !bytes.is_empty() {
            return Reply::Again;
        }
        extend_in_room(&mut self.content, &bytes[..count]);
        Reply::Taken(count as u64)
    }

    /// The service returns: the request ends, and its answer is written, or that it was no request.
    fn finish(&mut self, line: &mut Line)
        requires serving { self.old.stage ≡ Stage.Serving }
        requires open { line.old.is_open ≡ true }
        ensures line { line.new ≡ line_returned self.old line.old }
        ensures request { self.new ≡ after_return self.old }
    {
        let _done = self.machine.call(Call::Return);
        if line.is_bad_request() {
            line.end_with_error(BAD_REQUEST, self.keep, self.table.minor());
        } else {
            line.end_with_content(&self.content, self.keep, self.table.minor());
        }
        self.content.clear();
        self.stage = Stage::Over;
    }
}

#[cfg(test)]
mod tests;
