//! A slot: it is bound, used and released again and again, and each time for the next tenant.

ghost use Rattle.std.specs.Prelude.{◌≡◌, ◌≤◌, ◌<◌, ◌+◌, ◌++◌, ℕ, [], false, true, drop, length, min, vec_len, vec_capacity, not, max, slice_get, take, Some, IfOk};
ghost use Rattle.cy_event.specs.declared.head.TheConstants.{FIELD_ROOM, HEAD_ROOM};
ghost use Rattle.cy_event.specs.declared.limits.TheConstants.{GREATEST_MOMENT};
ghost use Rattle.cy_model.specs.Steps.{IsWithinBytes};
ghost use Rattle.cy_proc.specs.ProcessorAnswers.{AnswersEachAct, AnswersEachEvent, AnswersEachTurn, GivesInto, IsReadInto, TakesUpEach, is_ended};
ghost use Rattle.cy_proc.specs.ProcessorChanges.{job_at};
ghost use Rattle.cy_proc.specs.Processors.{has_request_at, is_free_at, is_open_at, is_over_at, part_at};
ghost use Rattle.cy_proc.specs.LineChanges.{work_of};
ghost use Rattle.cy_rings.specs.declared.kit.TheConstants.{IN_CAPACITY, OUT_CAPACITY};
ghost use Rattle.cy_slot.specs.Slots.{SlotParts, cause_in, fresh_slot, job_in, line_in, released, with_state};
ghost use Rattle.cy_slot.specs.Runs.{IsTurn, effect_of, was_bound, was_opened, was_released, was_stepped};
ghost use Rattle.cy_slot.specs.Reaching.{KeepsAllElse, after_bind, bound_by, lent_by, may_open, open_reply, reaches, room_in, unsent_in};

use crate::conn::Conn;
use cy_event::{
    Act, ChartItem, CloseCause, Event, Job, Limits, NoMemory, Reply, RequestHead, extend_in_room,
};
use cy_map::Mapper;
use cy_proc::{Processor, Standing};
use std::alloc::Global;
use std::marker::Model;

/// How many bytes a component keeps for a request.
pub const STATE_BYTES: usize = 256;

/// The tenancy that is given to nobody.
pub const GREATEST_TENANCY: u64 = u64::MAX;

/// What `Slot::bind` answers.
#[derive(Drop)]
pub enum Bound {
    /// The connection sits in the slot, as the tenant of this number.
    Bound { tenancy: u64 },
    /// Another connection sits there. The one that was to be bound is handed back.
    Occupied { tenancy: u64, conn: Conn },
    /// The slot has had as many tenants as it may. The connection is handed back.
    Worn { conn: Conn },
}

/// A slot. All memory is taken as it is made.
#[derive(Drop)]
pub struct Slot {
    tenant: Option<Conn>,
    processor: Processor,
    state: Vec<u8>,
    tenancy: u64,
    first: u64,
}

impl Model for Slot {
    ghost use Rattle.std.specs.Prelude.{◌≡◌, vec_len};
    ghost use Rattle.cy_slot.specs.Slots.{IsHeld, SlotParts};
    ghost use Rattle.cy_slot.specs.declared.slot.TheConstants.{STATE_BYTES};

    ghost Value = { SlotParts };

    ghost view = { λ s. record { tenant = s.tenant; processor = s.processor; state = s.state.items; tenancy = s.tenancy; first = s.first } };

    ghost invariant = { λ s. (vec_len s.state ≡ STATE_BYTES) × IsHeld s.tenant s.processor s.state.items s.tenancy };
}

impl Slot {
    /// An empty slot, for connections of these limits, whose first tenant gets the number 0.
    ///
    /// # Errors
    ///
    /// `NoMemory` where memory ran out.
    pub fn new(alloc: Global, limits: &Limits) -> Result<Slot, NoMemory>
        requires head_room { limits.now.max_head ≤ HEAD_ROOM }
        requires field_room { limits.now.max_fields ≤ FIELD_ROOM }
        ensures fresh { IfOk result (λ slot. slot ≡ fresh_slot limits.now 0) }
    {
        Slot::new_at(alloc, limits, 0)
    }

    /// An empty slot whose first tenant gets this number.
    ///
    /// # Errors
    ///
    /// `NoMemory` where memory ran out.
    pub fn new_at(alloc: Global, limits: &Limits, first: u64) -> Result<Slot, NoMemory>
        requires head_room { limits.now.max_head ≤ HEAD_ROOM }
        requires field_room { limits.now.max_fields ≤ FIELD_ROOM }
        ensures fresh { IfOk result (λ slot. slot ≡ fresh_slot limits.now first) }
    {
        Ok(Slot {
            tenant: None,
            processor: Processor::new(alloc, limits)?,
            state: vec![in alloc; 0; STATE_BYTES]?,
            tenancy: first,
            first,
        })
    }

    /// The connection comes to sit in the slot: no request is open yet. Where another sits there, or the tenancies are
    /// used up, it is handed back, and nothing changes.
    pub fn bind(&mut self, conn: Conn) -> Bound
        ensures answer { result ≡ bound_by conn self.old }
        ensures parts { self.new ≡ after_bind conn self.old }
        ensures turn { IsTurn self.old (was_bound conn result) self.new }
    {
        if self.tenant.is_some() {
            return Bound::Occupied {
                tenancy: self.tenancy,
                conn,
            };
        }
        if self.tenancy == GREATEST_TENANCY {
            return Bound::Worn { conn };
        }
        self.tenant = Some(conn);
        Bound::Bound {
            tenancy: self.tenancy,
        }
    }

    /// Takes up the head that is due, or refuses it, at the last moment of the line: once a tenancy, behind its `bind`.
    /// Where no head is due, or it isn't for this tenant, it answers `Ended` and changes nothing.
    pub fn open(&mut self, tenancy: u64, at: u64, rules: &Mapper) -> Reply
        ensures answer { result ≡ open_reply tenancy self.old }
        ensures others { may_open tenancy self.old ≡ false → self.new ≡ self.old }
        ensures takes { may_open tenancy self.old ≡ true → TakesUpEach rules.now (line_in self.old) self.old.processor (line_in self.new) self.new.processor }
        ensures opened { may_open tenancy self.old ≡ true → is_free_at self.new.processor.stage ≡ false }
        ensures uncalled { may_open tenancy self.old ≡ true → self.new.processor.progress.chart ≡ [] }
        ensures less { may_open tenancy self.old ≡ true → work_of (line_in self.new) < work_of (line_in self.old) }
        ensures moment { (line_in self.new).moment ≡ (line_in self.old).moment }
        ensures all_else { KeepsAllElse self.old self.new }
        ensures turn { IsTurn self.old (was_opened tenancy (effect_of (not (is_ended result)) self.new)) self.new }
    {
        if self.tenancy != tenancy || !self.processor.is_free() {
            return Reply::Ended;
        }
        let Some(mut conn) = self.tenant.take() else {
            return Reply::Ended;
        };
        let reply = if conn.line.standing(self.processor.limits()) == Standing::Due {
            self.processor.open(&mut conn.line, at, rules)
        } else {
            Reply::Ended
        };
        self.tenant = Some(conn);
        reply
    }

    /// Takes what the socket tells while the tenant's request is open.
    pub fn event(&mut self, tenancy: u64, at: u64, event: Event, bytes: &[u8]) -> Reply
        requires moment { at ≤ GREATEST_MOMENT }
        ensures ended { is_ended result ≡ not (reaches tenancy self.old) }
        ensures others { reaches tenancy self.old ≡ false → self.new ≡ self.old }
        ensures answers { reaches tenancy self.old ≡ true → AnswersEachEvent event bytes.now (line_in self.old) self.old.processor result (line_in self.new) self.new.processor }
        ensures moment { reaches tenancy self.old ≡ true → (line_in self.new).moment ≡ max (line_in self.old).moment at }
        ensures same { self.new.processor ≡ self.old.processor }
        ensures work { work_of (line_in self.new) ≤ work_of (line_in self.old) + length bytes.now }
        ensures all_else { KeepsAllElse self.old self.new }
        ensures turn { IsTurn self.old (was_stepped tenancy (effect_of (not (is_ended result)) self.new)) self.new }
    {
        if !self.is_reached(tenancy) {
            return Reply::Ended;
        }
        let Some(mut conn) = self.tenant.take() else {
            return Reply::Ended;
        };
        let reply = self.processor.event(&mut conn.line, at, event, bytes);
        self.tenant = Some(conn);
        reply
    }

    /// A worker turns to the tenant's open request: the callback that is owed begins.
    pub fn run(&mut self, tenancy: u64, at: u64) -> Reply
        requires moment { at ≤ GREATEST_MOMENT }
        ensures ended { is_ended result ≡ not (reaches tenancy self.old) }
        ensures others { reaches tenancy self.old ≡ false → self.new ≡ self.old }
        ensures answers { reaches tenancy self.old ≡ true → AnswersEachTurn (line_in self.old) self.old.processor result (line_in self.new) self.new.processor }
        ensures moment { reaches tenancy self.old ≡ true → (line_in self.new).moment ≡ max (line_in self.old).moment at }
        ensures stays { is_open_at self.new.processor.stage ≡ is_open_at self.old.processor.stage }
        ensures work { work_of (line_in self.new) ≡ work_of (line_in self.old) }
        ensures all_else { KeepsAllElse self.old self.new }
        ensures turn { IsTurn self.old (was_stepped tenancy (effect_of (not (is_ended result)) self.new)) self.new }
    {
        if !self.is_reached(tenancy) {
            return Reply::Ended;
        }
        let Some(mut conn) = self.tenant.take() else {
            return Reply::Ended;
        };
        let reply = self.processor.run(&mut conn.line, at);
        self.tenant = Some(conn);
        reply
    }

    /// The callback that runs acts. A read gives content to the front of `into`, which has room for as much as it asks.
    pub fn act(&mut self, tenancy: u64, at: u64, act: &Act, bytes: &[u8], into: &mut [u8]) -> Reply
        requires moment { at ≤ GREATEST_MOMENT }
        requires within { IsWithinBytes act.now bytes.now }
        requires into { IsReadInto act.now into.old }
        ensures ended { is_ended result ≡ not (reaches tenancy self.old) }
        ensures others { reaches tenancy self.old ≡ false → self.new ≡ self.old }
        ensures answers { reaches tenancy self.old ≡ true → AnswersEachAct act.now bytes.now (line_in self.old) self.old.processor result into.new (line_in self.new) self.new.processor }
        ensures moment { reaches tenancy self.old ≡ true → (line_in self.new).moment ≡ max (line_in self.old).moment at }
        ensures chart { length self.new.processor.progress.chart ≤ length self.old.processor.progress.chart + 1 }
        ensures work { work_of (line_in self.new) ≤ work_of (line_in self.old) }
        ensures opened { reaches tenancy self.old ≡ true → is_free_at self.new.processor.stage ≡ false }
        ensures into { GivesInto result into.old into.new }
        ensures all_else { KeepsAllElse self.old self.new }
        ensures turn { IsTurn self.old (was_stepped tenancy (effect_of (not (is_ended result)) self.new)) self.new }
    {
        if !self.is_reached(tenancy) {
            return Reply::Ended;
        }
        let Some(mut conn) = self.tenant.take() else {
            return Reply::Ended;
        };
        let reply = self.processor.act(&mut conn.line, at, act, bytes, into);
        self.tenant = Some(conn);
        reply
    }

    /// The callback that is owed, where none runs.
    pub fn next_job(&self) -> Option<Job>
        ensures { result ≡ job_in self.now }
    {
        let conn = self.tenant.as_ref()?;
        self.processor.next_job(&conn.line)
    }

    /// Whether the tenant's head is done with: its request has ended, or it was refused. The slot is to be released.
    pub fn is_over(&self) -> bool
        ensures { result ≡ is_over_at self.now.processor.stage }
    {
        self.processor.is_over()
    }

    /// Empties the slot: nothing of the tenant stays but his connection, which is handed out. The next tenant gets the
    /// next number.
    pub fn release(&mut self) -> Conn
        requires over { is_over_at self.old.processor.stage ≡ true }
        ensures conn { self.old.tenant ≡ Some result }
        ensures parts { self.new ≡ released self.old }
        ensures turn { IsTurn self.old was_released self.new }
    {
        let Some(conn) = self.tenant.take() else {
            unreachable!()
        };
        self.processor.clear();
        self.state.fill(0);
        self.tenancy += 1;
        conn
    }

    /// The number of the tenant, or of the next one where nobody sits there.
    pub fn tenancy(&self) -> u64
        ensures { result ≡ self.now.tenancy }
    {
        self.tenancy
    }

    /// The number of the first tenant: those since are as many as there were releases.
    pub fn first(&self) -> u64
        ensures { result ≡ self.now.first }
    {
        self.first
    }

    /// The part of the open request: 0 where none is open.
    pub fn part(&self) -> u32
        ensures { result ≡ part_at self.now.processor }
    {
        self.processor.part()
    }

    /// Copies the head and the state bytes of the tenant's open request, and answers whether it did. The slice has room
    /// for exactly the state bytes.
    pub fn lend(&self, tenancy: u64, head: &mut RequestHead, state: &mut [u8]) -> bool
        requires size { length state.old ≡ STATE_BYTES }
        ensures lent { result ≡ reaches tenancy self.now }
        ensures head { head.new ≡ lent_by (reaches tenancy self.now) self.now.processor.table head.old }
        ensures state { state.new ≡ lent_by (reaches tenancy self.now) self.now.state state.old }
    {
        if !self.is_reached(tenancy) {
            return false;
        }
        copy_head(self.processor.head(), head);
        state.copy_from_slice(&self.state);
        true
    }

    /// Keeps the state bytes for the tenant's open request, and answers whether it did.
    pub fn keep(&mut self, tenancy: u64, state: &[u8]) -> bool
        requires size { length state.now ≡ STATE_BYTES }
        ensures kept { result ≡ reaches tenancy self.old }
        ensures parts { self.new ≡ with_state (lent_by (reaches tenancy self.old) state.now self.old.state) self.old }
        ensures turn { IsTurn self.old (was_stepped tenancy (effect_of result self.new)) self.new }
    {
        if !self.is_reached(tenancy) {
            return false;
        }
        self.state.copy_from_slice(state);
        true
    }

    /// How many bytes of the input the tenant's line would take now: 0 where his request isn't open.
    pub fn in_room(&self, tenancy: u64) -> usize
        ensures room { result ≡ room_in tenancy self.now }
        ensures held { reaches tenancy self.now ≡ true → length (line_in self.now).unread + result ≤ IN_CAPACITY }
    {
        match &self.tenant {
            Some(conn) if self.is_reached(tenancy) => conn.line.in_room(),
            _ => 0,
        }
    }

    /// How many bytes of the tenant wait for the socket: 0 where his request isn't open.
    pub fn unsent_len(&mut self, tenancy: u64) -> usize
        ensures count { result ≡ length (unsent_in tenancy self.old) }
        ensures within { result ≤ OUT_CAPACITY }
        ensures same { self.new ≡ self.old }
    {
        self.waiting_len(tenancy)
    }

    /// The same of a slot that is only lent.
    pub fn waiting_len(&self, tenancy: u64) -> usize
        ensures count { result ≡ length (unsent_in tenancy self.now) }
        ensures within { result ≤ OUT_CAPACITY }
    {
        match &self.tenant {
            Some(conn) if self.is_reached(tenancy) => conn.line.unsent_len(),
            _ => 0,
        }
    }

    /// Copies the first bytes that wait for the socket, as many as fit, and answers how many these are: 0 where the
    /// tenant's request isn't open.
    pub fn copy_out(&mut self, tenancy: u64, into: &mut [u8]) -> usize
        ensures count { result ≡ min (length into.old) (length (unsent_in tenancy self.old)) }
        ensures copied { into.new ≡ take result (unsent_in tenancy self.old) ++ drop result into.old }
        ensures same { self.new ≡ self.old }
    {
        if !self.is_reached(tenancy) {
            return 0;
        }
        let Some(mut conn) = self.tenant.take() else {
            return 0;
        };
        let count = conn.line.copy_unsent(into);
        self.tenant = Some(conn);
        count
    }

    /// Appends the bytes that wait for the socket behind the first of them: none where the tenant's request isn't open.
    /// It takes no memory: `to` has room.
    pub fn push_unsent(&mut self, tenancy: u64, first: usize, to: &mut Vec<u8>)
        requires room { vec_len to.old + OUT_CAPACITY ≤ vec_capacity to.old }
        ensures pushed { to.new.items ≡ to.old.items ++ drop first (unsent_in tenancy self.old) }
        ensures same { self.new ≡ self.old }
    {
        if !self.is_reached(tenancy) {
            return;
        }
        let Some(mut conn) = self.tenant.take() else {
            return;
        };
        conn.line.push_unsent(first, to);
        self.tenant = Some(conn);
    }

    /// Why the connection that sits there closes, if there is a cause.
    pub fn cause(&self) -> Option<CloseCause>
        ensures { result ≡ cause_in self.now }
    {
        self.tenant.as_ref()?.line.cause()
    }

    /// Whether a request was taken up that isn't released yet. A refused head is none.
    pub fn has_request(&self) -> bool
        ensures { result ≡ has_request_at self.now.processor.stage }
    {
        self.processor.has_request()
    }

    /// How many items the chart of the request has that was taken up, also after it is over: 0 where there is none.
    pub fn chart_len(&self) -> usize
        ensures { result ≡ length self.now.processor.progress.chart }
    {
        self.processor.chart_len()
    }

    /// The item of the chart at this place, from 0.
    pub fn chart_item(&self, i: usize) -> ChartItem
        requires { i < length self.now.processor.progress.chart }
        ensures { slice_get self.now.processor.progress.chart i ≡ Some result }
    {
        self.processor.chart_item(i)
    }

    /// Whether a step that is meant for this tenant takes effect.
    fn is_reached(&self, tenancy: u64) -> bool
        ensures { result ≡ reaches tenancy self.now }
    {
        self.tenant.is_some() && self.tenancy == tenancy && self.processor.is_open()
    }
}

/// Copies a head into the room of another.
fn copy_head(from: &RequestHead, into: &mut RequestHead)
    ensures { into.new ≡ from.now }
{
    into.clear();
    extend_in_room(&mut into.method_bytes, &from.method_bytes);
    extend_in_room(&mut into.target_bytes, &from.target_bytes);
    extend_in_room(&mut into.path_bytes, &from.path_bytes);
    extend_in_room(&mut into.query_bytes, &from.query_bytes);
    extend_in_room(&mut into.field_bytes, &from.field_bytes);
    match into.spans.extend_from_slice(&from.spans) {
        Ok(()) => {}
        Err(_) => unreachable!(),
    }
    into.has_query = from.has_query;
    into.version = from.version;
}
