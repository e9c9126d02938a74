//! A place of the connector: a slot, and the connection for which it is held. While a request of the connection is open
//! it sits in the slot, and else beside it. A place that is held for nobody has a line at hand for the next connection.
//! Every entry comes at the last moment of the line.
ghost use Rattle.std.specs.Prelude.{◌≡◌, ◌≤◌, ◌<◌, ◌+◌, ◌*◌, ◌-◌, ◌^◌, ◌++◌, ◌∷◌, [], drop, length, not, ◌&&◌, true, false, is_some, option_map, vec_len, vec_capacity, Some, None, OnOk, OnErr, IfOk};
ghost use Rattle.cy_event.specs.declared.head.TheConstants.{HEAD_ROOM, FIELD_ROOM};
ghost use Rattle.cy_event.specs.declared.limits.TheConstants.{GREATEST_MOMENT};
ghost use Rattle.cy_model.specs.Outputs.{is_gone};
ghost use Rattle.cy_model.specs.Marks.{Trace, opened};
ghost use Rattle.cy_model.specs.Steps.{IsWithinBytes};
ghost use Rattle.cy_proc.specs.LineChanges.{is_due, room_of, work_of};
ghost use Rattle.cy_proc.specs.ProcessorAnswers.{IsReadInto};
ghost use Rattle.cy_proc.specs.Processors.{fresh_processor, is_open_at, is_over_at};
ghost use Rattle.cy_rings.specs.declared.kit.TheConstants.{IN_CAPACITY, OUT_CAPACITY};
ghost use Rattle.cy_event.specs.declared.steps.Reply.TheVariants as reply;
ghost use Rattle.cy_model.specs.Entries.{on_act};
ghost use Rattle.cy_world.specs.Answered.{IsOwn, charts_asked, content_asked, entry_by, is_act, is_turn};
ghost use Rattle.cy_world.specs.Lives.{KeepsEach, LeavesNoMoreWork, LivesAfterEvent, LivesAfterFollowing, LivesAfterTelling, RestsEach, SettlesEach, SettlesOne, first_of};
ghost use Rattle.cy_slot.specs.Reaching.{Who, who_is};
ghost use Rattle.cy_slot.specs.declared.slot.TheConstants.{GREATEST_TENANCY};
ghost use Rattle.cy_world.specs.Places.{CountsHeads, HasRoom, IsInItsSlot, IsSameButRoom, Lives, stands_due, visits_of};

use cy_event::{Act, ChartItem, CloseCause, Event, Limits, NoMemory, Reply, Step};
use cy_latch::Share;
use cy_map::Mapper;
use cy_proc::{Line, Standing};
use cy_rings::IN_CAPACITY;
use cy_slot::{Bound, Conn, GREATEST_TENANCY, Slot};
use cy_tape::ChartItems;
use std::alloc::Global;
use std::marker::Model;
use std::mem;

/// Who a place is held for.
#[derive(Drop)]
pub struct Guest {
    pub share: Share,
    pub number: u64,
}

/// A line outside of the slot, and whose it is.
#[derive(Drop)]
pub struct Idle {
    pub line: Line,
    pub guest: Option<Guest>,
}

/// A place. Of each request that has ended the chart is kept, until the connection is gone.
#[derive(Drop)]
pub struct Place {
    alloc: Global,
    limits: Limits,
    slot: Slot,
    spare: Option<Slot>,
    idle: Option<Idle>,
    charts: Vec<ChartItems>,
}

impl Model for Place {
    ghost use Rattle.std.specs.Prelude.{vec_capacity};
    ghost use Rattle.cy_world.specs.Places.{IsPlace, PlaceParts, place_parts};

    ghost Value = { PlaceParts };

    ghost view = { λ p. place_parts p.limits p.slot p.spare p.idle p.charts.items (vec_capacity p.charts) };

    // It stands for some trace.
    ghost invariant = { λ p. IsPlace p.limits p.slot p.spare p.idle p.charts.items (vec_capacity p.charts) };
}

/// The first moment. Entries that come at it come at the last moment of their line.
pub const START: u64 = 0;

/// For a slot that has had more tenants than this a new one is got, so that none is wanting when it is used up: fewer are
/// still taken up in one step.
const WORN: u64 = u64::MAX - (1 << 16);

impl Place {
    /// A place that is held for nobody.
    ///
    /// # Errors
    ///
    /// Where memory ran out.
    pub fn new(alloc: Global, limits: &Limits) -> Result<Place, NoMemory>
        requires head_room { limits.now.max_head ≤ HEAD_ROOM }
        requires field_room { limits.now.max_fields ≤ FIELD_ROOM }
        ensures lives { IfOk result (λ place. Lives ((START, opened) ∷ []) place.live) }
        ensures limits { IfOk result (λ place. place.live.limits ≡ limits.now) }
        ensures moment { IfOk result (λ place. place.live.line.moment ≡ START) }
        ensures kept { IfOk result (λ place. is_over_at place.live.processor.stage ≡ false) }
        ensures nobody { IfOk result (λ place. place.who ≡ None) }
        ensures slot { IfOk result IsInItsSlot }
        ensures unvisited { IfOk result (λ place. visits_of place.slot ≡ 0) }
        ensures tenants { IfOk result (λ place. place.tenants_left ≡ GREATEST_TENANCY) }
        ensures charts { IfOk result (λ place. place.live.charts ≡ []) }
    {
        let Ok(line) = Line::new(alloc) else {
            return Err(NoMemory);
        };
        let slot = Slot::new(alloc, limits)?;
        Ok(Place {
            alloc,
            limits: *limits,
            slot,
            spare: None,
            idle: Some(Idle { line, guest: None }),
            charts: Vec::new(alloc),
        })
    }

    /// The slot. Whoever sits in it is he for whom the place is held.
    pub fn slot(&self) -> &Slot
        ensures slot { result.now ≡ self.now.slot }
        ensures guest { (w : Who) → who_is result.now.tenant ≡ Some w → self.now.who ≡ Some w }
        ensures processor { result.now.processor ≡ self.now.live.processor }
    {
        &self.slot
    }

    /// Whether a request of the connection is open.
    pub fn is_open(&self) -> bool
        requires kept { is_over_at self.now.live.processor.stage ≡ false }
        ensures open { result ≡ is_open_at self.now.live.processor.stage }
        ensures sits { result ≡ true → who_is self.now.slot.tenant ≡ self.now.who }
    {
        self.idle.is_none()
    }

    /// How many requests of the connection have ended.
    pub fn ended(&self) -> usize
        ensures count { result ≡ length self.now.live.charts }
        ensures within { result < 2 ^ 63 }
    {
        self.charts.len()
    }

    /// The charts of the requests that have ended.
    pub fn charts(&self) -> &[ChartItems]
        ensures { result.now ≡ self.now.live.charts }
    {
        self.charts.as_slice()
    }

    /// Why the connection closes, if there is a cause.
    pub fn cause(&self) -> Option<CloseCause>
        ensures { result ≡ self.now.live.line.cause }
    {
        match &self.idle {
            Some(idle) => idle.line.cause(),
            None => self.slot.cause(),
        }
    }

    /// How many bytes wait for the socket.
    pub fn unsent_len(&self) -> usize
        requires kept { is_over_at self.now.live.processor.stage ≡ false }
        ensures count { result ≡ length self.now.live.line.unsent }
        ensures within { result ≤ OUT_CAPACITY }
    {
        match &self.idle {
            Some(idle) => idle.line.unsent_len(),
            None => self.slot.waiting_len(self.slot.tenancy()),
        }
    }

    /// Appends the bytes that wait for the socket behind the first of them. It takes no memory: `to` has room.
    pub fn push_unsent(&mut self, first: usize, to: &mut Vec<u8>)
        requires kept { is_over_at self.old.live.processor.stage ≡ false }
        requires room { vec_len to.old + OUT_CAPACITY ≤ vec_capacity to.old }
        ensures pushed { to.new.items ≡ to.old.items ++ drop first self.old.live.line.unsent }
        ensures same { self.new ≡ self.old }
    {
        if self.unsent_len() <= first {
            return;
        }
        let Some(mut idle) = self.idle.take() else {
            let tenancy = self.slot.tenancy();
            self.slot.push_unsent(tenancy, first, to);
            return;
        };
        idle.line.push_unsent(first, to);
        self.idle = Some(idle);
    }

    /// How many bytes of the input the line would take now.
    fn in_room(&self) -> usize
        requires kept { is_over_at self.now.live.processor.stage ≡ false }
        ensures room { result ≡ room_of self.now.live.line }
        ensures held { length self.now.live.line.unread + result ≤ IN_CAPACITY }
    {
        match &self.idle {
            Some(idle) => idle.line.in_room(),
            None => self.slot.in_room(self.slot.tenancy()),
        }
    }

    /// Gets what memory an entry may need that brings so many bytes: room for the chart of each head that may be taken
    /// up, and a new slot where this one is nearly used up.
    ///
    /// # Errors
    ///
    /// Where memory ran out.
    pub fn reserve(&mut self, bytes: usize) -> Result<(), NoMemory>
        requires kept { is_over_at self.old.live.processor.stage ≡ false }
        ensures room { OnOk result (HasRoom bytes self.new) }
        ensures enough { 2 ^ 16 ≤ self.old.tenants_left → self.new.tenants_left ≡ self.old.tenants_left }
        ensures same { IsSameButRoom self.old self.new }
    {
        self.get_spare()?;
        let waiting = IN_CAPACITY - self.in_room();
        let coming = bytes.min(IN_CAPACITY);
        self.get_chart_room(waiting + coming + 3)
    }

    /// Room for the chart of a request that the step may end, where it is an act.
    ///
    /// # Errors
    ///
    /// Where memory ran out.
    pub fn chart_items(&self, step: &Step) -> Result<Vec<ChartItem>, NoMemory>
        ensures empty { IfOk result (λ items. items.items ≡ []) }
        ensures room { IfOk result (λ items. is_act step.now ≡ true → length self.now.slot.processor.progress.chart + 1 ≤ vec_capacity items) }
    {
        if !is_act(step) {
            return Ok(Vec::new(self.alloc));
        }
        let Some(room) = self.slot.chart_len().checked_add(1) else {
            return Err(NoMemory);
        };
        Ok(Vec::with_capacity(self.alloc, room)?)
    }

    /// Gets a new slot where this one is nearly used up.
    fn get_spare(&mut self) -> Result<(), NoMemory>
        ensures left { OnOk result (2 * IN_CAPACITY + 8 ≤ self.new.tenants_left) }
        ensures enough { 2 ^ 16 ≤ self.old.tenants_left → self.new.tenants_left ≡ self.old.tenants_left }
        ensures same { IsSameButRoom self.old self.new }
    {
        if self.slot.tenancy() > WORN && self.spare.is_none() {
            return self.make_spare();
        }
        Ok(())
    }

    /// Makes a new slot. It stands by itself since its bytes lie on the stack meanwhile, and it is hardly ever called.
    fn make_spare(&mut self) -> Result<(), NoMemory>
        ensures left { OnOk result (2 * IN_CAPACITY + 8 ≤ self.new.tenants_left) }
        ensures same { IsSameButRoom self.old self.new }
    {
        self.spare = Some(Slot::new(self.alloc, &self.limits)?);
        Ok(())
    }

    /// Gets room for so many further charts. Where there is too little it gets twice as much, since the next entries need
    /// some as well.
    fn get_chart_room(&mut self, further: usize) -> Result<(), NoMemory>
        ensures room { OnOk result (length self.old.live.charts + further ≤ self.new.chart_room) }
        ensures same { IsSameButRoom self.old self.new }
        ensures tenants { self.new.tenants_left ≡ self.old.tenants_left }
    {
        if self.charts.capacity() - self.charts.len() < further {
            self.charts.reserve(further.saturating_mul(2))?;
        }
        Ok(())
    }

    /// What an entry does at once: the socket tells something, or the callback that runs acts. No head is taken up yet.
    /// A turn of a worker does nothing yet. Beside the reply stands how many bytes wait for the socket, of which what
    /// follows is no part. A read gives content to `into`, which is as long as it asks.
    pub fn tell(&mut self, step: &Step, items: Vec<ChartItem>, into: &mut [u8]) -> (usize, Reply)
        requires own { IsOwn step.now }
        requires kept { is_over_at self.old.live.processor.stage ≡ false }
        requires room { HasRoom (charts_asked step.now) self.old }
        requires empty { items.items ≡ [] }
        requires slot { IsInItsSlot self.old }
        requires items_room { is_act step.now ≡ true → length self.old.slot.processor.progress.chart + 1 ≤ vec_capacity items }
        requires into { length into.old ≡ content_asked step.now }
        ensures first { result.0 ≡ first_of (entry_by step.now) self.old.live self.new.live }
        ensures tells { LivesAfterTelling (entry_by step.now) self.old.live result.1 into.new self.new.live }
        ensures turn { is_turn step.now ≡ true → result.1 ≡ reply.Idle }
        ensures keeps { KeepsEach self.old.live self.new.live }
        ensures counts { CountsHeads self.old self.new }
        ensures slot { IsInItsSlot self.new }
        ensures who { self.new.who ≡ self.old.who }
        ensures room { HasRoom 0 self.new }
    {
        match step {
            Step::On { event, bytes, .. } => self.event(*event, bytes.as_slice()),
            Step::Act { act, bytes, .. } => {
                let first = self.unsent_len();
                (first, self.act(act, bytes.as_slice(), items, into))
            }
            Step::Run(_) => (self.unsent_len(), Reply::Idle),
            Step::At(_) | Step::Admit(_) => unreachable!(),
        }
    }

    /// The socket tells something, and so many bytes wait for it then. The ring of the input takes no more bytes at once
    /// than it holds.
    fn event(&mut self, event: Event, bytes: &[u8]) -> (usize, Reply)
        requires kept { is_over_at self.old.live.processor.stage ≡ false }
        requires room { HasRoom (length bytes.now) self.old }
        ensures first { result.0 ≡ length self.new.live.line.unsent }
        ensures answers { LivesAfterEvent event bytes.now self.old.live result.1 self.new.live }
        ensures keeps { KeepsEach self.old.live self.new.live }
        ensures counts { CountsHeads self.old self.new }
        ensures slot { IsInItsSlot self.new }
        ensures who { self.new.who ≡ self.old.who }
        ensures room { HasRoom 0 self.new }
    {
        let bytes = &bytes[..IN_CAPACITY.min(bytes.len())];
        let Some(mut idle) = self.idle.take() else {
            let tenancy = self.slot.tenancy();
            let reply = self.slot.event(tenancy, START, event, bytes);
            return (self.slot.waiting_len(tenancy), reply);
        };
        let reply = idle.line.event(START, event, bytes, &self.limits);
        let first = idle.line.unsent_len();
        self.idle = Some(idle);
        (first, reply)
    }

    /// The callback that runs acts. Where its request ends it leaves the slot, and its chart goes into these items. A read
    /// gives content to the front of `into`.
    fn act(&mut self, act: &Act, bytes: &[u8], items: Vec<ChartItem>, into: &mut [u8]) -> Reply
        requires kept { is_over_at self.old.live.processor.stage ≡ false }
        requires room { HasRoom 1 self.old }
        requires within { IsWithinBytes act.now bytes.now }
        requires empty { items.items ≡ [] }
        requires items_room { length self.old.slot.processor.progress.chart + 1 ≤ vec_capacity items }
        requires into { IsReadInto act.now into.old }
        ensures answers { LivesAfterTelling (on_act act.now bytes.now) self.old.live result into.new self.new.live }
        ensures keeps { KeepsEach self.old.live self.new.live }
        ensures counts { CountsHeads self.old self.new }
        ensures slot { IsInItsSlot self.new }
        ensures who { self.new.who ≡ self.old.who }
        ensures room { HasRoom 0 self.new }
    {
        if self.idle.is_some() {
            return Reply::NotActive;
        }
        let tenancy = self.slot.tenancy();
        let reply = self.slot.act(tenancy, START, act, bytes, into);
        if self.slot.is_over() {
            let chart = chart_of(&self.slot, items);
            self.finish(chart);
        }
        reply
    }

    /// What follows a step that was answered so: the moves of the container, and behind a turn of a worker the callback
    /// that is owed begins, unless a request has ended by these moves.
    pub fn follow(&mut self, step: &Step, told: Reply, rules: &Mapper) -> Reply
        requires kept { is_over_at self.old.live.processor.stage ≡ false }
        requires room { HasRoom 0 self.old }
        requires guest { is_some self.old.who ≡ true }
        requires turn { is_turn step.now ≡ true → told ≡ reply.Idle }
        ensures follows { LivesAfterFollowing rules.now (is_turn step.now) told self.old.live result self.new.live }
        ensures keeps { KeepsEach self.old.live self.new.live }
        ensures counts { CountsHeads self.old self.new }
        ensures slot { IsInItsSlot self.new }
        ensures who { self.new.who ≡ self.old.who }
    {
        let ended = self.charts.len();
        self.settle(rules);
        if !is_turn(step) || self.charts.len() != ended || self.idle.is_some() {
            return told;
        }
        self.slot.run(self.slot.tenancy(), START)
    }

    /// Makes the moves of the container: while a head is due it is taken up or refused.
    pub fn settle(&mut self, rules: &Mapper)
        requires kept { is_over_at self.old.live.processor.stage ≡ false }
        requires room { HasRoom 0 self.old }
        requires guest { is_some self.old.who ≡ true }
        ensures settles { SettlesEach rules.now self.old.live self.new.live }
        ensures keeps { KeepsEach self.old.live self.new.live }
        ensures counts { CountsHeads self.old self.new }
        ensures slot { IsInItsSlot self.new }
        ensures who { self.new.who ≡ self.old.who }
    {
        while self.is_due() {
            self.take_up(rules);
        }
    }

    /// Makes the moves of the container but taking up a head, and says whether one is due.
    fn is_due(&mut self) -> bool
        requires kept { is_over_at self.old.live.processor.stage ≡ false }
        ensures rests { RestsEach self.old.live self.new.live }
        ensures due { result ≡ (not (is_open_at self.new.live.processor.stage) && is_due self.old.live.limits self.new.live.line) }
        ensures line { LeavesNoMoreWork self.old.live self.new.live }
        ensures counts { CountsHeads self.old self.new }
        ensures slot { IsInItsSlot self.new }
        ensures processor { self.new.live.processor ≡ self.old.live.processor }
        ensures charts { self.new.live.charts ≡ self.old.live.charts }
        ensures limits { self.new.live.limits ≡ self.old.live.limits }
        ensures who { self.new.who ≡ self.old.who }
        ensures room { self.new.chart_room ≡ self.old.chart_room }
        ensures tenants { self.new.tenants_left ≡ self.old.tenants_left }
    {
        let Some(mut idle) = self.idle.take() else {
            return false;
        };
        let standing = idle.line.settle(START, &self.limits);
        self.idle = Some(idle);
        stands_due(standing)
    }

    /// The connection comes to sit in the slot, and the head that is due is taken up or refused. Where that is all, it
    /// leaves the slot again.
    fn take_up(&mut self, rules: &Mapper)
        requires guest { is_some self.old.who ≡ true }
        requires closed { is_open_at self.old.live.processor.stage ≡ false }
        requires kept { is_over_at self.old.live.processor.stage ≡ false }
        requires due { is_due self.old.live.limits self.old.live.line ≡ true }
        requires room { HasRoom 0 self.old }
        ensures takes { SettlesOne rules.now self.old.live self.new.live }
        ensures keeps { KeepsEach self.old.live self.new.live }
        ensures counts { CountsHeads self.old self.new }
        ensures who { self.new.who ≡ self.old.who }
        ensures room { HasRoom 0 self.new }
        ensures less { work_of self.new.live.line < work_of self.old.live.line }
    {
        self.renew_slot();
        let Some(Idle { line, guest }) = self.idle.take() else {
            unreachable!()
        };
        let Some(Guest { share, number }) = guest else {
            unreachable!()
        };
        let Bound::Bound { tenancy } = self.slot.bind(Conn {
            line,
            share,
            number,
        })
        else {
            unreachable!()
        };
        let _done = self.slot.open(tenancy, START, rules);
        if self.slot.is_over() {
            self.finish(ChartItems::of(Vec::new(self.alloc)));
        }
    }

    /// A slot that is used up is left for the new one.
    fn renew_slot(&mut self)
        requires closed { is_open_at self.old.live.processor.stage ≡ false }
        requires kept { is_over_at self.old.live.processor.stage ≡ false }
        requires left { 1 ≤ self.old.tenants_left }
        ensures live { self.new.live ≡ self.old.live }
        ensures who { self.new.who ≡ self.old.who }
        ensures room { self.new.chart_room ≡ self.old.chart_room }
        ensures tenants { self.new.tenants_left ≡ self.old.tenants_left }
        ensures free { self.new.slot.tenancy < GREATEST_TENANCY }
        ensures slot { self.old.slot.tenancy < GREATEST_TENANCY → self.new.slot ≡ self.old.slot }
    {
        if self.slot.tenancy() < GREATEST_TENANCY {
            return;
        }
        let Some(slot) = self.spare.take() else {
            unreachable!()
        };
        self.slot = slot;
    }

    /// The head is done with: the chart of its request is kept, if it was that of one, and the connection leaves the slot.
    fn finish(&mut self, chart: ChartItems)
        requires over { is_over_at self.old.live.processor.stage ≡ true }
        requires chart { chart ≡ self.old.live.processor.progress.chart }
        requires room { length self.old.live.charts < self.old.chart_room }
        ensures lives { (T : Trace) → Lives T self.old.live → Lives T self.new.live }
        ensures fresh { self.new.live.processor ≡ fresh_processor self.old.live.processor.limits }
        ensures charts { length self.new.live.charts ≤ length self.old.live.charts + 1 }
        ensures room { self.new.chart_room ≡ self.old.chart_room }
        ensures tenants { self.old.tenants_left ≤ self.new.tenants_left + 1 }
        ensures line { self.new.live.line ≡ self.old.live.line }
        ensures limits { self.new.live.limits ≡ self.old.live.limits }
        ensures who { self.new.who ≡ self.old.who }
        ensures slot { IsInItsSlot self.new }
        ensures visits { visits_of self.new.slot ≡ visits_of self.old.slot }
    {
        if self.slot.has_request() {
            self.charts.push_reserved(chart);
        }
        let Conn {
            line,
            share,
            number,
        } = self.slot.release();
        let guest = Some(Guest { share, number });
        self.idle = Some(Idle { line, guest });
    }

    /// Holds the place for a connection, to whose line nothing has happened.
    pub fn admit(&mut self, share: Share, number: u64)
        requires nobody { self.old.who ≡ None }
        ensures admitted { self.new ≡ record self.old { who = Some (record { share = share; number = number }) } }
        ensures slot { IsInItsSlot self.new }
    {
        let Some(mut idle) = self.idle.take() else {
            unreachable!()
        };
        idle.guest = Some(Guest { share, number });
        self.idle = Some(idle);
    }

    /// Holds the place for nobody: the share and the charts are handed out, and the line is made fit for the next.
    pub fn leave(&mut self) -> (Share, Vec<ChartItems>)
        requires guest { is_some self.old.who ≡ true }
        requires closed { is_open_at self.old.live.processor.stage ≡ false }
        requires kept { is_over_at self.old.live.processor.stage ≡ false }
        ensures share { option_map (λ w. w.share) self.old.who ≡ Some result.0 }
        ensures charts { result.1.items ≡ self.old.live.charts }
        ensures nobody { self.new.who ≡ None }
        ensures slot { IsInItsSlot self.new }
        ensures visits { visits_of self.new.slot ≡ visits_of self.old.slot }
        ensures tenants { self.new.tenants_left ≡ self.old.tenants_left }
        ensures lives { Lives ((START, opened) ∷ []) self.new.live }
        ensures limits { self.new.live.limits ≡ self.old.live.limits }
        ensures moment { self.new.live.line.moment ≡ START }
        ensures kept { is_over_at self.new.live.processor.stage ≡ false }
        ensures empty { self.new.live.charts ≡ [] }
    {
        let Some(Idle { mut line, guest }) = self.idle.take() else {
            unreachable!()
        };
        let Some(Guest { share, number: _ }) = guest else {
            unreachable!()
        };
        line.renew(START);
        self.idle = Some(Idle { line, guest: None });
        let charts = mem::replace(&mut self.charts, Vec::new(self.alloc));
        (share, charts)
    }
}

/// The chart of the slot's request, in these items, which have room for it.
fn chart_of(slot: &Slot, mut items: Vec<ChartItem>) -> ChartItems
    requires empty { items.items ≡ [] }
    requires room { length slot.now.processor.progress.chart ≤ vec_capacity items }
    ensures { result ≡ slot.now.processor.progress.chart }
{
    for place in 0..slot.chart_len() {
        items.push_reserved(slot.chart_item(place));
    }
    ChartItems::of(items)
}

/// Whether a head is to be taken up or refused.
fn stands_due(standing: Standing) -> bool
    ensures { result ≡ stands_due standing }
{
    matches!(standing, Standing::Due)
}

/// Whether it is a turn of a worker.
fn is_turn(step: &Step) -> bool
    ensures { result ≡ is_turn step.now }
{
    matches!(step, Step::Run(_))
}

/// Whether a callback acts.
fn is_act(step: &Step) -> bool
    ensures { result ≡ is_act step.now }
{
    matches!(step, Step::Act { .. })
}
