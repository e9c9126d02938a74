//! A place with all that was written on its connection: it takes one entry at a time.
ghost use Rattle.std.specs.Prelude.{◌≡◌, ◌≤◌, ◌+◌, [], false, true, is_some, length, option_map, vec_len, vec_capacity, Some, OnErr, OnOk, IfOk};
ghost use Rattle.cy_event.specs.declared.head.TheConstants.{HEAD_ROOM, FIELD_ROOM};
ghost use Rattle.cy_model.specs.Entries.{after, opening};
ghost use Rattle.cy_model.specs.Outputs.{is_gone, took};
ghost use Rattle.cy_model.specs.Marks.{Trace};
ghost use Rattle.cy_model.specs.Replies.{is_refusal};
ghost use Rattle.cy_proc.specs.Processors.{is_open_at, is_over_at};
ghost use Rattle.cy_slot.specs.Reaching.{Who, who_is};
ghost use Rattle.cy_rings.specs.declared.kit.TheConstants.{OUT_CAPACITY};
ghost use Rattle.cy_world.specs.Answered.{AnswersEach, IsOwn, IsSameButRooms, IsVacant, Keeps, Tells, TellsEach, charts_asked, content_asked, entry_by, seat_parts, start};
ghost use Rattle.cy_world.specs.Places.{CountsHeads, HasRoom, IsInItsSlot, Lives, visits_of};
ghost use Rattle.cy_world.specs.Told.{TalliesEach, tally_of};

use crate::place::Place;
use crate::terms::Terms;
use cy_bytes::Bytes;
use cy_event::{CloseCause, Limits, NoMemory, Reply, Step};
use cy_latch::Share;
use cy_rings::OUT_CAPACITY;
use cy_slot::Slot;
use cy_tape::ChartItems;
use std::alloc::Global;
use std::marker::Model;
use std::mem;

/// A place, and what was written on the connection for which it is held.
#[derive(Drop)]
pub struct Seat {
    alloc: Global,
    place: Place,
    written: Bytes,
}

impl Model for Seat {
    ghost use Rattle.cy_world.specs.Answered.{SeatParts};

    ghost Value = { SeatParts };

    ghost view = { λ s. record { place = s.place; written = s.written } };
}

/// What a connection came to that is gone.
#[derive(Debug, Drop)]
pub struct Account {
    pub cause: Option<CloseCause>,
    pub took: u64,
    pub written: Bytes,
    pub charts: Vec<ChartItems>,
}

/// A connection in numbers: why it closes, how many bytes its socket took, how many of its requests were taken up, and
/// how many of these have ended.
#[derive(Clone, Copy, Debug, PartialEq, Eq)]
pub struct Tally {
    pub cause: Option<CloseCause>,
    pub took: u64,
    pub requests: u64,
    pub ended: u64,
}

impl Account {
    /// The same in numbers: all its requests have ended.
    pub fn tally(&self) -> Tally
        ensures { (T : Trace) → is_gone T ≡ true → Tells T self.now → result ≡ tally_of T }
    {
        let requests = self.charts.len() as u64;
        Tally {
            cause: self.cause,
            took: self.took,
            requests,
            ended: requests,
        }
    }
}

impl Seat {
    /// A place that is held for nobody.
    ///
    /// # Errors
    ///
    /// Where memory ran out.
    pub fn new(alloc: Global, limits: &Limits) -> Result<Seat, NoMemory>
        requires head_room { limits.now.max_head ≤ HEAD_ROOM }
        requires field_room { limits.now.max_fields ≤ FIELD_ROOM }
        ensures vacant { IfOk result (λ seat. IsVacant limits.now seat) }
        ensures unvisited { IfOk result (λ seat. visits_of seat.place.slot ≡ 0) }
    {
        let place = Place::new(alloc, limits)?;
        Ok(Seat {
            alloc,
            place,
            written: Bytes::of(Vec::new(alloc)),
        })
    }

    /// Whether a request of the connection is open: it sits in the slot then.
    pub fn is_open(&self) -> bool
        requires kept { is_over_at self.now.place.live.processor.stage ≡ false }
        ensures open { result ≡ is_open_at self.now.place.live.processor.stage }
        ensures sits { result ≡ true → who_is self.now.place.slot.tenant ≡ self.now.place.who }
    {
        self.place.is_open()
    }

    /// The charts of the requests that have ended.
    pub fn charts(&self) -> &[ChartItems]
        ensures { result.now ≡ self.now.place.live.charts }
    {
        self.place.charts()
    }

    /// The slot of the place. Whoever sits in it is he for whom the place is held.
    pub fn slot(&self) -> &Slot
        ensures slot { result.now ≡ self.now.place.slot }
        ensures guest { (w : Who) → who_is result.now.tenant ≡ Some w → self.now.place.who ≡ Some w }
        ensures processor { result.now.processor ≡ self.now.place.live.processor }
    {
        self.place.slot()
    }

    /// All that was written.
    pub fn written(&self) -> &Bytes
        ensures { result.now ≡ self.now.written }
    {
        &self.written
    }

    /// The connection in numbers.
    pub fn tally(&self) -> Tally
        requires kept { is_over_at self.now.place.live.processor.stage ≡ false }
        ensures { TalliesEach (seat_parts self.now) result }
    {
        let ended = self.place.ended() as u64;
        Tally {
            cause: self.place.cause(),
            took: self.took(),
            requests: ended + u64::from(self.place.is_open()),
            ended,
        }
    }

    /// How many bytes the socket took.
    fn took(&self) -> u64
        requires kept { is_over_at self.now.place.live.processor.stage ≡ false }
        ensures { (s : Terms) (T : Trace) → Keeps s T (seat_parts self.now) → result ≡ took T }
    {
        let written = self.written.as_slice().len();
        written.saturating_sub(self.place.unsent_len()) as u64
    }

    /// Gets what memory an opening may need.
    ///
    /// # Errors
    ///
    /// Where memory ran out.
    pub fn reserve(&mut self) -> Result<(), NoMemory>
        requires kept { is_over_at self.old.place.live.processor.stage ≡ false }
        ensures room { OnOk result (HasRoom 0 self.new.place) }
        ensures same { IsSameButRooms self.old self.new }
    {
        self.place.reserve(0)
    }

    /// Holds the place for a connection that is admitted now. What is written on it goes into this vector, which has
    /// room.
    pub fn admit(&mut self, share: Share, number: u64, mut written: Vec<u8>, terms: &Terms)
        requires vacant { IsVacant terms.now.limits self.old }
        requires room { HasRoom 0 self.old.place }
        requires empty { written.items ≡ [] }
        requires writing_room { OUT_CAPACITY ≤ vec_capacity written }
        ensures keeps { Keeps terms.now (after terms.now.limits terms.now.rules start [] opening) (seat_parts self.new) }
        ensures who { self.new.place.who ≡ Some (record { share = share; number = number }) }
        ensures counts { CountsHeads self.old.place self.new.place }
        ensures slot { IsInItsSlot self.new.place }
    {
        self.place.admit(share, number);
        let first = self.place.unsent_len();
        self.place.settle(&terms.rules);
        self.place.push_unsent(first, &mut written);
        self.written = Bytes::of(written);
    }

    /// Takes an entry of the connection. One that is refused is followed by nothing. A read gives content to the front of
    /// `into`, which is as long as it asks.
    ///
    /// # Errors
    ///
    /// Where memory ran out. Then nothing has changed.
    pub fn take(&mut self, step: &Step, into: &mut [u8], terms: &Terms) -> Result<Reply, NoMemory>
        requires own { IsOwn step.now }
        requires kept { is_over_at self.old.place.live.processor.stage ≡ false }
        requires guest { is_some self.old.place.who ≡ true }
        requires slot { IsInItsSlot self.old.place }
        requires into { length into.old ≡ content_asked step.now }
        ensures answers { IfOk result (λ r. AnswersEach terms.now (entry_by step.now) (seat_parts self.old) r into.new (seat_parts self.new)) }
        ensures who { self.new.place.who ≡ self.old.place.who }
        ensures kept { is_over_at self.new.place.live.processor.stage ≡ false }
        ensures counts { OnOk result (CountsHeads self.old.place self.new.place) }
        ensures slot { OnOk result (IsInItsSlot self.new.place) }
        ensures unchanged { OnErr result (IsSameButRooms self.old self.new) }
    {
        self.place.reserve(charts_asked(step))?;
        let items = self.place.chart_items(step)?;
        let mut written = self.take_written()?;
        let (first, told) = self.place.tell(step, items, into);
        if is_refusal(told) {
            self.written = Bytes::of(written);
            return Ok(told);
        }
        let reply = self.place.follow(step, told, &terms.rules);
        self.place.push_unsent(first, &mut written);
        self.written = Bytes::of(written);
        Ok(reply)
    }

    /// All that was written, with room for what an entry may write. It is to be put back.
    fn take_written(&mut self) -> Result<Vec<u8>, NoMemory>
        ensures taken { IfOk result (λ written. written.items ≡ self.old.written) }
        ensures room { IfOk result (λ written. vec_len written + OUT_CAPACITY ≤ vec_capacity written) }
        ensures place { self.new.place ≡ self.old.place }
        ensures unchanged { OnErr result (self.new ≡ self.old) }
    {
        let empty = Bytes::of(Vec::new(self.alloc));
        let mut written = mem::replace(&mut self.written, empty).into_vec();
        match written.reserve(OUT_CAPACITY) {
            Ok(()) => Ok(written),
            Err(_) => {
                self.written = Bytes::of(written);
                Err(NoMemory)
            }
        }
    }

    /// Whether the connection is closed.
    pub fn is_gone(&self) -> bool
        requires kept { is_over_at self.now.place.live.processor.stage ≡ false }
        ensures gone { (T : Trace) → Lives T self.now.place.live → result ≡ is_gone T }
        ensures closed { result ≡ true → is_open_at self.now.place.live.processor.stage ≡ false }
    {
        self.place.cause().is_some() && !self.place.is_open() && self.place.unsent_len() == 0
    }

    /// What the connection, which is gone, came to, and its share. The place is held for nobody then.
    pub fn leave(&mut self) -> (Share, Account)
        requires guest { is_some self.old.place.who ≡ true }
        requires closed { is_open_at self.old.place.live.processor.stage ≡ false }
        requires kept { is_over_at self.old.place.live.processor.stage ≡ false }
        ensures tells { TellsEach (seat_parts self.old) result.1 }
        ensures share { option_map (λ w. w.share) self.old.place.who ≡ Some result.0 }
        ensures vacant { IsVacant self.old.place.live.limits self.new }
        ensures visits { visits_of self.new.place.slot ≡ visits_of self.old.place.slot }
    {
        let cause = self.place.cause();
        let took = self.took();
        let (share, mut charts) = self.place.leave();
        let empty = Bytes::of(Vec::new(self.alloc));
        let mut written = mem::replace(&mut self.written, empty).into_vec();
        charts.shrink_to_fit();
        written.shrink_to_fit();
        let account = Account {
            cause,
            took,
            written: Bytes::of(written),
            charts,
        };
        (share, account)
    }
}

/// For how many further charts a step may need room: for one of each byte that comes, and for that of a request that an
/// act ends.
fn charts_asked(step: &Step) -> usize
    ensures { result ≡ charts_asked step.now }
{
    match step {
        Step::On { bytes, .. } => bytes.as_slice().len(),
        Step::Act { .. } => 1,
        _ => 0,
    }
}

/// Whether an entry was refused, or could do nothing now.
fn is_refusal(reply: Reply) -> bool
    ensures { result ≡ is_refusal reply }
{
    matches!(
        reply,
        Reply::Again
            | Reply::Illegal(_)
            | Reply::Unsupported
            | Reply::AlreadySet
            | Reply::Committed
            | Reply::BadValue
            | Reply::TooMany(_)
            | Reply::NotActive
            | Reply::NoConn
            | Reply::NoPass
            | Reply::Ended
            | Reply::Closed
    )
}
