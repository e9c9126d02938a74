//! The connector: it takes one step at a time, whichever it is.
ghost use Rattle.std.specs.Prelude.{◌≡◌, ◌≤◌, ◌<◌, ◌*◌, All, List, [], false, is_some, length, true, IfErr, IfNone, IfOk, IfSome, OnErr, OnOk, Some, option_copied, option_map, unwrap_or, vec_capacity};
ghost use Rattle.std.specs.Option.{option_flatten};
ghost use Rattle.cy_event.specs.declared.head.TheConstants.{HEAD_ROOM, FIELD_ROOM};
ghost use Rattle.cy_event.specs.declared.steps.Step.{Step as AnyStep};
ghost use Rattle.cy_map.specs.declared.mapper.TheConstants.{MAX_RULES};
ghost use Rattle.cy_map.specs.Refusals.{IsTaken};
ghost use Rattle.cy_model.specs.Connections.{connections, counted};
ghost use Rattle.cy_model.specs.Entries.{ended_count};
ghost use Rattle.cy_model.specs.Folds.{cause_of, is_open};
ghost use Rattle.cy_model.specs.Outputs.{output, took};
ghost use Rattle.cy_model.specs.Replies.{got_in, plain};
ghost use Rattle.cy_proc.specs.Processors.{is_over_at};
ghost use Rattle.cy_slot.specs.Reaching.{Who, who_is};
ghost use Rattle.cy_rings.specs.declared.kit.TheConstants.{OUT_CAPACITY};
ghost use Rattle.cy_world.specs.Answered.{IsOwn, IsSameButRooms, IsVacant, content_asked};
ghost use Rattle.cy_world.specs.Places.{HasRoom};
ghost use Rattle.cy_world.specs.declared.world.Admitted.TheVariants.{Seated};
ghost use Rattle.cy_world.specs.Counts.{tenancies};
ghost use Rattle.cy_world.specs.Faults.{IsFaultOf};
ghost use Rattle.cy_world.specs.Told.{IsHeldFor, SitsIn, replied, request_count, slot_at, tally_of, told_of};
ghost use Rattle.cy_world.specs.Worlds.{CanTake, CanWantMemory, IsAsBefore, IsOwnOf, PutsDown, Retires, StandsFor, TakesStep, find_in};

mod report;

use crate::fault::WorldFault;
use crate::seat::{Account, Seat, Tally};
use crate::terms::Terms;
use cy_bytes::Bytes;
use cy_event::{Act, CloseCause, Limits, NoMemory, Reply, Step};
use cy_latch::{Enter, LatchBook};
use cy_map::{Mapper, Rule};
use cy_rings::OUT_CAPACITY;
use cy_slot::Slot;
pub use report::run;
use std::alloc::Global;
use std::collections::BTreeMap;
use std::marker::Model;

/// Where a connection is that was admitted.
#[derive(Drop)]
pub enum Admitted {
    /// The place of this number is held for it.
    Seated(u32),
    /// It is gone, and this is what it came to.
    Gone(Account),
}

/// What a step is answered, with the bytes that it got: none but beside `Got`.
#[derive(Debug, Drop)]
pub struct Replied {
    pub reply: Reply,
    pub got: Bytes,
}

/// A connector: as many places as connections may be counted, and the book of those that were admitted.
#[derive(Drop)]
pub struct World {
    terms: Terms,
    latch: LatchBook,
    seats: Vec<Seat>,
    book: BTreeMap<u64, Admitted>,
}

impl Model for World {
    ghost use Rattle.cy_world.specs.Worlds.{IsWorld, WorldParts};

    ghost Value = { WorldParts };

    ghost view = { λ w. record { terms = w.terms; latch = w.latch; seats = w.seats.items; book = w.book.entries } };

    // It stands for some steps.
    ghost invariant = { λ w. IsWorld (record { terms = w.terms; latch = w.latch; seats = w.seats.items; book = w.book.entries }) };
}

impl World {
    /// A connector to which nothing has happened, with as many places as connections may be counted. It keeps a copy of
    /// the rules.
    ///
    /// # Errors
    ///
    /// `BadPattern` and `RuleTwice` as `Mapper::new`, `NoMemory` where memory ran out.
    pub fn new(alloc: Global, limits: &Limits, rules: &[Rule]) -> Result<World, WorldFault>
        requires head_room { limits.now.max_head ≤ HEAD_ROOM }
        requires field_room { limits.now.max_fields ≤ FIELD_ROOM }
        requires rules { length rules.now ≤ MAX_RULES }
        ensures stands { IfOk result (λ world. StandsFor [] world) }
        ensures limits { IfOk result (λ world. world.terms.limits ≡ limits.now) }
        ensures rules { IfOk result (λ world. world.terms.rules ≡ rules.now) }
        ensures taken { OnOk result (IsTaken rules.now) }
        ensures fault { IfErr result (IsFaultOf rules.now) }
    {
        let rules = match Mapper::new(alloc, rules) {
            Ok(rules) => rules,
            Err(fault) => return Err(WorldFault::of(fault)),
        };
        let Ok(latch) = LatchBook::new(alloc, limits.max_connections) else {
            return Err(WorldFault::NoMemory);
        };
        let Ok(seats) = seats(alloc, limits) else {
            return Err(WorldFault::NoMemory);
        };
        Ok(World {
            terms: Terms {
                limits: *limits,
                rules,
            },
            latch,
            seats,
            book: BTreeMap::new(alloc),
        })
    }

    /// A step. Its reply is the definition's, for every list of steps that the connector stands for. What a read gives goes
    /// into a buffer as long as it asks.
    ///
    /// # Errors
    ///
    /// Where memory ran out. Then all is as before, but that there may be more room.
    pub fn step(&mut self, alloc: Global, step: &Step) -> Result<Replied, NoMemory>
        requires { CanTake step.now self.old }
        ensures takes { IfOk result (λ r. (w : List AnyStep) → StandsFor w self.old → TakesStep w step.now self.old (replied r) self.new) }
        ensures unchanged { OnErr result (IsAsBefore self.old self.new) }
        ensures stands { OnErr result ((w : List AnyStep) → StandsFor w self.old → StandsFor w self.new) }
        ensures memory { OnErr result (CanWantMemory step.now self.old) }
        ensures terms { self.new.terms ≡ self.old.terms }
    {
        if let Step::Admit(number) = step {
            let reply = self.admit(alloc, *number)?;
            return Ok(without_bytes(alloc, reply));
        }
        let number = conn_of(step);
        let place = match self.book.get(&number) {
            None => return Ok(without_bytes(alloc, Reply::NoConn)),
            Some(Admitted::Gone(_)) => return Ok(without_bytes(alloc, Reply::Closed)),
            Some(Admitted::Seated(place)) => *place,
        };
        let mut content = vec![in alloc; 0; content_asked(step)]?;
        let seat = &mut self.seats[place as usize];
        let reply = seat.take(step, &mut content, &self.terms)?;
        retire_if_gone(number, seat, &mut self.latch, &mut self.book);
        let got = got_in(reply, content);
        Ok(Replied { reply, got })
    }

    /// A connection asks to be admitted, of which there was none of this number.
    fn admit(&mut self, alloc: Global, number: u64) -> Result<Reply, NoMemory>
        requires new { CanTake (Step.Admit number) self.old }
        ensures takes { IfOk result (λ r. (w : List AnyStep) → StandsFor w self.old → TakesStep w (Step.Admit number) self.old (plain r) self.new) }
        ensures unchanged { OnErr result (IsAsBefore self.old self.new) }
        ensures stands { OnErr result ((w : List AnyStep) → StandsFor w self.old → StandsFor w self.new) }
        ensures memory { OnErr result (CanWantMemory (Step.Admit number) self.old) }
        ensures terms { self.new.terms ≡ self.old.terms }
    {
        let share = match self.latch.enter() {
            Enter::Full { count } => return Ok(Reply::Full(count)),
            Enter::Entered(share) => share,
        };
        let place = share.number();
        let seat = &mut self.seats[place as usize];
        let Ok(written) = book_seat(alloc, number, place, seat, &mut self.book) else {
            self.latch.leave(share);
            return Err(NoMemory);
        };
        seat.admit(share, number, written, &self.terms);
        retire_if_gone(number, seat, &mut self.latch, &mut self.book);
        Ok(Reply::Entered)
    }

    /// All that was written on the connection of this number, if one was admitted.
    pub fn out(&self, conn: u64) -> Option<&Bytes>
        ensures told { (w : List AnyStep) → StandsFor w self.now → option_copied result ≡ told_of output self.now w conn }
        ensures known { is_some result ≡ is_some (find_in conn self.now.book) }
    {
        match self.book.get(&conn)? {
            Admitted::Seated(place) => Some(self.seats[*place as usize].written()),
            Admitted::Gone(account) => Some(&account.written),
        }
    }

    /// The connection of this number, in numbers.
    fn tally(&self, conn: u64) -> Option<Tally>
        ensures { (w : List AnyStep) → StandsFor w self.now → result ≡ told_of tally_of self.now w conn }
    {
        match self.book.get(&conn)? {
            Admitted::Seated(place) => Some(self.seats[*place as usize].tally()),
            Admitted::Gone(account) => Some(account.tally()),
        }
    }

    /// How many bytes the socket of the connection took.
    pub fn took(&self, conn: u64) -> Option<u64>
        ensures { (w : List AnyStep) → StandsFor w self.now → result ≡ told_of took self.now w conn }
    {
        Some(self.tally(conn)?.took)
    }

    /// Why the connection closes, if there is a cause.
    pub fn cause(&self, conn: u64) -> Option<CloseCause>
        ensures { (w : List AnyStep) → StandsFor w self.now → result ≡ option_flatten (told_of cause_of self.now w conn) }
    {
        self.tally(conn)?.cause
    }

    /// How many requests of the connection were taken up: 0 where it was never admitted.
    pub fn requests(&self, conn: u64) -> u64
        ensures { (w : List AnyStep) → StandsFor w self.now → result ≡ unwrap_or (told_of request_count self.now w conn) 0 }
    {
        match self.tally(conn) {
            Some(tally) => tally.requests,
            None => 0,
        }
    }

    /// How many requests of the connection have ended: 0 where it was never admitted.
    pub fn ended(&self, conn: u64) -> u64
        ensures { (w : List AnyStep) → StandsFor w self.now → result ≡ unwrap_or (told_of ended_count self.now w conn) 0 }
    {
        match self.tally(conn) {
            Some(tally) => tally.ended,
            None => 0,
        }
    }

    /// How many connections are counted: those that were admitted and aren't gone.
    pub fn counted(&self) -> u64
        ensures count { (w : List AnyStep) → StandsFor w self.now → result ≡ counted self.now.terms.limits self.now.terms.rules (connections self.now.terms.limits self.now.terms.rules w) }
        ensures within { result ≤ self.now.terms.limits.max_connections }
    {
        self.latch.count()
    }

    /// The slot of this number. Whoever sits in it is he for whom the place of that number is held.
    pub fn slot(&self, i: u32) -> &Slot
        requires within { i < self.now.terms.limits.max_connections }
        ensures slot { slot_at i self.now ≡ Some result.now }
        ensures guest { (who : Who) → who_is result.now.tenant ≡ Some who → IsHeldFor who i self.now }
    {
        self.seats[i as usize].slot()
    }

    /// The number of the slot in which the connection sits: it does while a request of it is open.
    pub fn place(&self, conn: u64) -> Option<u32>
        ensures sits { IfSome result (λ i. SitsIn conn i self.now) }
        ensures within { IfSome result (λ i. i < self.now.terms.limits.max_connections) }
        ensures open { (w : List AnyStep) → StandsFor w self.now → is_some result ≡ unwrap_or (told_of is_open self.now w conn) false }
    {
        match self.book.get(&conn)? {
            Admitted::Seated(place) if self.seats[*place as usize].is_open() => Some(*place),
            _ => None,
        }
    }
}

/// As many places as connections may be counted.
fn seats(alloc: Global, limits: &Limits) -> Result<Vec<Seat>, NoMemory>
    requires head_room { limits.now.max_head ≤ HEAD_ROOM }
    requires field_room { limits.now.max_fields ≤ FIELD_ROOM }
    ensures vacant { IfOk result (λ seats. All (IsVacant limits.now) seats.items) }
    ensures unvisited { IfOk result (λ seats. tenancies seats.items ≡ 0) }
    ensures count { IfOk result (λ seats. length seats.items ≡ limits.now.max_connections) }
{
    let count = limits.max_connections as usize;
    let mut seats = Vec::with_capacity(alloc, count)?;
    while seats.len() < count {
        seats.push_reserved(Seat::new(alloc, limits)?);
    }
    Ok(seats)
}

/// Puts down that the place of this number is held for the connection, once what memory its opening may need was got:
/// also a vector with room for what is written on it.
fn book_seat(
    alloc: Global,
    number: u64,
    place: u32,
    seat: &mut Seat,
    book: &mut BTreeMap<u64, Admitted>,
) -> Result<Vec<u8>, NoMemory>
    requires kept { is_over_at seat.old.place.live.processor.stage ≡ false }
    ensures empty { IfOk result (λ written. written.items ≡ []) }
    ensures writing_room { IfOk result (λ written. OUT_CAPACITY ≤ vec_capacity written) }
    ensures room { OnOk result (HasRoom 0 seat.new.place) }
    ensures same { IsSameButRooms seat.old seat.new }
    ensures booked { OnOk result (PutsDown number (Seated place) book.old.entries book.new.entries) }
    ensures unbooked { OnErr result (book.new.entries ≡ book.old.entries) }
{
    seat.reserve()?;
    let written = Vec::with_capacity(alloc, 2 * OUT_CAPACITY)?;
    match book.insert(number, Admitted::Seated(place)) {
        Ok(_) => Ok(written),
        Err(_) => Err(NoMemory),
    }
}

/// The number of the connection whose entry the step is.
fn conn_of(step: &Step) -> u64
    requires { IsOwn step.now }
    ensures { IsOwnOf result step.now }
{
    match step {
        Step::On { conn, .. } | Step::Run(conn) | Step::Act { conn, .. } => *conn,
        Step::At(_) | Step::Admit(_) => unreachable!(),
    }
}

/// As much content as the step asks for.
fn content_asked(step: &Step) -> usize
    ensures { result ≡ content_asked step.now }
{
    match step {
        Step::Act {
            act: Act::Read(count),
            ..
        } => *count as usize,
        _ => 0,
    }
}

/// The bytes that a reply hands over of this content: the first of it, as many as it counts.
fn got_in(reply: Reply, mut content: Vec<u8>) -> Bytes
    ensures { result ≡ got_in reply content.items }
{
    let count = match reply {
        Reply::Got(count) => count as usize,
        _ => 0,
    };
    content.truncate(count);
    Bytes::of(content)
}

/// This reply, without bytes.
fn without_bytes(alloc: Global, reply: Reply) -> Replied
    ensures { replied result ≡ plain reply }
{
    let got = Bytes::of(Vec::new(alloc));
    Replied { reply, got }
}

/// Where the connection of this number is gone, its place is held for nobody any more, its share is left, and the book
/// keeps what it came to.
fn retire_if_gone(
    number: u64,
    seat: &mut Seat,
    latch: &mut LatchBook,
    book: &mut BTreeMap<u64, Admitted>,
)
    requires kept { is_over_at seat.old.place.live.processor.stage ≡ false }
    requires guest { is_some seat.old.place.who ≡ true }
    requires known { is_some (find_in number book.old.entries) ≡ true }
    ensures { Retires number seat.old latch.old book.old.entries seat.new latch.new book.new.entries }
{
    if !seat.is_gone() {
        return;
    }
    let (share, account) = seat.leave();
    latch.leave(share);
    match book.insert(number, Admitted::Gone(account)) {
        Ok(_) => {}
        Err(_) => unreachable!(),
    }
}
