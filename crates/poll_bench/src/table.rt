//! The table of interests, with as many places as a connector has at most.
ghost use Rattle.std.specs.Prelude.{◌≡◌, ◌≤◌, length};

use anyhow::Result;
use cy_link::Ready;
use cy_poll::Interests;
use std::alloc::{AllocError, Global};
use std::sync::{Mutex, Wait};
use std::thread;
use std::thread::Threads;

/// As many places as a connector has at most.
pub const PLACES: u32 = 8192;

/// As many events as are sorted at once.
const EVENTS: usize = 64;

/// A multiplier that scatters the turns over all places (Knuth, 6.4).
const SCATTER: u64 = 0x9e37_79b9_7f4a_7c15;

/// A table with a note for each place.
#[derive(Drop)]
pub struct Table {
    interests: Interests,
    ghost sized: { length interests ≡ 8192 },
}

impl Table {
    pub fn new(alloc: Global) -> Result<Table, AllocError> {
        let interests = Interests::new(alloc, PLACES)?;
        Ok(Table { interests })
    }

    /// The place waits for these kinds. A place that isn't there never does.
    pub fn want(&mut self, place: u32, read: bool, write: bool) -> bool {
        place < PLACES && self.interests.want(place, read, write)
    }

    /// The place waits for nothing, and nothing is kept for it.
    pub fn forget(&mut self, place: u32) {
        if place < PLACES {
            self.interests.forget(place);
        }
    }

    /// Writes the places that wait for one of these events to the front of `into`.
    pub fn sort_events(&mut self, events: &[Ready], into: &mut [u32]) -> usize
        requires { length into.old ≡ length events.now }
        ensures { result ≤ length into.new }
    {
        self.interests.sort_events(events, into)
    }
}

/// The place of a turn.
fn place_of(turn: u64) -> u32 {
    (turn.wrapping_mul(SCATTER) >> 32) as u32 % PLACES
}

/// Asks so often, for scattered places of which nothing is kept.
fn ask(table: &mut Table, times: u64) -> u64 {
    let mut done = 0u64;
    for turn in 0..times {
        if !table.want(place_of(turn), true, false) {
            done = done.saturating_add(1);
        }
    }
    done
}

pub fn want(alloc: Global, times: u64) -> Result<u64> {
    let mut table = Table::new(alloc)?;
    Ok(ask(&mut table, times))
}

/// An event for each of 64 places.
fn events_of(turn: u64) -> [Ready; EVENTS] {
    let first = place_of(turn);
    let mut events = [Ready {
        place: first,
        read: true,
        write: false,
    }; EVENTS];
    for (i, event) in events.iter_mut().enumerate() {
        event.place = (first.wrapping_add(i as u32 * 127)) % PLACES;
    }
    events
}

/// 64 places ask, and then 64 events give them. So often, in events.
pub fn sort_given(alloc: Global, times: u64) -> Result<u64> {
    let mut table = Table::new(alloc)?;
    let mut done = 0u64;
    for turn in 0..times / EVENTS as u64 {
        let events = events_of(turn);
        for event in &events {
            table.want(event.place, true, false);
        }
        let mut into = [0; EVENTS];
        let count = table.sort_events(&events, &mut into);
        done = done.saturating_add(count as u64);
    }
    Ok(done)
}

/// 64 events for which nobody waits. So often, in events.
pub fn sort_kept(alloc: Global, times: u64) -> Result<u64> {
    let mut table = Table::new(alloc)?;
    let events = events_of(1);
    let mut done = 0u64;
    for _ in 0..times / EVENTS as u64 {
        let mut into = [0; EVENTS];
        let count = table.sort_events(&events, &mut into);
        done = done.saturating_add((EVENTS - count) as u64);
    }
    Ok(done)
}

/// Asks so often under a lock.
fn ask_locked<R: Wait>(rt: &R, table: &Mutex<Table>, times: u64) -> u64 {
    let mut done = 0u64;
    for turn in 0..times {
        if !table.lock(rt).want(place_of(turn), true, false) {
            done = done.saturating_add(1);
        }
    }
    done
}

/// The same by two threads.
fn by_two<R: Threads + Wait + Sync>(rt: &R, table: &Mutex<Table>, times: u64) -> u64 {
    let (one, two) = thread::join(
        rt,
        || ask_locked(rt, table, times),
        || ask_locked(rt, table, times),
    );
    one.saturating_add(two)
}

pub fn by_1<R: Threads + Wait + Sync>(rt: &R, times: u64, alloc: Global) -> Result<u64> {
    let table = Mutex::new(Table::new(alloc)?);
    Ok(ask_locked(rt, &table, times))
}

pub fn by_2<R: Threads + Wait + Sync>(rt: &R, times: u64, alloc: Global) -> Result<u64> {
    let table = Mutex::new(Table::new(alloc)?);
    Ok(by_two(rt, &table, times / 2))
}

pub fn by_4<R: Threads + Wait + Sync>(rt: &R, times: u64, alloc: Global) -> Result<u64> {
    let table = Mutex::new(Table::new(alloc)?);
    let shared = &table;
    let (one, two) = thread::join(
        rt,
        || by_two(rt, shared, times / 4),
        || by_two(rt, shared, times / 4),
    );
    Ok(one.saturating_add(two))
}
