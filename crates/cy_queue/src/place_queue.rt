//! The queue that threads share.
ghost use Rattle.std.specs.Prelude.{◌≡◌, ◌<◌, IfOk};

use crate::{NoMemory, Places, Put};
use std::alloc::Global;
use std::sync::{Condvar, Mutex, Wait};

/// A queue of places behind a lock, with a bell for those that wait. What a call did is not known once the lock is
/// free: the contracts are those of `Places`, whose answers these calls hand on.
#[derive(Drop)]
pub struct PlaceQueue {
    places: u32,
    line: Mutex<Places>,
    bell: Condvar,
}

impl PlaceQueue {
    /// An open queue for so many places, of which the first is 0. This alone takes memory.
    pub fn new(alloc: Global, places: u32) -> Result<PlaceQueue, NoMemory>
        ensures { IfOk result (λ q. q.places ≡ places) }
    {
        let line = Places::new(alloc, places)?;
        Ok(PlaceQueue {
            places,
            line: Mutex::new(line),
            bell: Condvar::new(),
        })
    }

    /// As `Places::put`. It wakes one that waits, after the lock is free.
    pub fn put<H: Wait>(&self, rt: &H, place: u32) -> Put
        requires { place < self.now.places }
    {
        let answer = put_under_lock(&mut self.line.lock(rt), place);
        if answer == Put::Put {
            self.bell.notify_one();
        }
        answer
    }

    /// As `Places::pop`: it waits for the lock, and for no place.
    pub fn pop<H: Wait>(&self, rt: &H) -> Option<u32> {
        self.line.lock(rt).pop()
    }

    /// Takes the first place, and waits where there is none, until one comes or the queue is closed.
    pub fn take<H: Wait>(&self, rt: &H) -> Option<u32> {
        let mut line = self.bell.wait_while(rt, self.line.lock(rt), |line| {
            line.is_empty() && !line.is_closed()
        });
        line.pop()
    }

    /// As `Places::close`. It wakes all that wait.
    pub fn close<H: Wait>(&self, rt: &H) {
        self.line.lock(rt).close();
        self.bell.notify_all();
    }
}

/// Puts a place into the queue that lies behind the lock. That queue has as many places as the one around it says, but
/// behind a lock only a test can tell.
fn put_under_lock(line: &mut Places, place: u32) -> Put {
    if place < line.places() {
        line.put(place)
    } else {
        Put::Closed
    }
}
