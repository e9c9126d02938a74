//! The queue itself, as one thread has it.
ghost use Rattle.std.specs.Prelude.{◌≡◌, ◌<◌, ◌↔◌, [], false, true, IfOk, drop, slice_get};

use std::alloc::{AllocError, Global};
use std::collections::VecDeque;
use std::marker::Model;

/// Memory ran out.
pub type NoMemory = AllocError;

/// What putting a place answers.
#[derive(Clone, Copy, Debug, PartialEq, Eq)]
pub enum Put {
    /// It stands in the queue now.
    Put,
    /// It stood there already.
    AlreadyThere,
    /// The queue is closed.
    Closed,
}

/// A queue of places, each at most once. Contracts see how many places there are, which of them wait, in order, and
/// whether the queue is closed.
#[derive(Debug, Drop)]
pub struct Places {
    is_waiting: Vec<bool>,
    waiting: VecDeque<u32>,
    closed: bool,
}

impl Model for Places {
    ghost use Rattle.std.specs.Prelude.{length};
    ghost use Rattle.std.specs.VecDeque.{deque_capacity};
    ghost use Rattle.cy_queue.specs.Queues.{Queue};
    ghost use Rattle.cy_queue.specs.Marks.{AreMarked};

    ghost Value = { Queue };

    ghost view = { λ p. record { places = length p.is_waiting.items; waiting = p.waiting.items; closed = p.closed } };

    ghost invariant = { λ p. AreMarked p.is_waiting.items p.waiting.items (deque_capacity p.waiting) };
}

impl Places {
    ghost use Rattle.cy_queue.specs.Queues.{empty, put_answer, after_put, after_pop, after_close};

    /// An open queue for so many places, of which the first is 0, with none in it. This alone takes memory.
    pub fn new(alloc: Global, places: u32) -> Result<Places, NoMemory>
        ensures { IfOk result (λ p. p ≡ empty places) }
    {
        let is_waiting = vec![in alloc; false; places as usize]?;
        let waiting = VecDeque::with_capacity(alloc, places as usize)?;
        Ok(Places {
            is_waiting,
            waiting,
            closed: false,
        })
    }

    /// How many places there are.
    pub fn places(&self) -> u32
        ensures { result ≡ self.now.places }
    {
        self.is_waiting.len() as u32
    }

    /// Puts a place at the end, unless the queue is closed or the place stands in it.
    pub fn put(&mut self, place: u32) -> Put
        requires { place < self.old.places }
        ensures answer { result ≡ put_answer self.old place }
        ensures after { self.new ≡ after_put self.old place }
    {
        if self.closed {
            return Put::Closed;
        }
        if self.is_waiting[place as usize] {
            return Put::AlreadyThere;
        }
        self.is_waiting[place as usize] = true;
        self.waiting.push_back_reserved(place);
        Put::Put
    }

    /// Takes the first place out, also of a closed queue. `None` exactly where none waits.
    pub fn pop(&mut self) -> Option<u32>
        ensures first { result ≡ slice_get self.old.waiting 0 }
        ensures after { self.new ≡ after_pop self.old }
    {
        let place = self.waiting.pop_front()?;
        self.is_waiting[place as usize] = false;
        Some(place)
    }

    /// Whether none waits.
    pub fn is_empty(&self) -> bool
        ensures { (result ≡ true) ↔ (self.now.waiting ≡ []) }
    {
        self.waiting.is_empty()
    }

    pub fn is_closed(&self) -> bool
        ensures { result ≡ self.now.closed }
    {
        self.closed
    }

    /// From now on no place enters. Those that wait can still be taken out.
    pub fn close(&mut self)
        ensures { self.new ≡ after_close self.old }
    {
        self.closed = true;
    }
}
