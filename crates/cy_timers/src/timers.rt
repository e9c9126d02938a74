//! Deadlines, in a queue and by place.
ghost use Rattle.std.specs.Prelude.{◌≡◌, ◌≤◌, ◌<◌, ◌++◌, Some, None, IfOk, length, min, drop, replicate, slice_index_or, slice_set, take};
ghost use Rattle.cy_timers.specs.Order.{AreInOrder, IsRank, moved};

use std::alloc::{AllocError, Global};
use std::marker::Model;

/// Memory ran out.
pub type NoMemory = AllocError;

/// A place with its deadline.
#[derive(Clone, Copy, Debug, PartialEq, Eq)]
struct Timer {
    deadline: u64,
    place: u32,
}

impl Timer {
    ghost use Rattle.cy_timers.specs.Due.{is_before};

    /// By deadline and then place.
    fn is_before(&self, other: &Timer) -> bool
        ensures { result ≡ is_before self.now other.now }
    {
        self.deadline < other.deadline
            || self.deadline == other.deadline && self.place < other.place
    }
}

/// The deadlines of places. Contracts see, for each place, its deadline where it has one.
#[derive(Debug, Drop)]
pub struct Timers {
    deadlines: Vec<Option<u64>>,
    queue: Vec<Timer>,
}

impl Model for Timers {
    ghost use Rattle.std.specs.Prelude.{ℕ, List, Option, vec_capacity};
    ghost use Rattle.cy_timers.specs.Queues.{IsQueue};

    ghost Value = { List (Option ℕ) };

    ghost view = { λ t. t.deadlines.items };

    ghost invariant = { λ t. IsQueue t.deadlines.items t.queue.items (vec_capacity t.queue) };
}

impl Timers {
    ghost use Rattle.cy_timers.specs.Due.{due};

    /// No deadline yet, for so many places, of which the first is 0. This alone takes memory.
    pub fn new(alloc: Global, places: u32) -> Result<Timers, NoMemory>
        ensures { IfOk result (λ timers. timers ≡ replicate places None) }
    {
        let deadlines = vec![in alloc; None; places as usize]?;
        let queue = Vec::with_capacity(alloc, places as usize)?;
        Ok(Timers { deadlines, queue })
    }

    /// Sets the deadline of a place, in place of one that it had.
    pub fn set(&mut self, place: u32, deadline: u64)
        requires { place < length self.old }
        ensures deadlines { self.new ≡ slice_set self.old place (Some deadline) }
        ensures places { length self.new ≡ length self.old }
    {
        let timer = Timer { deadline, place };
        match self.deadlines[place as usize] {
            Some(before) => self.change(before, timer),
            None => self.start(timer),
        }
    }

    /// Sets the deadline of a place that has none.
    fn start(&mut self, timer: Timer)
        requires below { timer.place < length self.old }
        requires idle { slice_index_or self.old timer.place None ≡ None }
        ensures deadlines { self.new ≡ slice_set self.old timer.place (Some timer.deadline) }
    {
        let rank = rank(&self.queue, &timer);
        match self.queue.insert(rank, timer) {
            Ok(()) => {}
            Err(_) => unreachable!(),
        }
        self.deadlines[timer.place as usize] = Some(timer.deadline);
    }

    /// Changes the deadline that a place has. In the queue only the timers between the two are moved.
    fn change(&mut self, before: u64, timer: Timer)
        requires below { timer.place < length self.old }
        requires held { slice_index_or self.old timer.place None ≡ Some before }
        ensures deadlines { self.new ≡ slice_set self.old timer.place (Some timer.deadline) }
    {
        let place = timer.place;
        let from = rank(
            &self.queue,
            &Timer {
                deadline: before,
                place,
            },
        );
        let to = rank(&self.queue, &timer);
        move_timer(&mut self.queue, from, to, timer);
        self.deadlines[place as usize] = Some(timer.deadline);
    }

    /// Takes away the deadline of a place, if it has one.
    pub fn cancel(&mut self, place: u32)
        requires { place < length self.old }
        ensures deadlines { self.new ≡ slice_set self.old place None }
        ensures places { length self.new ≡ length self.old }
    {
        let Some(deadline) = self.deadlines[place as usize] else {
            return;
        };
        let rank = rank(&self.queue, &Timer { deadline, place });
        let _timer = self.queue.remove(rank);
        self.deadlines[place as usize] = None;
    }

    /// Writes the places whose deadline is at most `now`, by deadline and then place, as many as fit, and answers how
    /// many they are. It costs what it gives.
    pub fn due(&self, now: u64, into: &mut [u32]) -> usize
        ensures count { result ≡ min (length into.old) (length (due self.now now)) }
        ensures places { into.new ≡ take result (due self.now now) ++ drop result into.old }
    {
        for (i, place) in into.iter_mut().enumerate() {
            let Some(timer) = self.queue.get(i) else {
                return i;
            };
            if timer.deadline > now {
                return i;
            }
            *place = timer.place;
        }
        into.len()
    }
}

/// How many timers of the queue come before this one.
fn rank(queue: &[Timer], timer: &Timer) -> usize
    requires { AreInOrder queue.now }
    ensures { IsRank timer.now queue.now result }
{
    queue.partition_point(|other| other.is_before(timer))
}

/// Moves the timer that stands at `from` to the place of the rank `to`, with another deadline.
fn move_timer(queue: &mut [Timer], from: usize, to: usize, timer: Timer)
    requires from { from < length queue.old }
    requires to { to ≤ length queue.old }
    ensures { queue.new ≡ moved queue.old from to timer }
{
    if from < to {
        queue[from..to].rotate_left(1);
        queue[to - 1] = timer;
    } else {
        queue[to..from + 1].rotate_right(1);
        queue[to] = timer;
    }
}
