// A door in memory.
ghost use Rattle.std.specs.Prelude.{◌≡◌, ◌≤◌, ◌<◌, ◌+◌, ◌-◌, ◌^◌, ◌⊎◌, ◌==◌, ℕ, [], length, drop, cond, min, IsTrue, Some, vec_capacity};

use crate::calls::Calls;
use crate::{Accepted, Door, Link, Opened};
use std::alloc::Global;
use std::collections::VecDeque;

/// What an accept of a door in memory finds.
#[derive(Debug, Drop)]
pub enum Arrival<L> {
    /// A connection.
    Link(L),
    /// None yet.
    Pause,
}

/// A door that gives the links that it is made of, but for the calls that pause or fail. Opening a port fails too
/// where it gets no memory.
#[derive(Drop)]
pub struct MemDoor<L> {
    port: u16,
    opened: Vec<u16>,
    arrivals: VecDeque<Arrival<L>>,
    given: u64,
    calls: Calls,
    pauses: u64,
    ghost few: { given + length arrivals.items < 2 ^ 64 },
}

impl<L: Link> MemDoor<L> {
    ghost use Rattle.cy_link.specs.MemoryDoors.{door_port, door_arrivals, door_opened, door_room, door_given, door_failing, door_calls, door_faults, door_pauses};

    /// A door that gives these links, and then none. It opens each port as that port, but port 0 as this one. The calls
    /// of these numbers fail, of which the first is 0.
    pub fn new(alloc: Global, port: u16, arrivals: Vec<Arrival<L>>, failing: Vec<u64>) -> Self
        ensures port { door_port result ≡ port }
        ensures opened { door_opened result ≡ [] }
        ensures arrivals { door_arrivals result ≡ arrivals.items }
        ensures given { door_given result ≡ 0 }
        ensures failing { door_failing result ≡ failing.items }
        ensures calls { door_calls result ≡ 0 }
        ensures counts { (door_faults result ≡ 0) × (door_pauses result ≡ 0) }
    {
        MemDoor {
            port,
            opened: Vec::new(alloc),
            arrivals: VecDeque::from(arrivals),
            given: 0,
            calls: Calls::new(failing),
            pauses: 0,
        }
    }
}

impl<L: Link> Door for MemDoor<L> {
    ghost use Rattle.cy_link.specs.Memory.{is_listed};
    ghost use Rattle.cy_link.specs.MemoryDoors.{accept_of, door_port, door_arrivals, door_opened, door_room, door_given, door_failing, door_calls, door_faults, door_pauses};
    ghost use Rattle.cy_link.specs.Doors.{OpenMoves, OpenCounts};
    ghost use Rattle.cy_link.specs.Accepts.{AcceptMoves, AcceptCounts, AcceptPauses};

    type L = L;

    ghost ports = { λ d. Some (door_opened d) };

    ghost given = { λ d. Some (door_given d) };

    ghost faults = { λ d. door_faults d };

    ghost pauses = { λ d. door_pauses d };

    // A call of a listed number fails. Any other opens the port, and fails only for want of memory.
    fn open(&mut self, port: u16) -> Opened
        ensures moves { OpenMoves (Some (door_opened self.old)) (Some (door_opened self.new)) result }
        ensures given { Some (door_given self.new) ≡ Some (door_given self.old) }
        ensures later { door_faults self.old ≤ door_faults self.new }
        ensures cause { OpenCounts (door_faults self.old) (door_faults self.new) result }
        ensures pauses { door_pauses self.new ≡ door_pauses self.old }
        ensures listed { IsTrue (is_listed (door_failing self.old) (door_calls self.old)) → result ≡ Opened.Failed }
        ensures failed { result ≡ Opened.Failed → IsTrue (is_listed (door_failing self.old) (door_calls self.old)) ⊎ (door_room self.old ≤ length (door_opened self.old)) }
        ensures port { (p : ℕ) → result ≡ Opened.Port p → p ≡ cond (port == 0) (door_port self.old) port }
        ensures arrivals { door_arrivals self.new ≡ door_arrivals self.old }
        ensures same { (door_port self.new ≡ door_port self.old) × (door_failing self.new ≡ door_failing self.old) }
        ensures calls { door_calls self.new ≡ min (door_calls self.old + 1) (2 ^ 64 - 1) }
    {
        if self.calls.next_fails() {
            self.calls.add_fault();
            return Opened::Failed;
        }
        match self.opened.reserve(1) {
            Ok(()) => {
                let port = if port == 0 { self.port } else { port };
                self.opened.push_reserved(port);
                Opened::Port(port)
            }
            Err(_) => {
                self.calls.add_fault();
                Opened::Failed
            }
        }
    }

    // A call of a listed number fails, and leaves the arrivals. Any other takes the next one, or none.
    fn accept(&mut self) -> Accepted<L>
        ensures moves { AcceptMoves (Some (door_given self.old)) (Some (door_given self.new)) result }
        ensures ports { Some (door_opened self.new) ≡ Some (door_opened self.old) }
        ensures later { (door_faults self.old ≤ door_faults self.new) × (door_pauses self.old ≤ door_pauses self.new) }
        ensures cause { AcceptCounts (door_faults self.old) (door_faults self.new) result }
        ensures pauses { AcceptPauses (door_pauses self.old) (door_pauses self.new) result }
        ensures answer { result ≡ accept_of (is_listed (door_failing self.old) (door_calls self.old)) (door_arrivals self.old) }
        ensures arrivals { door_arrivals self.new ≡ cond (is_listed (door_failing self.old) (door_calls self.old)) (door_arrivals self.old) (drop 1 (door_arrivals self.old)) }
        ensures same { (door_port self.new ≡ door_port self.old) × (door_failing self.new ≡ door_failing self.old) }
        ensures calls { door_calls self.new ≡ min (door_calls self.old + 1) (2 ^ 64 - 1) }
    {
        if self.calls.next_fails() {
            self.calls.add_fault();
            return Accepted::Failed;
        }
        match self.arrivals.pop_front() {
            Some(Arrival::Link(link)) => {
                self.given += 1;
                Accepted::Link(link)
            }
            Some(Arrival::Pause) | None => {
                self.pauses = self.pauses.saturating_add(1);
                Accepted::NotYet
            }
        }
    }

    fn faults(&self) -> u64 {
        self.calls.faults()
    }

    fn pauses(&self) -> u64 {
        self.pauses
    }
}
