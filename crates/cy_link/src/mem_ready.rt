// Readiness in memory.
ghost use Rattle.std.specs.Prelude.{◌≡◌, ◌≤◌, ◌<◌, ◌+◌, ◌-◌, ◌%◌, ◌^◌, ◌↔◌, ℕ, true, false, length, max, min, cond, IsTrue, Some, slice_get};

use crate::calls::Calls;
use crate::{Link, Polled, Readiness, Ready};

/// A readiness that tells of every place up to the greatest one registered, in turn and for both kinds, but for the
/// calls that fail. It never waits.
#[derive(Drop)]
pub struct MemReady {
    places: u64,
    next: u64,
    registers: Calls,
    polls: Calls,
    faults: u64,
    ghost few: { places ≤ 2 ^ 32 },
    ghost turn: { next ≤ places },
}

impl MemReady {
    ghost use Rattle.cy_link.specs.MemoryPolls.{ready_places, ready_next, ready_failing_registers, ready_registers, ready_failing_polls, ready_polls, ready_faults};

    /// Nothing is registered yet. The calls of `register` and of `poll` of these numbers fail, of which the first is 0
    /// for each.
    pub fn new(failing_registers: Vec<u64>, failing_polls: Vec<u64>) -> Self
        ensures places { ready_places result ≡ 0 }
        ensures next { ready_next result ≡ 0 }
        ensures failing_registers { ready_failing_registers result ≡ failing_registers.items }
        ensures failing_polls { ready_failing_polls result ≡ failing_polls.items }
        ensures calls { (ready_registers result ≡ 0) × (ready_polls result ≡ 0) }
        ensures faults { ready_faults result ≡ 0 }
    {
        MemReady {
            places: 0,
            next: 0,
            registers: Calls::new(failing_registers),
            polls: Calls::new(failing_polls),
            faults: 0,
        }
    }
}

impl<L: Link> Readiness<L> for MemReady {
    ghost use Rattle.cy_link.specs.Memory.{is_listed};
    ghost use Rattle.cy_link.specs.MemoryPolls.{ready_places, ready_next, ready_failing_registers, ready_registers, ready_failing_polls, ready_polls, ready_faults};
    ghost use Rattle.cy_link.specs.Polls.{RegisterCounts, IsPollOf, PollCounts};

    ghost faults = { λ r. ready_faults r };

    // A call of a listed number answers false. Any other makes the place one of those told of.
    fn register(&mut self, link: &mut L, place: u32) -> bool
        ensures gave { L.gave link.new ≡ L.gave link.old }
        ensures left { L.left link.new ≡ L.left link.old }
        ensures took { L.took link.new ≡ L.took link.old }
        ensures in_faults { L.in_faults link.new ≡ L.in_faults link.old }
        ensures out_faults { L.out_faults link.new ≡ L.out_faults link.old }
        ensures pauses { L.pauses link.new ≡ L.pauses link.old }
        ensures later { ready_faults self.old ≤ ready_faults self.new }
        ensures cause { RegisterCounts (ready_faults self.old) (ready_faults self.new) result }
        ensures listed { (result ≡ false) ↔ IsTrue (is_listed (ready_failing_registers self.old) (ready_registers self.old)) }
        ensures places { result ≡ true → ready_places self.new ≡ max (ready_places self.old) (place + 1) }
        ensures same { (ready_failing_registers self.new ≡ ready_failing_registers self.old) × (ready_failing_polls self.new ≡ ready_failing_polls self.old) }
        ensures calls { (ready_registers self.new ≡ min (ready_registers self.old + 1) (2 ^ 64 - 1)) × (ready_polls self.new ≡ ready_polls self.old) }
    {
        if self.registers.next_fails() {
            self.faults = self.faults.saturating_add(1);
            return false;
        }
        self.places = self.places.max(u64::from(place) + 1);
        true
    }

    // A call of a listed number fails. Any other tells of the places from the next one on, each at most once.
    fn poll(&mut self, limit: u64, into: &mut [Ready]) -> Polled
        ensures within { IsPollOf (length into.old) result }
        ensures later { ready_faults self.old ≤ ready_faults self.new }
        ensures cause { PollCounts (ready_faults self.old) (ready_faults self.new) result }
        ensures answer { result ≡ cond (is_listed (ready_failing_polls self.old) (ready_polls self.old)) Polled.Failed (Polled.Events (min (length into.old) (ready_places self.old))) }
        ensures events { (i n : ℕ) → result ≡ Polled.Events n → i < n → slice_get into.new i ≡ Some (record { place = (ready_next self.old + i) % ready_places self.old; read = true; write = true }) }
        ensures next { (n : ℕ) → result ≡ Polled.Events n → 0 < n → ready_next self.new ≡ (ready_next self.old + n) % ready_places self.old }
        ensures same { (ready_places self.new ≡ ready_places self.old) × (ready_failing_registers self.new ≡ ready_failing_registers self.old) × (ready_failing_polls self.new ≡ ready_failing_polls self.old) }
        ensures calls { (ready_polls self.new ≡ min (ready_polls self.old + 1) (2 ^ 64 - 1)) × (ready_registers self.new ≡ ready_registers self.old) }
    {
        if self.polls.next_fails() {
            self.faults = self.faults.saturating_add(1);
            return Polled::Failed;
        }
        let count = into.len().min(self.places as usize);
        tell_of(self.next, self.places, &mut into[..count]);
        if 0 < count {
            self.next = (self.next + count as u64) % self.places;
        }
        Polled::Events(count)
    }

    fn faults(&self) -> u64 {
        self.faults
    }
}

/// Fills the slice with events of so many places, from the first one on.
fn tell_of(first: u64, places: u64, into: &mut [Ready])
    requires { (0 < length into.old → 0 < places) × (places ≤ 2 ^ 32) × (first ≤ 2 ^ 32) × (length into.old ≤ 2 ^ 32) }
    ensures { (i : ℕ) → i < length into.new → slice_get into.new i ≡ Some (record { place = (first + i) % places; read = true; write = true }) }
{
    for i in 0..into.len() {
        into[i] = Ready {
            place: ((first + i as u64) % places) as u32,
            read: true,
            write: true,
        };
    }
}
