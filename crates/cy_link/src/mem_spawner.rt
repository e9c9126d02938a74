// A spawner some of whose starts fail.
ghost use Rattle.std.specs.Prelude.{◌≡◌, ◌+◌, ◌-◌, ◌≤◌, ◌^◌, ℕ, min, IsTrue, IsSome};
ghost use Rattle.cy_link.specs.Memory.{is_listed};

use crate::calls::Calls;
use crate::{Spawner, Task};

/// A spawner over another, as one over a scope of threads, that hands the work of some starts back itself.
#[derive(Drop)]
pub struct MemSpawner<P> {
    inner: P,
    calls: Calls,
    faults: u64,
}

impl<P> MemSpawner<P> {
    /// The starts of these numbers, of which the first is 0, fail. The others are those of the spawner below.
    pub fn new(inner: P, failing: Vec<u64>) -> Self
        ensures inner { result.inner ≡ inner }
        ensures failing { result.calls.failing.items ≡ failing.items }
        ensures calls { result.calls.made ≡ 0 }
        ensures faults { result.faults ≡ 0 }
    {
        MemSpawner {
            inner,
            calls: Calls::new(failing),
            faults: 0,
        }
    }
}

impl<W: Task, P: Spawner<W>> Spawner<W> for MemSpawner<P> {
    ghost use Rattle.cy_link.specs.Starts.{StartCounts};

    ghost can_start = { λ s. P.can_start s.inner };

    ghost faults = { λ s. s.faults };

    // A start of a listed number hands its work back. Any other is that of the spawner below.
    fn start(&mut self, work: W) -> Option<W>
        requires { P.can_start self.old.inner }
        ensures again { P.can_start self.new.inner }
        ensures later { self.old.faults ≤ self.new.faults }
        ensures cause { StartCounts self.old.faults self.new.faults result }
        ensures listed { IsTrue (is_listed self.old.calls.failing.items self.old.calls.made) → IsSome result }
        ensures failing { self.new.calls.failing.items ≡ self.old.calls.failing.items }
        ensures calls { self.new.calls.made ≡ min (self.old.calls.made + 1) (2 ^ 64 - 1) }
    {
        let back = if self.calls.next_fails() {
            Some(work)
        } else {
            self.inner.start(work)
        };
        if back.is_some() {
            self.faults = self.faults.saturating_add(1);
        }
        back
    }

    fn faults(&self) -> u64 {
        self.faults
    }
}
