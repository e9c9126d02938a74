// Threads of a scope, and a closure that starts them.
ghost use Rattle.std.specs.Prelude.{◌≡◌, ◌≤◌, ◌+◌, ◌-◌, ◌^◌, ℕ, min, IsSome};

use crate::{Spawner, Task};
use std::alloc::Global;
use std::marker::PhantomData;
use std::sync::{Arc, Mutex, Wait};
use std::thread::Scope;

/// Starts a thread of the scope that does this work, or hands the work back where none can be made.
pub fn start_in<'s, E, H: Wait + Sync, W: Task + Send + Drop + 's>(
    rt: &'s H,
    alloc: Global,
    scope: &Scope<'s, E>,
    work: W,
) -> Option<W> {
    let shared = match Arc::new(alloc, Mutex::new(Some(work))) {
        Ok(shared) => shared,
        Err(refused) => return refused.value.into_inner(),
    };
    let Ok(theirs) = Arc::try_clone(&shared) else {
        return take_back(rt, &shared);
    };
    match scope.spawn(move || run_taken(rt, &theirs)) {
        Ok(_) => None,
        Err(_) => take_back(rt, &shared),
    }
}

/// Does the work that lies there, if it still does.
fn run_taken<H: Wait, W: Task + Drop>(rt: &H, shared: &Arc<Mutex<Option<W>>, Global>) {
    if let Some(work) = take_back(rt, shared) {
        work.run();
    }
}

/// Takes the work out.
fn take_back<H: Wait, W: Task + Drop>(rt: &H, shared: &Arc<Mutex<Option<W>>, Global>) -> Option<W> {
    shared.lock(rt).take()
}

/// A spawner that starts work by a closure, as one that calls `start_in` where a scope is opened.
#[derive(Drop)]
pub struct ScopeSpawner<W, F> {
    start: F,
    faults: u64,
    of: PhantomData<W>,
}

impl<W: Task, F: Fn(W) -> Option<W>> ScopeSpawner<W, F> {
    /// The closure hands the work back where it could not start it.
    pub fn new(start: F) -> Self
        ensures start { result.start ≡ start }
        ensures faults { result.faults ≡ 0 }
    {
        ScopeSpawner {
            start,
            faults: 0,
            of: PhantomData,
        }
    }
}

impl<W: Task, F: Fn(W) -> Option<W>> Spawner<W> for ScopeSpawner<W, F> {
    ghost use Rattle.cy_link.specs.Starts.{StartCounts};

    ghost can_start = { λ s. F.IsAlwaysCallable s.start };

    ghost faults = { λ s. s.faults };

    fn start(&mut self, work: W) -> Option<W> {
        let back = (self.start)(work);
        if back.is_some() {
            self.faults = self.faults.saturating_add(1);
        }
        back
    }

    fn faults(&self) -> u64 {
        self.faults
    }
}
