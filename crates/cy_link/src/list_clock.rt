// A clock in memory.
ghost use Rattle.std.specs.Prelude.{◌≡◌, ◌+◌, ◌-◌, ◌^◌, ◌<◌, ℕ, List, Option, min};

use crate::Clock;

/// A clock that gives the moments of a list, one a call, and then the last one again. It tells what it gave, up to the
/// greatest number of calls that it can count.
#[derive(Debug, Drop)]
pub struct ListClock {
    moments: Vec<u64>,
    calls: u64,
}

impl ListClock {
    ghost use Rattle.cy_link.specs.Clocks.{clock_moments, clock_calls};

    /// A clock that was not asked yet. An empty list gives 0.
    pub fn new(moments: Vec<u64>) -> Self
        ensures moments { clock_moments result ≡ moments.items }
        ensures calls { clock_calls result ≡ 0 }
    {
        ListClock { moments, calls: 0 }
    }
}

impl Clock for ListClock {
    ghost use Rattle.cy_link.specs.Moments.{Tells, moment_of};
    ghost use Rattle.cy_link.specs.Clocks.{clock_moments, clock_calls, clock_gave};

    ghost gave = { λ c. clock_gave c };

    fn now(&mut self) -> u64
        ensures tells { Tells (clock_gave self.old) (clock_gave self.new) result }
        ensures moment { result ≡ moment_of (clock_moments self.old) (clock_calls self.old) }
        ensures moments { clock_moments self.new ≡ clock_moments self.old }
        ensures calls { clock_calls self.new ≡ min (clock_calls self.old + 1) (2 ^ 64 - 1) }
    {
        let last = self.moments.len().saturating_sub(1);
        let at = (self.calls as usize).min(last);
        self.calls = self.calls.saturating_add(1);
        self.moments.get(at).copied().unwrap_or(0)
    }
}
