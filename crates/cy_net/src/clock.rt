//! The system's clock.
ghost use Rattle.std.specs.Prelude.{◌≡◌, []};

use cy_link::Clock;
use std::time::Clock as SystemClock;

/// The system's clock, in milliseconds since 1970. Where it can't be read, it tells the moment that it told last, at
/// first 0.
#[derive(Debug, Drop)]
pub struct SysClock<C> {
    system: C,
    last: u64,
}

impl<C: SystemClock> SysClock<C> {
    /// The clock of this runtime.
    pub fn new(system: C) -> Self
        ensures { result.last ≡ 0 }
    {
        SysClock { system, last: 0 }
    }
}

impl<C: SystemClock> Clock for SysClock<C> {
    ghost use Rattle.std.specs.Prelude.{None};

    ghost gave = { λ _. None };

    fn now(&mut self) -> u64 {
        if let Ok(since_1970) = self.system.since_1970() {
            self.last = u64::try_from(since_1970.as_millis()).unwrap_or(u64::MAX);
        }
        self.last
    }
}
