//! Deadlines.
ghost use Rattle.std.specs.Prelude.{◌≡◌, IfOk, length};

use cy_timers::Timers;
use std::alloc::{AllocError, Global};

/// As many places as a connector has at most.
const PLACES: u32 = 8192;

/// As many places as are taken at once.
const TAKEN: usize = 64;

/// A multiplier that scatters the turns over all places and deadlines (Knuth, 6.4).
const SCATTER: u64 = 0x9e37_79b9_7f4a_7c15;

/// All places with a deadline.
fn all_set(alloc: Global) -> Result<Timers, AllocError>
    ensures { IfOk result (λ timers. length timers ≡ PLACES) }
{
    let mut timers = Timers::new(alloc, PLACES)?;
    for place in 0..PLACES {
        timers.set(place, u64::from(place));
    }
    Ok(timers)
}

/// Sets so many deadlines of 8,192 places, of scattered places to scattered moments.
pub fn timers_set(alloc: Global, times: u64) -> Result<u64, AllocError> {
    let mut timers = all_set(alloc)?;
    for turn in 0..times {
        let scattered = turn.wrapping_mul(SCATTER);
        timers.set((scattered % u64::from(PLACES)) as u32, scattered >> 32);
    }
    Ok(first_due(&timers))
}

/// Sets so many deadlines of 8,192 places, each place in turn to a later moment than all others.
pub fn timers_set_later(alloc: Global, times: u64) -> Result<u64, AllocError> {
    let mut timers = all_set(alloc)?;
    for turn in 0..times {
        timers.set(
            (turn % u64::from(PLACES)) as u32,
            turn.saturating_add(u64::from(PLACES)),
        );
    }
    Ok(first_due(&timers))
}

/// Asks so often for the due ones of 8,192 places, of which 64 fit.
pub fn timers_due(alloc: Global, times: u64) -> Result<u64, AllocError> {
    let timers = all_set(alloc)?;
    let mut into = [0u32; TAKEN];
    let mut sum = 0u64;
    for turn in 0..times {
        let count = timers.due(8191 + turn % 2, &mut into);
        sum = sum.wrapping_add(count as u64 + u64::from(into[TAKEN - 1]));
    }
    Ok(sum)
}

/// The sum of the first due places.
fn first_due(timers: &Timers) -> u64 {
    let mut into = [0u32; TAKEN];
    let count = timers.due(u64::MAX, &mut into);
    let mut sum = count as u64;
    for place in &into {
        sum = sum.wrapping_add(u64::from(*place));
    }
    sum
}
