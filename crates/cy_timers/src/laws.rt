//! Laws of due places: a function without parameters and without a body has the law as its contract.
ghost use Rattle.cy_timers.specs.Laws.{DueIsDue};

/// The due places are exactly those whose deadline is at most now, the least deadline first and none twice.
pub fn due_is_due()
    ensures { DueIsDue }
{}
