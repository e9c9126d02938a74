//! Laws of the rule: a function without parameters and without a body has the law as its contract.
ghost use Rattle.cy_executor.specs.Laws.{ThreadsStartBelowTheirBounds};

/// A thread is started only below `core` or below `max` threads, and always below `core`. With `core` reached none is
/// started while there are no more tasks than threads, and with more one is started while there are fewer than `max`.
pub fn threads_start_below_their_bounds()
    ensures { ThreadsStartBelowTheirBounds }
{}
