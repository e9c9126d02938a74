//! Laws of the queue: a function without parameters and without a body has the law as its contract.
ghost use Rattle.cy_queue.specs.Laws.{QueueKeepsOrder};

/// Over every list of calls of `put`, `pop` and `close`, the places that went in came out in the same order or still
/// wait, so that none is lost; none waits twice; and after a close none goes in.
pub fn queue_keeps_order()
    ensures { QueueKeepsOrder }
{}
