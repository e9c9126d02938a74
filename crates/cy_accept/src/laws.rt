//! A law of the acceptor: a function without parameters and without a body has the law as its contract.
ghost use Rattle.cy_accept.specs.Laws.{LatchCountsConnections};

/// Over every list of steps of the acceptor and of connections that leave, whatever the door answers, the latch's count
/// is the number of connections that came and haven't left, at most the limit.
pub fn latch_counts_connections()
    ensures { LatchCountsConnections }
{}
