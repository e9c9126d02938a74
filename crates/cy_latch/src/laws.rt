//! Laws of the latch: a function without parameters and without a body has the law as its contract.
ghost use Rattle.cy_latch.specs.Runs.{LatchCountsItsShares};

/// Over every list of calls of `enter` and `leave` no number is out twice, and the count is at most the limit. It is the
/// number of shares that were given out and not left: where each share that was left came from an `enter`, those given
/// out less those left.
pub fn latch_counts_its_shares()
    ensures { LatchCountsItsShares }
{}
