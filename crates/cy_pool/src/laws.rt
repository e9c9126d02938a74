//! Laws of the pool: a function without parameters and without a body has the law as its contract.
ghost use Rattle.cy_pool.specs.Laws.{EachNumberOnce};

/// Over every list of calls of `take`, `give`, `seat` and `join`, each number of the pool is in it or in one slip, never in
/// both and never twice.
pub fn each_number_once()
    ensures { EachNumberOnce }
{}
