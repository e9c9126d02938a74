//! How many seats a pool may have.
ghost use Rattle.std.specs.Prelude.{◌≡◌, ◌+◌, None};
ghost use Rattle.crossbeam_queue.specs.Passes.{view, IsPassOf};
ghost use Rattle.cy_pool.specs.Rule.{view_of, HasAll};

use crate::rule::{NoSeats, Numbers, OneSeatMore, View};
use crossbeam_queue::Pass;

/// A pass that has all parts is to have so many seats, and no more. What a pass knows changes by the steps of the rule
/// alone, so the limit is counted up.
pub(crate) fn limit_seats(numbers: &Numbers, pass: &mut Pass<u32, View>, seats: u32)
    requires queue { IsPassOf numbers.now pass.old }
    requires all { HasAll (view pass.old) }
    ensures queue { IsPassOf numbers.now pass.new }
    ensures limit { view pass.new ≡ view_of 1 (seats + 1) (view pass.old).size seats None }
{
    drop(numbers.another::<NoSeats>(pass));
    for _most in 0..seats {
        drop(numbers.another::<OneSeatMore>(pass));
    }
}
