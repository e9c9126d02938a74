//! The rule that every step on the queue of free numbers keeps.

use crossbeam_queue::RuledArrayQueue;
use crossbeam_queue::protocol::{Join, Lesson, Outcome, Protocol, Split};

/// What a pass knows: 1 where it is the one that makes seats, and else 0; its parts, of which the pass that makes seats
/// keeps one and gives one to each seat; how many numbers and how many seats there are at most; and the number that it has
/// out. No value of it is made.
pub(crate) struct View {
    pub keeper: u64,
    pub parts: u64,
    pub size: u32,
    pub most: u32,
    pub slip: Option<u32>,
}

/// Each number is in the queue or in one slip.
pub(crate) struct EachOnce;

impl Protocol<u32, View> for EachOnce {
    ghost use Rattle.std.specs.Prelude.{◌-◌, ◌^◌, None};
    ghost use Rattle.cy_pool.specs.Rule.{view_of, AreKept};

    ghost holds = { AreKept };

    ghost first = { view_of 1 (2 ^ 32) 0 (2 ^ 32 - 1) None };
}

/// A new number joins, while one pass has all parts.
pub(crate) struct Adds;

impl Outcome<u32, View> for Adds {
    ghost use Rattle.cy_pool.specs.Rule.{view_of};
    ghost use Rattle.std.specs.Prelude.{◌≡◌, ◌+◌};

    ghost then = { λ v x w. w ≡ view_of v.keeper v.parts (v.size + 1) v.most v.slip };
}

/// A number leaves the queue with a slip.
pub(crate) struct Takes;

impl Outcome<u32, View> for Takes {
    ghost use Rattle.std.specs.Prelude.{◌≡◌, ◌<◌, Some};
    ghost use Rattle.cy_pool.specs.Rule.{view_of};

    ghost then = { λ v x w. (w ≡ view_of v.keeper v.parts v.size v.most (Some x)) × (x < v.size) };
}

/// Without a slip of its own, there are fewer numbers out than seats.
impl Lesson<u32, View> for Takes {
    ghost use Rattle.std.specs.Prelude.{◌+◌, ◌<◌, length};

    ghost fact = { λ v items. v.size < length items + v.most };
}

/// A slip's number joins the queue, which then had room for it.
pub(crate) struct Gives;

impl Outcome<u32, View> for Gives {
    ghost use Rattle.std.specs.Prelude.{◌≡◌, None};
    ghost use Rattle.cy_pool.specs.Rule.{view_of};

    ghost then = { λ v x w. w ≡ view_of v.keeper v.parts v.size v.most None };
}

impl Lesson<u32, View> for Gives {
    ghost use Rattle.std.specs.Prelude.{◌<◌, length};

    ghost fact = { λ v items. length items < v.size };
}

/// No pass has more parts than there are.
pub(crate) struct Whole;

impl Lesson<u32, View> for Whole {
    ghost use Rattle.std.specs.Prelude.{◌≤◌, ◌+◌};

    ghost fact = { λ v items. v.parts ≤ v.most + 1 };
}

/// While one pass has all parts, it is to have no seat.
pub(crate) struct NoSeats;

impl Split<View> for NoSeats {
    ghost use Rattle.std.specs.Prelude.{None};
    ghost use Rattle.cy_pool.specs.Rule.{view_of};

    ghost left = { λ v. view_of v.keeper 1 v.size 0 v.slip };

    ghost right = { λ v. view_of 0 0 0 0 None };
}

/// While one pass has all parts, it is to have one seat more.
pub(crate) struct OneSeatMore;

impl Split<View> for OneSeatMore {
    ghost use Rattle.std.specs.Prelude.{◌+◌, None};
    ghost use Rattle.cy_pool.specs.Rule.{view_of};

    ghost left = { λ v. view_of v.keeper (v.parts + 1) v.size (v.most + 1) v.slip };

    ghost right = { λ v. view_of 0 0 0 0 None };
}

/// One part goes to a new pass, or comes back.
pub(crate) struct OnePart;

impl Split<View> for OnePart {
    ghost use Rattle.std.specs.Prelude.{◌-◌, None};
    ghost use Rattle.cy_pool.specs.Rule.{view_of};

    ghost left = { λ v. view_of v.keeper (v.parts - 1) v.size v.most v.slip };

    ghost right = { λ v. view_of 0 1 v.size v.most None };
}

impl Join<View> for OnePart {
    ghost use Rattle.std.specs.Prelude.{◌+◌, None};
    ghost use Rattle.cy_pool.specs.Rule.{view_of};

    ghost both = { λ v w. view_of v.keeper (v.parts + w.parts) v.size v.most v.slip };

    ghost spent = { view_of 0 0 0 0 None };
}

pub(crate) type Numbers = RuledArrayQueue<u32, View, EachOnce>;
