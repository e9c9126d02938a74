// What tells the time.
ghost use Rattle.std.specs.Prelude.{ℕ, List, Option};

/// A clock. It may fall, and may tell any number: who reads it bounds what it tells.
pub trait Clock {
    ghost use Rattle.cy_link.specs.Moments.{Tells};

    /// The moments that it gave, in order, where it tells.
    ghost gave: { Self → Option (List ℕ) };

    /// The moment now, in milliseconds since 1970.
    fn now(&mut self) -> u64
        ensures { Tells (gave self.old) (gave self.new) result };
}
