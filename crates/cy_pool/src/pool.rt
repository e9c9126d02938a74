//! The pool of free numbers.
ghost use Rattle.std.specs.Prelude.{◌≡◌, ◌<◌, ◌≤◌, ◌+◌, ◌-◌, ◌^◌, Some, None, IfOk, IfSome, IfNone};

use crate::limit::limit_seats;
use crate::rule::{Adds, Gives, Numbers, OnePart, Takes, View, Whole};
use crossbeam_queue::Pass;
use std::alloc::{AllocError, Global};
use std::marker::Model;
use std::sync::Wait;

/// Memory ran out.
pub type NoMemory = AllocError;

/// The numbers below a count, of which each is in the pool or in one slip. Threads share it. Contracts see its name and how
/// many numbers there are.
#[derive(Drop)]
pub struct Pool {
    numbers: Numbers,
}

impl Model for Pool {
    ghost use Rattle.crossbeam_queue.specs.Passes.{ruled_capacity};
    ghost use Rattle.cy_pool.specs.Stocks.{Stock};

    ghost Value = { Stock };

    ghost view = { λ p. record { name = p.numbers.table.shared.table_id; slots = ruled_capacity p.numbers } };
}

/// The right to make seats of a pool, which stays with one thread at a time. Contracts see the name of the pool, how many
/// numbers that has, how many seats there may be, and how many were made and not joined.
#[derive(Drop)]
pub struct Keeper {
    pass: Pass<u32, View>,
}

impl Model for Keeper {
    ghost use Rattle.std.specs.Prelude.{◌≡◌, ◌<◌, ◌≤◌, ◌+◌, ◌-◌, [], None};
    ghost use Rattle.crossbeam_queue.specs.Passes.{view as view_in};
    ghost use Rattle.cy_pool.specs.Stocks.{Keeping};

    ghost Value = { Keeping };

    ghost view = { λ k. record {
      name = k.pass.table_id;
      slots = (view_in k.pass).size;
      most = (view_in k.pass).most;
      seats = (view_in k.pass).most + 1 - (view_in k.pass).parts;
    } };

    ghost invariant = { λ k. (k.pass.me.1 ≡ [])
        × ((view_in k.pass).keeper ≡ 1)
        × ((view_in k.pass).slip ≡ None)
        × (0 < (view_in k.pass).parts)
        × ((view_in k.pass).parts ≤ (view_in k.pass).most + 1) };
}

/// The right of one place to have one slip at a time. It may go from thread to thread. Contracts see the name of the pool
/// that made it, how many numbers that has, how many seats there may be, and the number of its slip.
#[derive(Drop)]
pub struct Seat {
    pass: Pass<u32, View>,
}

impl Model for Seat {
    ghost use Rattle.std.specs.Prelude.{◌≡◌, []};
    ghost use Rattle.crossbeam_queue.specs.Passes.{view as view_in};
    ghost use Rattle.cy_pool.specs.Stocks.{Place};

    ghost Value = { Place };

    ghost view = { λ s. record {
      name = s.pass.table_id;
      slots = (view_in s.pass).size;
      most = (view_in s.pass).most;
      slip = (view_in s.pass).slip;
    } };

    ghost invariant = { λ s. (s.pass.me.1 ≡ []) × ((view_in s.pass).keeper ≡ 0) × ((view_in s.pass).parts ≡ 1) };
}

/// A number that is out. It can't be copied. Contracts see the number.
#[derive(Debug, Drop)]
pub struct Slip {
    number: u32,
}

impl Model for Slip {
    ghost use Rattle.std.specs.Prelude.{ℕ};

    ghost Value = { ℕ };

    ghost view = { λ s. s.number };
}

impl Slip {
    pub fn number(&self) -> u32
        ensures { result ≡ self.now }
    {
        self.number
    }
}

impl Pool {
    ghost use Rattle.cy_pool.specs.Stocks.{IsSeatOf};

    /// All numbers below `slots`, in the pool, with the right to make its seats, of which there may be 2^32 - 1. This alone
    /// takes memory.
    pub fn new(alloc: Global, slots: u32) -> Result<(Pool, Keeper), NoMemory>
        requires { 0 < slots }
        ensures slots { IfOk result (λ made. made.0.slots ≡ slots) }
        ensures keeper { IfOk result (λ made. made.1
            ≡ record { name = made.0.name; slots = slots; most = 2 ^ 32 - 1; seats = 0 }) }
    {
        let (numbers, mut pass) = Numbers::ruled(alloc, slots as usize)?;
        for number in 0..slots {
            if numbers.try_push_as::<Adds>(&mut pass, number).is_err() {
                return Err(AllocError);
            }
        }
        Ok((Pool { numbers }, Keeper { pass }))
    }

    /// From now on there may be so many seats at a time. While these are no more than the numbers, each take finds one.
    pub fn limit(&self, keeper: &mut Keeper, seats: u32)
        requires made { keeper.old.name ≡ self.now.name }
        requires none { keeper.old.seats ≡ 0 }
        ensures { keeper.new ≡ record keeper.old { most = seats; seats = 0 } }
    {
        limit_seats(&self.numbers, &mut keeper.pass, seats);
    }

    /// A seat, for one slip at a time.
    pub fn seat(&self, keeper: &mut Keeper) -> Seat
        requires made { keeper.old.name ≡ self.now.name }
        requires few { keeper.old.seats < keeper.old.most }
        ensures keeper { keeper.new ≡ record keeper.old { seats = keeper.old.seats + 1 } }
        ensures seat { result ≡ record {
          name = keeper.old.name;
          slots = keeper.old.slots;
          most = keeper.old.most;
          slip = None;
        } }
    {
        let pass = self.numbers.another::<OnePart>(&mut keeper.pass);
        Seat { pass }
    }

    /// Takes a seat back.
    pub fn join(&self, keeper: &mut Keeper, seat: Seat)
        requires made { (keeper.old.name ≡ self.now.name) × (seat.name ≡ self.now.name) }
        requires idle { seat.slip ≡ None }
        ensures { keeper.new ≡ record keeper.old { seats = keeper.old.seats - 1 } }
    {
        let Seat { pass } = seat;
        self.numbers.absorb::<OnePart>(&mut keeper.pass, pass);
        self.numbers.learn_as::<Whole>(&mut keeper.pass);
    }

    /// Draws a number. `None` only where all of them were out at a moment of this call, with other seats.
    pub fn take<H: Wait>(&self, rt: &H, seat: &mut Seat) -> Option<Slip>
        requires made { IsSeatOf self.now seat.old }
        requires idle { seat.old.slip ≡ None }
        ensures some { IfSome result (λ slip. (seat.new.slip ≡ Some slip) × (slip < self.now.slots)) }
        ensures none { IfNone result (seat.new.slip ≡ None) }
        ensures all_out { IfNone result (self.now.slots < seat.old.most) }
        ensures seat { IsSeatOf self.now seat.new × (seat.new.most ≡ seat.old.most) }
    {
        let number = self.numbers.pop_as::<Takes, H>(rt, &mut seat.pass)?;
        Some(Slip { number })
    }

    /// Puts the number of a slip back.
    pub fn give<H: Wait>(&self, rt: &H, seat: &mut Seat, slip: Slip)
        requires made { IsSeatOf self.now seat.old }
        requires out { seat.old.slip ≡ Some slip }
        ensures { seat.new ≡ record seat.old { slip = None } }
    {
        let Slip { number } = slip;
        match self.numbers.push_as::<Gives, H>(rt, &mut seat.pass, number) {
            Ok(()) => {}
            Err(_) => unreachable!(),
        }
    }
}
