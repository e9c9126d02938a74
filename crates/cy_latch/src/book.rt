//! The book of a latch.
ghost use Rattle.std.specs.Prelude.{◌≡◌, ◌↔◌, ◌≤◌, Bool, false, IfOk, List, length, replicate};

use std::alloc::{AllocError, Global};
use std::marker::Model;

/// Memory ran out.
pub type NoMemory = AllocError;

/// A share in the count. It can't be copied, and one that is dropped stays counted. Contracts see its number.
#[derive(Debug, Drop)]
pub struct Share {
    number: u32,
}

impl Model for Share {
    ghost use Rattle.std.specs.Prelude.{ℕ};

    ghost Value = { ℕ };

    ghost view = { λ s. s.number };
}

impl Share {
    /// Its number, which is below the limit of its latch and no other share's that is out.
    pub fn number(&self) -> u32
        ensures { result ≡ self.now }
    {
        self.number
    }
}

/// What `LatchBook::enter` answers.
#[derive(Debug, Drop)]
pub enum Enter {
    /// A share, which counts one.
    Entered(Share),
    /// As many as the limit are counted.
    Full { count: u64 },
}

/// A latch with a limit: which of the numbers below it are out. Contracts see, for each number, whether it is.
#[derive(Debug, Drop)]
pub struct LatchBook {
    is_out: Vec<bool>,
    // The numbers that aren't out, so that one is drawn without a search.
    free: Vec<u32>,
}

impl Model for LatchBook {
    ghost use Rattle.std.specs.Prelude.{Bool, List, vec_capacity};
    ghost use Rattle.cy_latch.specs.Free.{IsFree};

    ghost Value = { List Bool };

    ghost view = { λ b. b.is_out.items };

    ghost invariant = { λ b. IsFree b.is_out.items b.free.items (vec_capacity b.free) };
}

impl LatchBook {
    ghost use Rattle.cy_latch.specs.Entering.{turn_of};
    ghost use Rattle.cy_latch.specs.Numbers.{after_leave, count_out};
    ghost use Rattle.cy_latch.specs.Runs.{IsTurn};

    /// A latch that counts nothing. This alone takes memory, for each number below the limit.
    pub fn new(alloc: Global, limit: u32) -> Result<LatchBook, NoMemory>
        ensures { IfOk result (λ book. book ≡ replicate limit false) }
    {
        let is_out = vec![in alloc; false; limit as usize]?;
        let mut free = Vec::with_capacity(alloc, limit as usize)?;
        for number in 0..limit {
            free.push_reserved(number);
        }
        Ok(LatchBook { is_out, free })
    }

    /// A share, or `Full` with the count exactly where it equals the limit. The cost doesn't grow with the limit.
    pub fn enter(&mut self) -> Enter
        ensures turn { IsTurn self.old (turn_of result) self.new }
        ensures full { (result ≡ Enter.Full (length self.old)) ↔ (count_out self.old ≡ length self.old) }
    {
        match self.free.pop() {
            Some(number) => {
                self.is_out[number as usize] = true;
                Enter::Entered(Share { number })
            }
            None => Enter::Full {
                count: self.is_out.len() as u64,
            },
        }
    }

    /// Takes a share back, which counts no more. One whose number isn't out here changes nothing. The cost doesn't grow
    /// with the limit.
    pub fn leave(&mut self, share: Share)
        ensures { self.new ≡ after_leave self.old share }
    {
        let Share { number } = share;
        let index = number as usize;
        if index < self.is_out.len() && self.is_out[index] {
            self.is_out[index] = false;
            self.free.push_reserved(number);
        }
    }

    /// How many shares are out.
    pub fn count(&self) -> u64
        ensures count { result ≡ count_out self.now }
        ensures limited { result ≤ length self.now }
    {
        (self.is_out.len() - self.free.len()) as u64
    }
}
