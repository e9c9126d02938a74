//! A connector whose connections have short requests.
ghost use Rattle.std.specs.Prelude.{◌≡◌, true};
ghost use Rattle.cy_world.specs.Worlds.{CanTake};

use crate::request::{Request, STEPS, end};
use anyhow::{Result, bail};
use cy_bytes::Bytes;
use cy_event::{Act, GREATEST_READ, Limits, Reply, Step};
use cy_map::Rule;
use cy_world::World;
use std::alloc::Global;

/// A connector, and the steps of a request.
#[derive(Drop)]
pub struct Connector {
    alloc: Global,
    world: World,
    request: Request,
    /// The number of the next connection. Numbers rise, so each is new.
    next: u64,
}

/// Whether the connector takes the step: a number is admitted once, the bytes that are written stand
/// there, and a read asks for no more than it may.
fn may_take(world: &World, step: &Step) -> bool
    ensures { result ≡ true → CanTake step.now world.now }
{
    match step {
        Step::At(_) => false,
        Step::Admit(number) => world.out(*number).is_none(),
        Step::On { .. } | Step::Run(_) => true,
        Step::Act { act, bytes, .. } => match act {
            Act::Read(count) => *count <= GREATEST_READ,
            Act::Write(count) => *count as usize <= bytes.as_slice().len(),
            Act::Return => true,
        },
    }
}

/// Takes a step, and answers its reply: none where the connector doesn't take it, or memory ran out. An error with a
/// text would be longer than a step's own answer, and what is measured is the step.
fn take(alloc: Global, world: &mut World, step: &Step) -> Option<Reply> {
    if !may_take(world, step) {
        return None;
    }
    Some(world.step(alloc, step).ok()?.reply)
}

/// Component 0 serves every path.
fn rules(alloc: Global) -> Result<[Rule; 1]> {
    Ok([Rule {
        pattern: Bytes::of(Vec::from_slice(alloc, b"/*")?),
        part: 0,
        can_async: false,
    }])
}

impl Connector {
    /// A connector of so many places, whose connections may have any number of requests.
    pub fn new(alloc: Global, places: u32) -> Result<Connector> {
        let limits = Limits {
            max_connections: places,
            max_keep_alive: -1,
            ..Limits::standard(1)
        };
        let world = match World::new(alloc, &limits, &rules(alloc)?) {
            Ok(world) => world,
            Err(fault) => bail!("no connector: {fault:?}"),
        };
        Ok(Connector {
            alloc,
            world,
            request: Request::new(alloc)?,
            next: 1,
        })
    }

    /// How many connections are counted.
    pub fn counted(&self) -> u64 {
        self.world.counted()
    }

    /// A new connection asks to be admitted.
    fn admit(&mut self) -> Option<Reply> {
        let number = self.next;
        self.next = number.saturating_add(1);
        take(self.alloc, &mut self.world, &Step::Admit(number))
    }

    /// Takes the step at this place of a request of a connection, and answers whether it got the
    /// reply that it should.
    fn serve(&mut self, place: usize, number: u64) -> bool {
        let (step, wanted) = self.request.step(place, number);
        take(self.alloc, &mut self.world, step) == Some(wanted)
    }

    /// A whole request of a connection, and whether each step got the reply that it should.
    fn serve_whole(&mut self, number: u64) -> bool {
        let mut is_right = true;
        for place in 0..STEPS {
            is_right = self.serve(place, number) && is_right;
        }
        is_right
    }

    /// New connections are admitted, and answers how many were.
    pub fn admit_some(&mut self, times: u64) -> u64 {
        let mut done = 0u64;
        for _ in 0..times {
            if self.admit() == Some(Reply::Entered) {
                done = done.saturating_add(1);
            }
        }
        done
    }

    /// New connections are refused, and answers how many were.
    pub fn refuse_some(&mut self, times: u64) -> u64 {
        let mut done = 0u64;
        for _ in 0..times {
            if matches!(self.admit(), Some(Reply::Full(_))) {
                done = done.saturating_add(1);
            }
        }
        done
    }

    /// So many new connections are admitted, and each has a request.
    pub fn fill(&mut self, count: u32) -> Result<()> {
        for _ in 0..count {
            let number = self.next;
            if self.admit() != Some(Reply::Entered) || !self.serve_whole(number) {
                bail!("a connection was not served");
            }
        }
        Ok(())
    }

    /// The number of the first of those that were filled in.
    fn first(&self) -> u64 {
        self.next.saturating_sub(self.counted())
    }

    /// Those that were filled in go on with a request: one of five takes no step of it, the next
    /// one, the next two, and so on. So whoever goes on by turns takes steps of all kinds.
    pub fn spread(&mut self) -> Result<()> {
        let first = self.first();
        for turn in 0..self.counted() {
            for place in 0..turn as usize % STEPS {
                if !self.serve(place, first.saturating_add(turn)) {
                    bail!("a connection was not served");
                }
            }
        }
        Ok(())
    }

    /// So many steps of those that were spread, by turns: each takes the next step of its request,
    /// and then each the one behind it.
    pub fn step_by_turns(&mut self, times: u64) -> u64 {
        let (first, count) = (self.first(), self.counted());
        let (mut done, mut turn, mut round) = (0u64, 0u64, 0usize);
        for _ in 0..times {
            let place = round.saturating_add(turn as usize % STEPS);
            if self.serve(place, first.saturating_add(turn)) {
                done = done.saturating_add(1);
            }
            turn = turn.saturating_add(1);
            if turn >= count {
                turn = 0;
                round = round.saturating_add(1) % STEPS;
            }
        }
        done
    }

    /// So many whole requests of those that were filled in, by turns.
    pub fn get_by_turns(&mut self, times: u64) -> u64 {
        let (first, count) = (self.first(), self.counted());
        let (mut done, mut turn) = (0u64, 0u64);
        for _ in 0..times {
            if self.serve_whole(first.saturating_add(turn)) {
                done = done.saturating_add(1);
            }
            turn = turn.saturating_add(1);
            if turn >= count {
                turn = 0;
            }
        }
        done
    }

    /// A new connection has one request, and is gone.
    fn pass(&mut self) -> bool {
        let number = self.next;
        let mut is_right = self.admit() == Some(Reply::Entered) && self.serve_whole(number);
        let end = end(self.alloc, number);
        is_right = take(self.alloc, &mut self.world, &end) == Some(Reply::Done) && is_right;
        is_right && self.world.cause(number).is_some()
    }

    /// So many connections, one behind the other.
    pub fn pass_some(&mut self, times: u64) -> u64 {
        let mut done = 0u64;
        for _ in 0..times {
            if self.pass() {
                done = done.saturating_add(1);
            }
        }
        done
    }

    /// New connections are admitted, and have a request whose callback runs.
    pub fn sit_some(&mut self, times: u64) -> u64 {
        let mut done = 0u64;
        for _ in 0..times {
            let number = self.next;
            let is_in = self.admit() == Some(Reply::Entered);
            if is_in && self.serve(0, number) && self.serve(1, number) {
                done = done.saturating_add(1);
            }
        }
        done
    }
}
