//! A step for which there is no memory: the connector tells what it told before, and takes the step
//! once there is. No view of it takes memory, so that what is refused is the step's.

use crate::connector::{may_take, slot_of};
use crate::courses::COURSES;
use anyhow::{Result, bail};
use cy_event::{CloseCause, Limits, RequestHead, Step};
use cy_slot::{STATE_BYTES, Slot};
use cy_world::{Replied, World};
use std::alloc::Global;

/// How many connections take steps.
const CONNECTIONS: usize = COURSES.len();

/// For so many bytes a view has room.
const ROOM: usize = 1 << 16;

/// A connection in numbers.
#[derive(Clone, Copy, Debug, PartialEq, Eq)]
struct Numbers {
    place: Option<u32>,
    part: Option<u32>,
    cause: Option<CloseCause>,
    took: Option<u64>,
    requests: u64,
    ended: u64,
    is_known: bool,
    counted: u64,
}

fn numbers_of(world: &World, conn: u64) -> Numbers {
    Numbers {
        place: world.place(conn),
        part: part_of(world, conn),
        cause: world.cause(conn),
        took: world.took(conn),
        requests: world.requests(conn),
        ended: world.ended(conn),
        is_known: world.out(conn).is_some(),
        counted: world.counted(),
    }
}

fn part_of(world: &World, conn: u64) -> Option<u32> {
    Some(slot_of(world, conn)?.part())
}

/// All that a connector tells of its connections: each in numbers, and what was written on it with
/// what its slot holds.
#[derive(Drop)]
pub struct View {
    numbers: Vec<Numbers>,
    bytes: Vec<u8>,
    head: RequestHead,
}

impl View {
    /// A view of nothing, with room for one of a connector.
    pub fn new(alloc: Global) -> Result<View> {
        Ok(View {
            numbers: Vec::with_capacity(alloc, CONNECTIONS)?,
            bytes: Vec::with_capacity(alloc, ROOM)?,
            head: RequestHead::new(alloc, &Limits::standard(8))?,
        })
    }

    /// Looks at a connector.
    fn look_at(&mut self, world: &World) -> Result<()> {
        self.numbers.clear();
        self.bytes.clear();
        for conn in 0..CONNECTIONS as u64 {
            self.numbers.push(numbers_of(world, conn))?;
            self.push_out(world, conn)?;
            if let Some(slot) = slot_of(world, conn) {
                self.push_slot(slot)?;
            }
        }
        Ok(())
    }

    /// Appends what was written on a connection.
    fn push_out(&mut self, world: &World, conn: u64) -> Result<()> {
        if let Some(out) = world.out(conn) {
            self.bytes.extend_from_slice(out.as_slice())?;
        }
        Ok(())
    }

    /// Appends the head that stands in a slot, and the state bytes.
    fn push_slot(&mut self, slot: &Slot) -> Result<()> {
        let mut state = [0; STATE_BYTES];
        if slot.lend(slot.tenancy(), &mut self.head, &mut state) {
            self.bytes.extend_from_slice(self.head.method())?;
            self.bytes.extend_from_slice(self.head.path())?;
            let query = self.head.query().unwrap_or(b" no query");
            self.bytes.extend_from_slice(query)?;
            self.bytes.extend_from_slice(&self.head.field_bytes)?;
            self.bytes.extend_from_slice(&state)?;
        }
        Ok(())
    }

    fn is_like(&self, other: &View) -> bool {
        self.numbers == other.numbers && self.bytes == other.bytes
    }
}

/// Takes a step, and answers its reply, or none where memory ran out.
fn take(alloc: Global, world: &mut World, step: &Step) -> Result<Option<Replied>> {
    if !may_take(world, step) {
        bail!("the connector doesn't take the step");
    }
    let Ok(replied) = world.step(alloc, step) else {
        return Ok(None);
    };
    Ok(Some(replied))
}

/// Takes a step, and answers its reply. Where there was no memory, all is as before, and it is
/// taken again: whether that was so stands beside the reply.
pub fn insist(
    alloc: Global,
    world: &mut World,
    step: &Step,
    before: &mut View,
    after: &mut View,
) -> Result<(Replied, bool)> {
    before.look_at(world)?;
    if let Some(reply) = take(alloc, world, step)? {
        return Ok((reply, false));
    }
    after.look_at(world)?;
    if !after.is_like(before) {
        bail!("a step that was refused changed the connector");
    }
    match take(alloc, world, step)? {
        Some(reply) => Ok((reply, true)),
        None => bail!("a step was refused twice"),
    }
}
