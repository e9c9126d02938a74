//! A connector, and which steps it takes.
ghost use Rattle.std.specs.Prelude.{◌≡◌, ◌≤◌, true};
ghost use Rattle.cy_event.specs.declared.head.TheConstants.{FIELD_ROOM, HEAD_ROOM};
ghost use Rattle.cy_world.specs.Worlds.{CanTake};

use anyhow::{Result, bail};
use cy_bytes::Bytes;
use cy_event::{Act, GREATEST_READ, Limits, Step};
use cy_map::Rule;
use cy_slot::Slot;
use cy_world::World;
use std::alloc::Global;

pub fn rule(alloc: Global, pattern: &str, part: u32) -> Result<Rule> {
    Ok(Rule {
        pattern: Bytes::of(Vec::from_slice(alloc, pattern.as_bytes())?),
        part,
        can_async: false,
    })
}

/// Component 0 serves `/a` and what is below it, component 7 the same of `/b`.
pub fn rules(alloc: Global) -> Result<[Rule; 2]> {
    Ok([rule(alloc, "/a/*", 0)?, rule(alloc, "/b/*", 7)?])
}

/// The limits of a connector for so many connections.
pub fn limits_for(most: u32) -> Limits
    ensures head_room { result.max_head ≤ HEAD_ROOM }
    ensures field_room { result.max_fields ≤ FIELD_ROOM }
{
    Limits {
        max_connections: most,
        ..Limits::standard(8)
    }
}

/// A connector for so many connections.
pub fn world(alloc: Global, most: u32) -> Result<World> {
    match World::new(alloc, &limits_for(most), &rules(alloc)?) {
        Ok(world) => Ok(world),
        Err(fault) => bail!("no connector: {fault:?}"),
    }
}

/// Whether the connector takes the step: a number is admitted once, the bytes that are written stand
/// there, and a read asks for no more than it may.
pub fn may_take(world: &World, step: &Step) -> bool
    ensures { result ≡ true → CanTake step.now world.now }
{
    match step {
        Step::At(_) => false,
        Step::Admit(number) => world.out(*number).is_none(),
        Step::On { .. } | Step::Run(_) => true,
        Step::Act { act, bytes, .. } => match act {
            Act::Read(count) => *count <= GREATEST_READ,
            Act::Write(count) => *count as usize <= bytes.as_slice().len(),
            Act::Return => true,
        },
    }
}

/// The slot in which a connection sits, if it does.
pub fn slot_of(world: &World, conn: u64) -> Option<&Slot> {
    let place = world.place(conn)?;
    Some(world.slot(place))
}
