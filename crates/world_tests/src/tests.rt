// A connector, driven by its steps: what each is answered, and what is told of its connections. The
// steps stand in lines of text, and so does what is wanted. Memory is ample.

use super::*;
use crate::connector::{limits_for, rule, rules, slot_of};
use crate::courses::COURSES;
use crate::lines::{bytes_of, step_of};
use cy_bytes::Bytes;
use cy_event::{Act, Bytes as StepBytes, Event, Limits, NoMemory, RequestHead};
use cy_map::MAX_RULES;
use cy_slot::STATE_BYTES;
use cy_tape::print_reply;
use cy_world::{Replied, WorldFault, run};
use std::process::Abort;
use std::test::Fail;

/// Takes a step. All steps of these tests are taken here.
fn take(
    rt: &impl Abort,
    alloc: Global,
    world: &mut World,
    step: &Step,
) -> Result<Replied, NoMemory> {
    assert!(rt; may_take(world, step));
    world.step(alloc, step)
}

/// What the step of a line is answered, as a report names it.
fn reply(
    rt: &impl Abort,
    alloc: Global,
    world: &mut World,
    conn: u64,
    line: &str,
) -> Result<Vec<u8>, Fail> {
    let step = step_of(alloc, conn, line)?;
    let replied = take(rt, alloc, world, &step)?;
    let mut text = Bytes::of(Vec::new(alloc));
    print_reply(alloc, &replied.reply, replied.got.as_slice(), &mut text)?;
    Ok(text.into_vec())
}

/// A connection in numbers.
fn numbers(alloc: Global, world: &World, conn: u64) -> Result<Vec<u8>, Fail> {
    let (cause, took) = (world.cause(conn), world.took(conn));
    let (ended, requests) = (world.ended(conn), world.requests(conn));
    let text = format!(in alloc; "{cause:?} took {took:?}, {ended} of {requests} ended")?;
    Ok(text.into_bytes())
}

/// All that was written on a connection.
fn out(alloc: Global, world: &World, conn: u64) -> Result<Vec<u8>, Fail> {
    match world.out(conn) {
        Some(out) => Ok(Vec::from_slice(alloc, out.as_slice())?),
        None => Ok(Vec::from_slice(alloc, b"nothing")?),
    }
}

/// What the slot of a connection holds of its request: the head, and the number of its component.
fn seen(alloc: Global, world: &World, conn: u64) -> Result<Vec<u8>, Fail> {
    let mut head = RequestHead::new(alloc, &Limits::standard(8))?;
    let mut state = vec![in alloc; 0; STATE_BYTES]?;
    let mut text = Vec::new(alloc);
    if let Some(slot) = slot_of(world, conn)
        && slot.lend(slot.tenancy(), &mut head, &mut state)
    {
        text.extend_from_slice(head.method())?;
        text.extend_from_slice(head.path())?;
        text.extend_from_slice(head.query().unwrap_or(b" no query"))?;
        text.extend_from_slice(&head.field_bytes)?;
        let (part, fields) = (slot.part(), head.field_count());
        text.extend_from_slice(format!(in alloc; " {fields} for {part}")?.as_bytes())?;
    }
    Ok(text)
}

/// How many tenants the slot of a connection had before.
fn tenant(alloc: Global, world: &World, conn: u64) -> Result<Vec<u8>, Fail> {
    match slot_of(world, conn) {
        Some(slot) => Ok(format!(in alloc; "{}", slot.tenancy())?.into_bytes()),
        None => Ok(Vec::new(alloc)),
    }
}

/// What a line asks of a connection, or what the step that it says is answered.
fn answer(
    rt: &impl Abort,
    alloc: Global,
    world: &mut World,
    conn: u64,
    line: &str,
) -> Result<Vec<u8>, Fail> {
    match line {
        "told" => numbers(alloc, world, conn),
        "out" => out(alloc, world, conn),
        "seen" => seen(alloc, world, conn),
        "tenant" => tenant(alloc, world, conn),
        "place" => Ok(format!(in alloc; "{:?}", world.place(conn))?.into_bytes()),
        "counted" => Ok(format!(in alloc; "{}", world.counted())?.into_bytes()),
        _ => reply(rt, alloc, world, conn, line),
    }
}

/// That each line, which begins with the number of its connection, is answered as it says behind
/// the sign `=>`.
fn expect(rt: &impl Abort, alloc: Global, world: &mut World, lines: &str) -> Result<(), Fail> {
    for line in lines.lines() {
        let (asked, wanted) = line.split_once(" => ").ok_or("a line without an answer")?;
        let (conn, asked) = asked.split_once(' ').ok_or("a line without a number")?;
        let got = answer(rt, alloc, world, conn.parse::<u64>()?, asked)?;
        let wanted = bytes_of(alloc, wanted)?;
        assert!(rt;
            got == wanted,
            "{line}: {}",
            String::from_utf8_lossy(alloc, &got)?.as_str()
        );
    }
    Ok(())
}

const SERVED: &str = "1 counted => 0
1 told => None took None, 0 of 0 ended
1 out => nothing
1 place => None
1 admit => Entered
1 counted => 1
1 told => None took Some(0), 0 of 0 ended
1 in GET /b/c?q HTTP/1.1~Host: a~~ => Taken 32
1 place => Some(0)
1 seen => GET/b/cqHosta 1 for 7
1 told => None took Some(0), 0 of 1 ended
1 run => Begun service 7
1 run => Idle
1 write hello => Taken 5
1 return => Done
1 place => None
1 out => HTTP/1.1 200 ~Content-Length: 5~Date: Thu, 01 Jan 1970 00:00:00 GMT~~hello
1 took 8 => Taken 8
1 told => None took Some(8), 1 of 1 ended
1 end => Done
1 told => Some(InputEnd) took Some(8), 1 of 1 ended
1 counted => 1
1 took 1000 => Taken 70
1 counted => 0
1 told => Some(InputEnd) took Some(78), 1 of 1 ended
1 out => HTTP/1.1 200 ~Content-Length: 5~Date: Thu, 01 Jan 1970 00:00:00 GMT~~hello";

#[test]
fn a_connection_is_served_until_it_is_gone(rt: HostRuntime) -> Result<(), Fail> {
    let alloc = rt.alloc();
    let mut world = world(alloc, 1)?;
    expect(&rt, alloc, &mut world, SERVED)
}

mod apart;
mod course;
mod cuts;
mod limits;
mod mixed;
mod recycled;
mod report;
