// A slot, driven as who holds it drives it: what it answers in each state, a tenant's whole
// request, and what the next tenant finds of the former one. The steps stand in lines of text, and
// so does what is wanted. Memory is ample.
use super::*;
use cy_bytes::Bytes;
use cy_event::{Act, CloseCause, Event, GREATEST_READ, Job, Limits, Reply, RequestHead};
use cy_latch::{Enter, LatchBook, Share};
use cy_map::{Mapper, Rule};
use cy_proc::Line;
use cy_rings::OUT_CAPACITY;
use std::alloc::Global;
use std::process::Abort;
use std::test::Fail;

fn rule(alloc: Global, pattern: &[u8], part: u32) -> Result<Rule, Fail> {
    Ok(Rule {
        pattern: Bytes::of(Vec::from_slice(alloc, pattern)?),
        part,
        can_async: false,
    })
}

/// Component 0 serves `/a` and what is below it, component 7 the same of `/b`.
fn rules(alloc: Global) -> Result<Mapper, Fail> {
    let rules = [rule(alloc, b"/a/*", 0)?, rule(alloc, b"/b/*", 7)?];
    Ok(Mapper::new(alloc, &rules)?)
}

/// A slot, and the connection that it handed out last.
#[derive(Drop)]
struct Desk {
    slot: Slot,
    rules: Mapper,
    left: Option<Conn>,
}

fn desk_of(alloc: Global, slot: Slot) -> Result<Desk, Fail> {
    Ok(Desk {
        slot,
        rules: rules(alloc)?,
        left: None,
    })
}

/// A slot whose first tenant gets the number 0.
fn new_desk(alloc: Global) -> Result<Desk, Fail> {
    desk_of(alloc, Slot::new(alloc, &Limits::standard(8))?)
}

/// A slot whose first tenant gets this number.
fn desk_from(alloc: Global, first: u64) -> Result<Desk, Fail> {
    desk_of(alloc, Slot::new_at(alloc, &Limits::standard(8), first)?)
}

/// The bytes of a text, in which a tilde stands for the end of a line.
fn bytes_of(alloc: Global, text: &str) -> Result<Vec<u8>, Fail> {
    let mut bytes = Vec::new(alloc);
    for byte in text.as_bytes() {
        if *byte == b'~' {
            bytes.extend_from_slice(b"\r\n")?;
        } else {
            bytes.push(*byte)?;
        }
    }
    Ok(bytes)
}

/// These bytes, or that there are none.
fn or_nothing(alloc: Global, bytes: Vec<u8>) -> Result<Vec<u8>, Fail> {
    if bytes.is_empty() {
        return Ok(Vec::from_slice(alloc, b"nothing")?);
    }
    Ok(bytes)
}

fn share(rt: &impl Abort, alloc: Global) -> Result<Share, Fail> {
    match LatchBook::new(alloc, 1)?.enter() {
        Enter::Entered(share) => Ok(share),
        Enter::Full { count } => panic!(rt; "full at {count}"),
    }
}

/// A connection to which these bytes have come.
fn conn(rt: &impl Abort, alloc: Global, number: u64, bytes: &[u8]) -> Result<Conn, Fail> {
    let mut conn = Conn {
        line: Line::new(alloc)?,
        share: share(rt, alloc)?,
        number,
    };
    let count = bytes.len() as u64;
    let told = conn.event(0, Event::In, bytes, &Limits::standard(8));
    assert_eq!(rt; told, Reply::Taken(count));
    Ok(conn)
}

/// What `bind` answers: the tenancy that it tells, and the number of the connection that it hands
/// back.
fn bind(alloc: Global, slot: &mut Slot, conn: Conn) -> Result<String, Fail> {
    match slot.bind(conn) {
        Bound::Bound { tenancy } => Ok(format!(in alloc; "bound {tenancy}")?),
        Bound::Occupied { tenancy, conn } => {
            Ok(format!(in alloc; "occupied {tenancy}, {} is back", conn.number)?)
        }
        Bound::Worn { conn } => Ok(format!(in alloc; "worn, {} is back", conn.number)?),
    }
}

fn open(slot: &mut Slot, tenancy: u64, rules: &Mapper) -> Reply {
    slot.open(tenancy, 0, rules)
}

fn tell(slot: &mut Slot, tenancy: u64, event: Event, bytes: &[u8]) -> Reply {
    slot.event(tenancy, 0, event, bytes)
}

fn run(slot: &mut Slot, tenancy: u64) -> Reply {
    slot.run(tenancy, 0)
}

fn write(rt: &impl Abort, slot: &mut Slot, tenancy: u64, bytes: &[u8]) -> Reply {
    let count = u32::try_from(bytes.len()).unwrap_or(0);
    assert!(rt; count as usize <= bytes.len());
    slot.act(tenancy, 0, &Act::Write(count), bytes, &mut [])
}

fn give_back(slot: &mut Slot, tenancy: u64) -> Reply {
    slot.act(tenancy, 0, &Act::Return, b"", &mut [])
}

/// What a read of so many bytes is answered, and what stands then in a buffer of as many dashes.
fn read(
    rt: &impl Abort,
    alloc: Global,
    slot: &mut Slot,
    tenancy: u64,
    count: u32,
) -> Result<Vec<u8>, Fail> {
    assert!(rt; count <= GREATEST_READ);
    let mut into = vec![in alloc; b'-'; count as usize]?;
    let reply = slot.act(tenancy, 0, &Act::Read(count), b"", &mut into);
    let mut text = format!(in alloc; "{reply:?} ")?.into_bytes();
    text.extend_from_slice(&into)?;
    Ok(text)
}

/// What a step is answered that is meant for this tenant: a word, and its text.
fn reply(
    rt: &impl Abort,
    alloc: Global,
    desk: &mut Desk,
    tenancy: u64,
    word: &str,
    text: &str,
) -> Result<Reply, Fail> {
    let bytes = bytes_of(alloc, text)?;
    match word {
        "open" => Ok(open(&mut desk.slot, tenancy, &desk.rules)),
        "in" => Ok(tell(&mut desk.slot, tenancy, Event::In, &bytes)),
        "end" => Ok(tell(&mut desk.slot, tenancy, Event::End, b"")),
        "took" => {
            let took = Event::Took(text.parse::<u64>()?);
            Ok(tell(&mut desk.slot, tenancy, took, b""))
        }
        "run" => Ok(run(&mut desk.slot, tenancy)),
        "write" => Ok(write(rt, &mut desk.slot, tenancy, &bytes)),
        "return" => Ok(give_back(&mut desk.slot, tenancy)),
        _ => Err("no word of a step".into()),
    }
}

/// Whether the slot keeps this in each of the state bytes.
fn keep(alloc: Global, slot: &mut Slot, tenancy: u64, mark: u8) -> Result<bool, Fail> {
    let state = vec![in alloc; mark; STATE_BYTES]?;
    Ok(slot.keep(tenancy, &state))
}

/// Whether anything is lent, and what stands then in the head, and in how many state bytes the
/// same: they are lent into 256 nines.
fn lent(alloc: Global, slot: &Slot, tenancy: u64) -> Result<Vec<u8>, Fail> {
    let mut head = RequestHead::new(alloc, &Limits::standard(8))?;
    let mut state = vec![in alloc; 9; STATE_BYTES]?;
    let is_lent = slot.lend(tenancy, &mut head, &mut state);
    let mut text = format!(in alloc; "{is_lent} ")?.into_bytes();
    push_head(alloc, &mut text, &head)?;
    text.extend_from_slice(marks(alloc, &state)?.as_bytes())?;
    Ok(text)
}

/// Appends what stands in a head, and how many fields it has.
fn push_head(alloc: Global, text: &mut Vec<u8>, head: &RequestHead) -> Result<(), Fail> {
    text.extend_from_slice(head.method())?;
    text.extend_from_slice(head.path())?;
    text.extend_from_slice(head.query().unwrap_or(b"no query"))?;
    text.extend_from_slice(&head.field_bytes)?;
    text.extend_from_slice(format!(in alloc; " {}", head.field_count())?.as_bytes())?;
    Ok(())
}

/// How many of the state bytes are as the first of them.
fn marks(alloc: Global, state: &[u8]) -> Result<String, Fail> {
    let mark = state.first().copied().unwrap_or(0);
    let count = state.iter().filter(|byte| **byte == mark).count();
    Ok(format!(in alloc; ", {count} of {mark}")?)
}

/// The first bytes that wait, eight at most, as they are copied out.
fn front(alloc: Global, slot: &mut Slot, tenancy: u64) -> Result<Vec<u8>, Fail> {
    let mut out = vec![in alloc; b'-'; 8]?;
    let count = slot.copy_out(tenancy, &mut out);
    out.truncate(count);
    Ok(out)
}

/// The bytes that wait behind the first of them.
fn pushed(alloc: Global, slot: &mut Slot, tenancy: u64, first: usize) -> Result<Vec<u8>, Fail> {
    let mut to = Vec::with_capacity(alloc, OUT_CAPACITY)?;
    slot.push_unsent(tenancy, first, &mut to);
    Ok(to)
}

fn in_room(slot: &Slot, tenancy: u64) -> usize {
    slot.in_room(tenancy)
}

fn unsent_len(slot: &mut Slot, tenancy: u64) -> usize {
    slot.unsent_len(tenancy)
}

/// What a word asks that has a number, that of a tenant or of a connection, and maybe a text.
fn asked(
    rt: &impl Abort,
    alloc: Global,
    desk: &mut Desk,
    number: u64,
    word: &str,
    text: &str,
) -> Result<Vec<u8>, Fail> {
    let slot = &mut desk.slot;
    match word {
        "bind" => {
            let conn = conn(rt, alloc, number, &bytes_of(alloc, text)?)?;
            Ok(bind(alloc, slot, conn)?.into_bytes())
        }
        "keep" => {
            let kept = keep(alloc, slot, number, text.parse::<u8>()?)?;
            Ok(format!(in alloc; "{kept}")?.into_bytes())
        }
        "read" => read(rt, alloc, slot, number, text.parse::<u32>()?),
        "lent" => lent(alloc, slot, number),
        "room" => Ok(format!(in alloc; "{}", in_room(slot, number))?.into_bytes()),
        "unsent" => Ok(format!(in alloc; "{}", unsent_len(slot, number))?.into_bytes()),
        "front" => or_nothing(alloc, front(alloc, slot, number)?),
        "behind" => or_nothing(alloc, pushed(alloc, slot, number, text.parse::<usize>()?)?),
        _ => {
            let reply = reply(rt, alloc, desk, number, word, text)?;
            Ok(format!(in alloc; "{reply:?}")?.into_bytes())
        }
    }
}

/// What a slot tells of itself.
#[derive(Clone, Copy, Debug, PartialEq, Eq)]
struct Look {
    tenancy: u64,
    first: u64,
    part: u32,
    is_over: bool,
    has_request: bool,
    chart_len: usize,
    job: Option<Job>,
    cause: Option<CloseCause>,
}

fn look_at(slot: &Slot) -> Look {
    Look {
        tenancy: slot.tenancy(),
        first: slot.first(),
        part: slot.part(),
        is_over: slot.is_over(),
        has_request: slot.has_request(),
        chart_len: slot.chart_len(),
        job: slot.next_job(),
        cause: slot.cause(),
    }
}

/// All that a slot tells of itself but the number of its tenant.
fn all(alloc: Global, slot: &Slot) -> Result<String, Fail> {
    let look = Look {
        tenancy: 0,
        ..look_at(slot)
    };
    Ok(format!(in alloc; "{look:?}")?)
}

/// The items of the chart.
fn chart(alloc: Global, slot: &Slot) -> Result<String, Fail> {
    let mut text = String::new(alloc);
    for i in 0..slot.chart_len() {
        let item = slot.chart_item(i);
        text.push_str(format!(in alloc; "{item:?};")?.as_str())?;
    }
    Ok(text)
}

/// What a slot tells of itself, by a word.
fn told(alloc: Global, slot: &Slot, word: &str) -> Result<String, Fail> {
    let look = look_at(slot);
    match word {
        "tenancy" => Ok(format!(in alloc; "{}", look.tenancy)?),
        "first" => Ok(format!(in alloc; "{}", look.first)?),
        "part" => Ok(format!(in alloc; "{}", look.part)?),
        "over" => Ok(format!(in alloc; "{}", look.is_over)?),
        "request" => Ok(format!(in alloc; "{}", look.has_request)?),
        "items" => Ok(format!(in alloc; "{}", look.chart_len)?),
        "job" => Ok(format!(in alloc; "{:?}", look.job)?),
        "cause" => Ok(format!(in alloc; "{:?}", look.cause)?),
        "chart" => chart(alloc, slot),
        "all" => all(alloc, slot),
        _ => Err("no word".into()),
    }
}

fn release(rt: &impl Abort, slot: &mut Slot) -> Conn {
    assert!(rt; slot.is_over());
    slot.release()
}

/// Releases the slot, and answers the number of the connection that it hands out.
fn released(rt: &impl Abort, alloc: Global, desk: &mut Desk) -> Result<String, Fail> {
    let conn = release(rt, &mut desk.slot);
    let text = format!(in alloc; "{}", conn.number)?;
    desk.left = Some(conn);
    Ok(text)
}

/// The connection that was handed out comes back.
fn again(alloc: Global, desk: &mut Desk) -> Result<String, Fail> {
    let conn = desk.left.take().ok_or("none was handed out")?;
    bind(alloc, &mut desk.slot, conn)
}

/// What waits for the socket of the connection that was handed out.
fn left(alloc: Global, desk: &mut Desk) -> Result<Vec<u8>, Fail> {
    let mut conn = desk.left.take().ok_or("none was handed out")?;
    let unsent = Vec::from_slice(alloc, conn.line.unsent())?;
    desk.left = Some(conn);
    Ok(unsent)
}

/// What a line asks: a word, maybe with a number, and with a text behind it.
fn answer(rt: &impl Abort, alloc: Global, desk: &mut Desk, line: &str) -> Result<Vec<u8>, Fail> {
    match line.split_once(' ') {
        Some((word, rest)) => {
            let (number, text) = rest.split_once(' ').unwrap_or((rest, ""));
            asked(rt, alloc, desk, number.parse::<u64>()?, word, text)
        }
        None => match line {
            "release" => Ok(released(rt, alloc, desk)?.into_bytes()),
            "again" => Ok(again(alloc, desk)?.into_bytes()),
            "left" => left(alloc, desk),
            _ => Ok(told(alloc, &desk.slot, line)?.into_bytes()),
        },
    }
}

/// That a line is answered as it says behind the sign `=>`.
fn expect_line(rt: &impl Abort, alloc: Global, desk: &mut Desk, line: &str) -> Result<(), Fail> {
    let (asked, wanted) = line.split_once(" => ").ok_or("a line without an answer")?;
    let got = answer(rt, alloc, desk, asked)?;
    let wanted = bytes_of(alloc, wanted)?;
    assert!(rt;
        got == wanted,
        "{line}: {}",
        String::from_utf8_lossy(alloc, &got)?.as_str()
    );
    Ok(())
}

/// A text with this in the place of each `#`.
fn filled(alloc: Global, text: &str, with: &str) -> Result<String, Fail> {
    let mut whole = String::new(alloc);
    for piece in text.chars() {
        if piece == '#' {
            whole.push_str(with)?;
        } else {
            whole.push(piece)?;
        }
    }
    Ok(whole)
}

/// What a slot answers to a tenant for whom no step but `open` would take effect.
const SHUT: &str = "in # x => Ended
run # => Ended
write # x => Ended
read # 3 => Ended ---
return # => Ended
keep # 7 => false
lent # => false no query 0, 256 of 9
room # => 0
unsent # => 0
front # => nothing
behind # 0 => nothing";

/// That each step but `open` is refused that is meant for the tenant of this number, that nothing
/// is told or lent to him, and that nothing changes.
fn expect_shut(rt: &impl Abort, alloc: Global, desk: &mut Desk, tenancy: &str) -> Result<(), Fail> {
    let before = look_at(&desk.slot);
    let lines = filled(alloc, SHUT, tenancy)?;
    for line in lines.lines() {
        expect_line(rt, alloc, desk, line)?;
    }
    assert_eq!(rt; look_at(&desk.slot), before);
    Ok(())
}

/// That each line is answered as it says, and where it is the word `shut` with a number, that the
/// slot is shut to the tenant of this number.
fn expect(rt: &impl Abort, alloc: Global, mut desk: Desk, lines: &str) -> Result<(), Fail> {
    for line in lines.lines() {
        match line.strip_prefix("shut ") {
            Some(tenancy) => expect_shut(rt, alloc, &mut desk, tenancy)?,
            None => expect_line(rt, alloc, &mut desk, line)?,
        }
    }
    Ok(())
}

mod steps;
mod visits;
