// What the next tenant of a slot finds of the former one: nothing.
use super::*;

/// What comes to a connection before it sits in a slot, and what its tenant then does, with `#`
/// for his number: what he keeps in each state byte, what he writes, whether the input ends. Each
/// leaves something else in what he uses.
const VISITS: [(&str, &str); 6] = [
    ("GET /a HTTP/1.1~Host: a~~", "keep # 0\nrun #\nwrite #"),
    (
        "GET /a HTTP/1.1~Host: a~~",
        "keep # 5\nrun #\nwrite # hello",
    ),
    (
        "GET /b/long/path?and=query HTTP/1.1~Host: somebody~Cookie: secret~~",
        "keep # 255\nrun #\nwrite # a long content that another may not see",
    ),
    (
        "GET /a HTTP/1.0~Host: a~~",
        "end #\nkeep # 1\nrun #\nwrite # last",
    ),
    ("GET /c?q HTTP/1.1~Host: a~~", "keep # 2\nrun #\nwrite #"),
    ("GET /a?q HTTP/9.9~Host: a~~", "keep # 3\nrun #\nwrite #"),
];

/// What is asked of a slot before the acts of a visit, behind its `bind`.
const ARRIVES: &str = "all\nopen # => Done\nlent #";

/// And what is asked behind them.
const LEAVES: &str = "return #\nall\nrelease\nleft";

/// The lines of a visit. Of those that say nothing behind a sign `=>` the answers are compared with
/// what a tenant gets who is alone: what he is lent, what he is answered, what the slot tells of
/// itself before and after, and what waits for his socket.
fn lines_of(alloc: Global, visit: (&str, &str), tenancy: &str) -> Result<String, Fail> {
    let (bytes, acts) = visit;
    let first = format!(in alloc; "bind 1 {bytes} => bound #")?;
    let lines = format!(in alloc; "{first}\n{}\n{acts}\n{}", ARRIVES, LEAVES)?;
    filled(alloc, &lines, tenancy)
}

/// Appends what a line is answered, or has it answered as it says.
fn go_on(
    rt: &impl Abort,
    alloc: Global,
    desk: &mut Desk,
    line: &str,
    seen: &mut Vec<u8>,
) -> Result<(), Fail> {
    if line.contains(" => ") {
        return expect_line(rt, alloc, desk, line);
    }
    seen.extend_from_slice(&answer(rt, alloc, desk, line)?)?;
    seen.extend_from_slice(b"\n")?;
    Ok(())
}

/// Lets one connection be served in a slot, and tells all that is seen of it.
fn served(
    rt: &impl Abort,
    alloc: Global,
    desk: &mut Desk,
    visit: (&str, &str),
) -> Result<Vec<u8>, Fail> {
    let tenancy = told(alloc, &desk.slot, "tenancy")?;
    let lines = lines_of(alloc, visit, &tenancy)?;
    let mut seen = Vec::new(alloc);
    for line in lines.lines() {
        go_on(rt, alloc, desk, line, &mut seen)?;
    }
    Ok(seen)
}

/// What is seen of a visit in a new slot.
fn alone(rt: &impl Abort, alloc: Global, visit: (&str, &str)) -> Result<Vec<u8>, Fail> {
    let mut desk = new_desk(alloc)?;
    served(rt, alloc, &mut desk, visit)
}

/// That a visit is the same behind each other one.
fn expect_behind_each(rt: &impl Abort, alloc: Global, next: (&str, &str)) -> Result<(), Fail> {
    let wanted = alone(rt, alloc, next)?;
    for former in VISITS {
        let mut desk = new_desk(alloc)?;
        let _former = served(rt, alloc, &mut desk, former)?;
        let seen = served(rt, alloc, &mut desk, next)?;
        assert!(rt; seen == wanted, "{next:?} behind {former:?}");
    }
    Ok(())
}

#[test]
fn the_next_tenant_finds_nothing_of_the_former(rt: HostRuntime) -> Result<(), Fail> {
    for next in VISITS {
        expect_behind_each(&rt, rt.alloc(), next)?;
    }
    Ok(())
}

/// How many connections pass through the two slots.
const CONNECTIONS: usize = 10_000;

/// That the connection of this number is served in this slot as if alone, where this is what is
/// seen of each visit so.
fn expect_alone(
    rt: &impl Abort,
    alloc: Global,
    desk: &mut Desk,
    number: usize,
    alone: &[Vec<u8>],
) -> Result<(), Fail> {
    let visit = number % 6;
    let seen = served(rt, alloc, desk, VISITS[visit])?;
    assert!(rt; alone.get(visit) == Some(&seen), "connection {number}");
    Ok(())
}

#[test]
fn many_connections_pass_through_two_slots(rt: HostRuntime) -> Result<(), Fail> {
    let alloc = rt.alloc();
    let mut seen = Vec::new(alloc);
    for visit in VISITS {
        seen.push(alone(&rt, alloc, visit)?)?;
    }
    let mut desks = [new_desk(alloc)?, new_desk(alloc)?];
    for number in 0..CONNECTIONS {
        expect_alone(&rt, alloc, &mut desks[number / 3 % 2], number, &seen)?;
    }
    let tenancies = [&desks[0], &desks[1]].map(|desk| look_at(&desk.slot).tenancy);
    assert_eq!(rt; tenancies[0].checked_add(tenancies[1]), Some(10_000));
    Ok(())
}
