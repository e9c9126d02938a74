// What a connection gets behind others in the places that served them: what it gets alone.
use super::*;

/// Takes the step of a line, if there is one, and appends what it is answered.
pub(super) fn go_on(
    rt: &impl Abort,
    alloc: Global,
    world: &mut World,
    conn: u64,
    line: Option<&str>,
    answers: &mut Vec<u8>,
) -> Result<(), Fail> {
    if let Some(line) = line {
        answers.extend_from_slice(&answer(rt, alloc, world, conn, line)?)?;
        answers.extend_from_slice(b"\n")?;
    }
    Ok(())
}

/// Appends all that is told of a connection.
pub(super) fn tell(
    alloc: Global,
    world: &World,
    conn: u64,
    answers: &mut Vec<u8>,
) -> Result<(), Fail> {
    answers.extend_from_slice(&numbers(alloc, world, conn)?)?;
    answers.extend_from_slice(&out(alloc, world, conn)?)?;
    Ok(())
}

/// Takes the whole course of a connection: what it is answered, and what is told of it in the end.
pub(super) fn served(
    rt: &impl Abort,
    alloc: Global,
    world: &mut World,
    conn: u64,
    course: &str,
) -> Result<Vec<u8>, Fail> {
    let mut answers = Vec::new(alloc);
    for line in course.lines() {
        go_on(rt, alloc, world, conn, Some(line), &mut answers)?;
    }
    tell(alloc, world, conn, &mut answers)?;
    Ok(answers)
}

/// What a connection gets that is alone.
pub(super) fn alone(rt: &impl Abort, alloc: Global, course: &str) -> Result<Vec<u8>, Fail> {
    let mut world = world(alloc, 1)?;
    let answers = served(rt, alloc, &mut world, 1, course)?;
    assert_eq!(rt; world.counted(), 0, "{course}");
    Ok(answers)
}

/// What each course gets that is alone.
pub(super) fn each_alone(rt: &impl Abort, alloc: Global) -> Result<Vec<Vec<u8>>, Fail> {
    let mut all = Vec::new(alloc);
    for course in COURSES {
        all.push(alone(rt, alloc, course)?)?;
    }
    Ok(all)
}

/// That a connection gets behind each other one what it gets alone.
fn expect_behind_each(rt: &impl Abort, alloc: Global, next: &str) -> Result<(), Fail> {
    let wanted = alone(rt, alloc, next)?;
    for former in &COURSES {
        let mut world = world(alloc, 1)?;
        let _former = served(rt, alloc, &mut world, 1, former)?;
        let got = served(rt, alloc, &mut world, 2, next)?;
        assert!(rt; got == wanted, "{next} behind {former}");
    }
    Ok(())
}

#[test]
fn the_next_connection_finds_nothing_of_the_former(rt: HostRuntime) -> Result<(), Fail> {
    for next in &COURSES {
        expect_behind_each(&rt, rt.alloc(), next)?;
    }
    Ok(())
}

const FIRST: &str = "1 admit => Entered
1 in GET /a HTTP/1.1~Host: a~~ => Taken 28
1 run => Begun service 0
1 return => Done
1 place => None
1 end => Done
1 took 1000 => Taken 73
1 counted => 0
2 admit => Entered
2 in GET /b HTTP/1.1~Host: a~~ => Taken 28
2 tenant => 1
2 seen => GET/b no queryHosta 1 for 7";

const BESIDE: &str = "3 admit => Entered
3 in GET /a HTTP/1.1~Host: a~~ => Taken 28
3 tenant => 0
4 admit => Full 2
2 run => Begun service 7
2 return => Done
2 in GET /a?again HTTP/1.1~Host: b~~ => Taken 34
2 tenant => 2
2 seen => GET/aagainHostb 1 for 0
2 took 1000 => Taken 73
2 run => Begun service 0
2 return => Done
2 end => Done
2 took 1000 => Taken 73
5 admit => Entered
5 in GET /b HTTP/1.1~Host: a~~ => Taken 28
5 tenant => 3
5 seen => GET/b no queryHosta 1 for 7
3 seen => GET/a no queryHosta 1 for 0";

#[test]
fn a_place_serves_one_connection_behind_the_other(rt: HostRuntime) -> Result<(), Fail> {
    let alloc = rt.alloc();
    let mut world = world(alloc, 2)?;
    expect(&rt, alloc, &mut world, FIRST)?;
    let place = world.place(2);
    expect(&rt, alloc, &mut world, BESIDE)?;
    assert_eq!(rt; world.place(5), place);
    assert!(rt; world.place(3).is_some());
    assert!(rt; world.place(3) != place);
    assert_eq!(rt; world.place(2), None);
    Ok(())
}

/// A connection that goes through the course of this number, how far it is, and what it was answered.
#[derive(Drop)]
pub(super) struct Guest {
    course: usize,
    place: usize,
    answers: Vec<u8>,
}

impl Guest {
    pub(super) fn of(alloc: Global, course: usize) -> Guest {
        Guest {
            course,
            place: 0,
            answers: Vec::new(alloc),
        }
    }
}

/// Takes the next step of a connection, if there is one.
pub(super) fn turn_to(
    rt: &impl Abort,
    alloc: Global,
    world: &mut World,
    conn: u64,
    guest: &mut Guest,
) -> Result<(), Fail> {
    if let Some(course) = COURSES.get(guest.course) {
        let line = course.lines().nth(guest.place);
        go_on(rt, alloc, world, conn, line, &mut guest.answers)?;
        guest.place = guest.place.saturating_add(1);
    }
    Ok(())
}

/// That the connection got what one gets that is alone, where this is what each course gets so.
pub(super) fn expect_alone(
    rt: &impl Abort,
    alloc: Global,
    world: &World,
    conn: u64,
    guest: &mut Guest,
    alone: &[Vec<u8>],
) -> Result<(), Fail> {
    tell(alloc, world, conn, &mut guest.answers)?;
    let wanted = alone.get(guest.course);
    assert!(rt;
        wanted == Some(&guest.answers),
        "{conn} with course {}",
        guest.course
    );
    Ok(())
}

/// How many pairs of connections pass through the two slots.
const PAIRS: u32 = 5_000;

/// Two connections at a time: the one takes four steps before the other, and then they go by turns.
fn pass_two(
    rt: &impl Abort,
    alloc: Global,
    world: &mut World,
    first: u64,
    one: &mut Guest,
    other: &mut Guest,
) -> Result<(), Fail> {
    for _ in 0..4 {
        turn_to(rt, alloc, world, first, one)?;
    }
    for _ in 0..12 {
        turn_to(rt, alloc, world, first.saturating_add(1), other)?;
        turn_to(rt, alloc, world, first, one)?;
    }
    Ok(())
}

/// How many tenants sat before a new connection in the slot in which it comes to sit.
fn tenants_before(
    rt: &impl Abort,
    alloc: Global,
    world: &mut World,
    conn: u64,
) -> Result<u64, Fail> {
    let _entered = answer(rt, alloc, world, conn, "admit")?;
    let _taken = answer(rt, alloc, world, conn, "in GET /a HTTP/1.1~Host: a~~")?;
    let slot = slot_of(world, conn).ok_or("it sits in no slot")?;
    Ok(slot.tenancy())
}

#[test]
fn many_connections_pass_through_two_slots(rt: HostRuntime) -> Result<(), Fail> {
    let alloc = rt.alloc();
    let alone = each_alone(&rt, alloc)?;
    let mut world = world(alloc, 2)?;
    for pair in 0..PAIRS {
        let first = u64::from(pair) * 2;
        let mut one = Guest::of(alloc, pair as usize % 8);
        let mut other = Guest::of(alloc, pair as usize / 8 % 8);
        pass_two(&rt, alloc, &mut world, first, &mut one, &mut other)?;
        expect_alone(&rt, alloc, &world, first, &mut one, &alone)?;
        expect_alone(&rt, alloc, &world, first + 1, &mut other, &alone)?;
    }
    assert_eq!(rt; world.counted(), 0);

    // Of the first eight courses one has three heads and two have none: so there were as many tenants as
    // connections.
    let one = tenants_before(&rt, alloc, &mut world, u64::from(PAIRS) * 2)?;
    let other = tenants_before(&rt, alloc, &mut world, u64::from(PAIRS) * 2 + 1)?;
    assert_eq!(rt; one.checked_add(other), Some(u64::from(PAIRS) * 2));
    Ok(())
}
