// The calls of links, doors, readiness, clocks and spawners in memory that pause, fail or give short counts, on tables
// worked out by hand, through the traits.
use super::*;
use std::alloc::{AllocError, Global};
use std::sync::atomic::{AtomicU64, Ordering};
use std::sync::{Arc, Wait};
use std::test::Fail;
use std::thread;
use std::thread::Scope;

/// One read into a slice of so many zeros: the answer, and the slice afterwards.
fn read_once<L: Link>(alloc: Global, link: &mut L, len: usize) -> Result<(Read, Vec<u8>), Fail> {
    let mut into = vec![in alloc; 0u8; len]?;
    if into.is_empty() {
        return Ok((Read::End, into));
    }
    let answer = link.read(into.as_mut_slice());
    Ok((answer, into))
}

/// One write of some bytes.
fn write_once<L: Link>(link: &mut L, bytes: &[u8]) -> Write {
    if bytes.is_empty() {
        return Write::Failed;
    }
    link.write(bytes)
}

/// A piece of these bytes.
fn piece(alloc: Global, bytes: &[u8]) -> Result<Input, AllocError> {
    Ok(Input::Piece(bytes.to_vec(alloc)?))
}

/// A link that reads `abc`, a pause and `de`, fails its second and last read and its second write, and finds room for two
/// bytes, a pause, and then room for all.
fn a_link(alloc: Global) -> Result<MemLink, AllocError> {
    let mut inputs = Vec::new(alloc);
    inputs.push(piece(alloc, b"")?)?;
    inputs.push(piece(alloc, b"abc")?)?;
    inputs.push(Input::Pause)?;
    inputs.push(piece(alloc, b"de")?)?;
    let outputs = vec![in alloc; Output::Room(2), Output::Pause]?;
    let failing_reads = vec![in alloc; 1, 6]?;
    let failing_writes = vec![in alloc; 1]?;
    Ok(MemLink::new(
        inputs,
        outputs,
        Vec::new(alloc),
        failing_reads,
        failing_writes,
    ))
}

#[test]
fn a_link_reads_its_pieces_but_for_pauses_and_faults(rt: HostRuntime) -> Result<(), Fail> {
    let alloc = rt.alloc();
    let mut link = a_link(alloc)?;
    let rows: [(usize, Read, &[u8], u64, u64); 8] = [
        (2, Read::Got(2), b"ab", 0, 0),
        (4, Read::Failed, b"\0\0\0\0", 1, 0),
        (4, Read::Got(1), b"c\0\0\0", 1, 0),
        (4, Read::NotYet, b"\0\0\0\0", 1, 1),
        (4, Read::Got(2), b"de\0\0", 1, 1),
        (1, Read::End, b"\0", 1, 1),
        (1, Read::Failed, b"\0", 2, 1),
        (1, Read::End, b"\0", 2, 1),
    ];
    for (len, answer, bytes, faults, pauses) in rows {
        let (got, into) = read_once(alloc, &mut link, len)?;
        assert_eq!(rt; got, answer);
        assert_eq!(rt; into.as_slice(), bytes);
        assert_eq!(rt;
            (link.in_faults(), link.out_faults(), link.pauses()),
            (faults, 0, pauses)
        );
    }
    Ok(())
}

#[test]
fn a_link_takes_bytes_but_for_pauses_and_faults(rt: HostRuntime) -> Result<(), Fail> {
    let mut link = a_link(rt.alloc())?;
    let rows: [(&[u8], Write, &[u8], u64, u64); 4] = [
        (b"xyz", Write::Took(2), b"xy", 0, 0),
        (b"z", Write::Failed, b"xy", 1, 0),
        (b"z", Write::NotYet, b"xy", 1, 1),
        (b"zuvw", Write::Took(4), b"xyzuvw", 1, 1),
    ];
    for (bytes, answer, taken, faults, pauses) in rows {
        assert_eq!(rt; write_once(&mut link, bytes), answer);
        assert_eq!(rt; link.taken(), taken);
        assert_eq!(rt;
            (link.in_faults(), link.out_faults(), link.pauses()),
            (0, faults, pauses)
        );
    }
    Ok(())
}

/// What an accept answered, in a word.
fn word<L: Drop>(answer: Accepted<L>) -> &'static str {
    match answer {
        Accepted::Link(_) => "link",
        Accepted::NotYet => "not yet",
        Accepted::Failed => "failed",
    }
}

#[test]
fn a_door_gives_its_links_but_for_pauses_and_faults(rt: HostRuntime) -> Result<(), Fail> {
    let alloc = rt.alloc();
    let mut arrivals = Vec::new(alloc);
    arrivals.push(Arrival::Link(a_link(alloc)?))?;
    arrivals.push(Arrival::Pause)?;
    arrivals.push(Arrival::Link(a_link(alloc)?))?;
    let mut door = MemDoor::new(alloc, 8123, arrivals, vec![in alloc; 1, 4]?);
    assert_eq!(rt; door.open(0), Opened::Port(8123));
    assert_eq!(rt; door.open(0), Opened::Failed);
    assert_eq!(rt; door.open(80), Opened::Port(80));
    let rows: [(&str, u64, u64); 5] = [
        ("link", 1, 0),
        ("failed", 2, 0),
        ("not yet", 2, 1),
        ("link", 2, 1),
        ("not yet", 2, 2),
    ];
    for (answer, faults, pauses) in rows {
        assert_eq!(rt; word(door.accept()), answer);
        assert_eq!(rt; (door.faults(), door.pauses()), (faults, pauses));
    }
    Ok(())
}

/// So many events of no place.
fn no_events(alloc: Global, count: usize) -> Result<Vec<Ready>, AllocError> {
    let none = Ready {
        place: 0,
        read: false,
        write: false,
    };
    Vec::from_elem(alloc, none, count)
}

#[test]
fn a_readiness_tells_of_its_places_in_turn(rt: HostRuntime) -> Result<(), Fail> {
    let alloc = rt.alloc();
    let mut link = a_link(alloc)?;
    let mut ready = MemReady::new(vec![in alloc; 1]?, vec![in alloc; 0]?);
    assert!(rt; ready.register(&mut link, 2));
    assert!(rt; !ready.register(&mut link, 5));
    let mut into = no_events(alloc, 2)?;
    let failed = <MemReady as Readiness<MemLink>>::poll(&mut ready, 10, into.as_mut_slice());
    assert_eq!(rt; failed, Polled::Failed);
    let rows: [(u32, u32); 3] = [(0, 1), (2, 0), (1, 2)];
    for (first, second) in rows {
        let polled = <MemReady as Readiness<MemLink>>::poll(&mut ready, 10, into.as_mut_slice());
        assert_eq!(rt; polled, Polled::Events(2));
        assert_eq!(rt; (into[0].place, into[1].place), (first, second));
        assert!(rt; into[0].read && into[0].write && into[1].read && into[1].write);
    }
    assert_eq!(rt; <MemReady as Readiness<MemLink>>::faults(&ready), 2);
    Ok(())
}

#[test]
fn a_clock_gives_its_moments_and_then_the_last(rt: HostRuntime) -> Result<(), Fail> {
    let alloc = rt.alloc();
    let mut clock = ListClock::new(vec![in alloc; 7, 3]?);
    assert_eq!(rt;
        (clock.now(), clock.now(), clock.now(), clock.now()),
        (7, 3, 3, 3)
    );
    let mut empty = ListClock::new(Vec::new(alloc));
    assert_eq!(rt; (empty.now(), empty.now()), (0, 0));
    Ok(())
}

/// Work that adds a number to a sum.
#[derive(Drop)]
struct Adds {
    sum: Arc<AtomicU64, Global>,
    number: u64,
}

impl Task for Adds {
    fn run(self) {
        self.sum.fetch_add(self.number, Ordering::SeqCst);
    }
}

/// Starts work that adds this number, and answers the number where the work came back.
fn start_one<P: Spawner<Adds>>(
    spawner: &mut P,
    sum: &Arc<AtomicU64, Global>,
    number: u64,
) -> Result<Option<u64>, AllocError>
    requires { P.can_start spawner.old }
    ensures { P.can_start spawner.new }
{
    let sum = Arc::try_clone(sum)?;
    let back = spawner.start(Adds { sum, number });
    Ok(back.map(|work| work.number))
}

/// Starts three threads of a scope, but for the starts of these numbers: what came back, and the faults.
fn start_three<'s, E, H: Wait + Sync>(
    rt: &'s H,
    alloc: Global,
    scope: &Scope<'s, E>,
    sum: &Arc<AtomicU64, Global>,
    failing: Vec<u64>,
) -> Result<([Option<u64>; 3], u64), AllocError> {
    let start = |work: Adds| start_in(rt, alloc, scope, work);
    let mut spawner = MemSpawner::new(ScopeSpawner::new(start), failing);
    let first = start_one(&mut spawner, sum, 1)?;
    let second = start_one(&mut spawner, sum, 10)?;
    let third = start_one(&mut spawner, sum, 100)?;
    Ok(([first, second, third], spawner.faults()))
}

#[test]
fn threads_of_a_scope_do_their_work_but_for_the_starts_that_fail(
    rt: HostRuntime,
) -> Result<(), Fail> {
    let alloc = rt.alloc();
    let sum = Arc::new(alloc, AtomicU64::new(0))?;
    let shared = &sum;
    let handle = &rt;
    let failing = vec![in alloc; 1]?;
    let done = thread::scope(thread::scope_env(), &rt, move |scope| {
        start_three(handle, alloc, scope, shared, failing)
    });
    assert_eq!(rt; done, Ok(([None, Some(10), None], 1)));
    assert_eq!(rt; sum.load(Ordering::SeqCst), 101);
    Ok(())
}
