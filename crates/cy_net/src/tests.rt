//! Over real sockets, on the loopback and at ports that the system chose. Each wait is bounded.
use super::*;
use cy_link::{Accepted, Clock, Door, Link, Opened, Polled, Read, Readiness, Ready, Write};
use std::io::{Read as _, Write as _};
use std::net::{IpAddr, Ipv4Addr, SocketAddr, TcpStream};
use std::sync::atomic::{AtomicBool, Ordering};
use std::test::Fail;
use std::time::{Clock as SystemClock, Duration, Instant};
use std::{io, thread};

const LOOPBACK: IpAddr = IpAddr::V4(Ipv4Addr::LOCALHOST);

const NO_EVENT: Ready = Ready {
    place: 0,
    read: false,
    write: false,
};

/// A connection with both its ends, of which one is registered as place 1.
#[derive(Drop)]
struct Pair {
    ready: MioReady,
    link: MioLink,
    peer: TcpStream,
}

/// The next connection of a door.
fn accepted<D: Door<L = MioLink>>(door: &mut D, ready: &mut MioReady) -> Result<MioLink, Fail> {
    for _ in 0..100 {
        match door.accept() {
            Accepted::Link(link) => return Ok(link),
            Accepted::NotYet => {
                let _events = ready.poll(100, &mut [NO_EVENT; 4]);
            }
            Accepted::Failed => return Err("accept failed".into()),
        }
    }
    Err("no connection came".into())
}

/// The port that a door opened.
fn opened(answer: Opened) -> Result<u16, Fail> {
    match answer {
        Opened::Port(port) => Ok(port),
        Opened::Failed => Err("no port".into()),
    }
}

fn connected(rt: &HostRuntime) -> Result<Pair, Fail> {
    let alloc = rt.alloc();
    let mut ready = MioReady::new(rt, alloc, 2)?;
    let mut door = MioDoor::beside(*rt, alloc, LOOPBACK, &ready)?;
    let port = opened(door.open(0))?;
    let peer = TcpStream::connect(rt, SocketAddr::new(LOOPBACK, port))?;
    let mut link = accepted(&mut door, &mut ready)?;
    if !ready.register(&mut link, 1) {
        return Err("not registered".into());
    }
    Ok(Pair { ready, link, peer })
}

/// Polls until an event of place 1 came, of the kind that is asked for.
fn wait_for(ready: &mut MioReady, read: bool) -> Result<(), Fail> {
    for _ in 0..100 {
        let mut into = [NO_EVENT; 4];
        let Polled::Events(count) = ready.poll(100, &mut into) else {
            return Err("poll failed".into());
        };
        for event in &into[..count] {
            if event.place == 1 && (if read { event.read } else { event.write }) {
                return Ok(());
            }
        }
    }
    Err("no event came".into())
}

#[test]
fn a_byte_there_and_back(rt: HostRuntime) -> Result<(), Fail> {
    let mut pair = connected(&rt)?;
    let mut into = [0; 8];
    assert_eq!(rt; pair.link.read(&mut into), Read::NotYet);
    assert_eq!(rt; pair.link.pauses(), 1);
    pair.peer.write_all(b"a")?;
    wait_for(&mut pair.ready, true)?;
    assert_eq!(rt; pair.link.read(&mut into), Read::Got(1));
    assert_eq!(rt; into[0], b'a');
    assert_eq!(rt; pair.link.write(b"b"), Write::Took(1));
    let mut back = [0; 1];
    pair.peer.read_exact(&mut back)?;
    assert_eq!(rt; back, *b"b");
    assert_eq!(rt;
        (
            pair.link.in_faults(),
            pair.link.out_faults(),
            pair.link.pauses()
        ),
        (0, 0, 1)
    );
    Ok(())
}

#[test]
fn a_read_that_emptied_the_socket_is_followed_by_one_that_asks_no_system(
    rt: HostRuntime,
) -> Result<(), Fail> {
    let mut pair = connected(&rt)?;
    let mut into = [0; 8];
    pair.peer.write_all(b"abc")?;
    wait_for(&mut pair.ready, true)?;
    assert_eq!(rt; pair.link.read(&mut into), Read::Got(3));
    // More came since. It is found by the read after the next, for which an event comes.
    pair.peer.write_all(b"defghijkl")?;
    wait_for(&mut pair.ready, true)?;
    assert_eq!(rt; pair.link.read(&mut into), Read::NotYet);
    assert_eq!(rt; pair.link.pauses(), 1);
    assert_eq!(rt; pair.link.read(&mut into), Read::Got(8));
    assert_eq!(rt; pair.link.read(&mut into), Read::Got(1));
    assert_eq!(rt; pair.link.read(&mut into), Read::NotYet);
    assert_eq!(rt; pair.link.read(&mut into), Read::NotYet);
    assert_eq!(rt; pair.link.pauses(), 3);
    Ok(())
}

#[test]
fn a_closed_peer_is_told_at_once_after_its_last_bytes(rt: HostRuntime) -> Result<(), Fail> {
    let Pair {
        mut ready,
        mut link,
        mut peer,
    } = connected(&rt)?;
    peer.write_all(b"abc")?;
    drop(peer);
    thread::sleep(&rt, Duration::from_millis(20));
    wait_for(&mut ready, true)?;
    let mut into = [0; 8];
    assert_eq!(rt; link.read(&mut into), Read::Got(3));
    assert_eq!(rt; link.read(&mut into), Read::End);
    assert_eq!(rt; link.read(&mut into), Read::End);
    assert_eq!(rt; (link.in_faults(), link.pauses()), (0, 0));
    Ok(())
}

#[test]
fn a_reset_peer_is_a_fault_of_each_direction(rt: HostRuntime) -> Result<(), Fail> {
    let Pair {
        mut ready,
        mut link,
        peer,
    } = connected(&rt)?;
    // A peer that closes with bytes unread resets the connection.
    assert_eq!(rt; link.write(b"unread"), Write::Took(6));
    let mut seen = [0; 1];
    assert_eq!(rt; peer.peek(&mut seen)?, 1);
    drop(peer);
    wait_for(&mut ready, true)?;
    assert_eq!(rt; link.read(&mut [0; 8]), Read::Failed);
    assert_eq!(rt; (link.in_faults(), link.out_faults()), (1, 0));
    assert_eq!(rt; link.write(b"more"), Write::Failed);
    assert_eq!(rt;
        (link.in_faults(), link.out_faults(), link.pauses()),
        (1, 1, 0)
    );
    Ok(())
}

#[test]
fn a_full_send_buffer_is_a_pause_until_the_peer_reads(rt: HostRuntime) -> Result<(), Fail> {
    let mut pair = connected(&rt)?;
    let page = [7; 4096];
    let mut sent = 0usize;
    let mut is_full = false;
    for _ in 0..100_000 {
        match pair.link.write(&page) {
            Write::Took(count) => sent = sent.saturating_add(count),
            Write::NotYet => {
                is_full = true;
                break;
            }
            Write::Failed => return Err("write failed".into()),
        }
    }
    assert!(rt; is_full);
    assert_eq!(rt; (pair.link.out_faults(), pair.link.pauses()), (0, 1));
    let mut rest = sent;
    let mut back = [0; 65536];
    for _ in 0..1_000_000 {
        if rest == 0 {
            break;
        }
        let count = pair.peer.read(&mut back)?;
        assert!(rt; back[..count].iter().all(|b| *b == 7));
        rest = rest.saturating_sub(count);
    }
    assert_eq!(rt; rest, 0);
    wait_for(&mut pair.ready, false)?;
    assert_eq!(rt; pair.link.write(&page), Write::Took(4096));
    Ok(())
}

#[test]
fn a_port_in_use_is_refused(rt: HostRuntime) -> Result<(), Fail> {
    let alloc = rt.alloc();
    let mut first = MioDoor::new(rt, alloc, LOOPBACK)?;
    let port = opened(first.open(0))?;
    let mut second = MioDoor::new(rt, alloc, LOOPBACK)?;
    assert_eq!(rt; second.open(port), Opened::Failed);
    assert_eq!(rt; (second.faults(), second.pauses()), (1, 0));
    assert!(rt; matches!(second.accept(), Accepted::NotYet));
    assert_eq!(rt; (second.faults(), second.pauses()), (1, 1));
    // Eight ports can be open, and no more.
    for _ in 0..8 {
        opened(second.open(0))?;
    }
    assert_eq!(rt; second.open(0), Opened::Failed);
    assert_eq!(rt; second.faults(), 2);
    Ok(())
}

#[test]
fn connections_come_from_each_port_in_turn(rt: HostRuntime) -> Result<(), Fail> {
    let alloc = rt.alloc();
    let mut ready = MioReady::new(&rt, alloc, 4)?;
    let mut door = MioDoor::beside(rt, alloc, LOOPBACK, &ready)?;
    let ports = [opened(door.open(0))?, opened(door.open(0))?];
    assert!(rt; matches!(door.accept(), Accepted::NotYet));
    let mut peers = Vec::new(alloc);
    for port in ports {
        for _ in 0..2 {
            peers.push(TcpStream::connect(&rt, SocketAddr::new(LOOPBACK, port))?)?;
        }
    }
    thread::sleep(&rt, Duration::from_millis(100));
    for _ in 0..2 {
        for port in ports {
            let link = accepted(&mut door, &mut ready)?;
            assert_eq!(rt; link.stream.local_addr()?.port(), port);
            // Small pieces go out at once.
            assert!(rt; link.stream.nodelay()?);
        }
    }
    assert!(rt; matches!(door.accept(), Accepted::NotYet));
    assert_eq!(rt; (door.faults(), door.pauses() >= 2), (0, true));
    Ok(())
}

#[test]
fn events_that_find_no_room_come_at_the_next_poll(rt: HostRuntime) -> Result<(), Fail> {
    let alloc = rt.alloc();
    let mut ready = MioReady::new(&rt, alloc, 3)?;
    let mut door = MioDoor::beside(rt, alloc, LOOPBACK, &ready)?;
    let port = opened(door.open(0))?;
    let mut kept = Vec::new(alloc);
    for place in 0..3 {
        let mut peer = TcpStream::connect(&rt, SocketAddr::new(LOOPBACK, port))?;
        let mut link = accepted(&mut door, &mut ready)?;
        peer.write_all(b"x")?;
        assert!(rt; ready.register(&mut link, place));
        kept.push((peer, link))?;
    }
    thread::sleep(&rt, Duration::from_millis(20));
    let mut seen = [false; 3];
    for _ in 0..20 {
        let mut into = [NO_EVENT; 1];
        if ready.poll(10, &mut into) == Polled::Events(1) && into[0].place < 3 {
            seen[into[0].place as usize] = true;
        }
    }
    assert_eq!(rt; seen, [true; 3]);
    assert_eq!(rt; ready.poll(0, &mut []), Polled::Events(0));
    assert_eq!(rt; ready.faults(), 0);
    Ok(())
}

#[test]
fn each_of_257_links_is_told_of(rt: HostRuntime) -> Result<(), Fail> {
    let alloc = rt.alloc();
    let mut ready = MioReady::new(&rt, alloc, 257)?;
    // The door has a readiness of its own, so that no event of a link is taken before all are there.
    let mut waiting = MioReady::new(&rt, alloc, 1)?;
    let mut door = MioDoor::beside(rt, alloc, LOOPBACK, &waiting)?;
    let port = opened(door.open(0))?;
    let mut kept = Vec::new(alloc);
    for place in 0..257u32 {
        let peer = TcpStream::connect(&rt, SocketAddr::new(LOOPBACK, port))?;
        let mut link = accepted(&mut door, &mut waiting)?;
        assert!(rt; ready.register(&mut link, place));
        kept.push((peer, link))?;
    }
    // Each has room to write, once. The system tells of 256 at a time.
    let mut into = vec![in alloc; NO_EVENT; 300]?;
    let mut told = vec![in alloc; 0u32; 257]?;
    for _ in 0..20u32 {
        let Polled::Events(count) = ready.poll(10, into.as_mut_slice()) else {
            return Err("poll failed".into());
        };
        for event in &into[..count] {
            if let Some(times) = told.get_mut(event.place as usize) {
                *times = times.saturating_add(1);
            }
        }
    }
    assert!(rt; told.iter().all(|times| *times == 1));
    Ok(())
}

#[test]
fn a_connection_is_registered_once(rt: HostRuntime) -> Result<(), Fail> {
    let mut pair = connected(&rt)?;
    assert!(rt; !pair.ready.register(&mut pair.link, 0));
    assert_eq!(rt; pair.ready.faults(), 1);
    Ok(())
}

#[test]
fn a_bell_ends_a_poll_that_waits_and_a_link_goes_to_another_thread(
    rt: HostRuntime,
) -> Result<(), Fail> {
    let Pair {
        mut ready,
        mut link,
        mut peer,
    } = connected(&rt)?;
    let bell = ready.bell()?;
    let child = thread::spawn(&rt, move || {
        thread::sleep(&rt, Duration::from_millis(30));
        bell.ring();
        bell.ring();
        link.write(b"!")
    })?;
    let mut is_woken = false;
    for _ in 0..2 {
        // The first poll tells that there is room to write.
        is_woken = ready.poll(60_000, &mut [NO_EVENT; 4]) == Polled::Events(0);
    }
    assert!(rt; is_woken);
    assert_eq!(rt; child.join(&rt), Write::Took(1));
    let mut back = [0; 1];
    peer.read_exact(&mut back)?;
    Ok(())
}

/// Whether a poll for which no event waits ends long before its limit.
fn ends_early(clock: &impl SystemClock, ready: &mut MioReady) -> io::Result<bool> {
    let before = Instant::now(clock)?;
    let polled = ready.poll(15_000, &mut [NO_EVENT; 4]);
    Ok(polled == Polled::Events(0) && before.elapsed(clock)? < Duration::from_secs(10))
}

#[test]
fn each_ring_ends_the_poll_that_waits_or_the_next(rt: HostRuntime) -> Result<(), Fail> {
    let mut ready = MioReady::new(&rt, rt.alloc(), 1)?;
    let bell = ready.bell()?;
    bell.ring();
    assert!(rt; ends_early(&rt, &mut ready)?);
    for _ in 0..2u32 {
        let theirs = ready.bell()?;
        let child = thread::spawn(&rt, move || {
            thread::sleep(&rt, Duration::from_millis(50));
            theirs.ring();
        })?;
        assert!(rt; ends_early(&rt, &mut ready)?);
        child.join(&rt);
        bell.ring();
        assert!(rt; ends_early(&rt, &mut ready)?);
    }
    Ok(())
}

/// A clock that can't be read.
#[derive(Drop)]
struct Stopped;

impl SystemClock for Stopped {
    fn monotonic(&self) -> io::Result<Duration> {
        Err(io::Error::from(io::ErrorKind::Unsupported))
    }

    fn since_1970(&self) -> io::Result<Duration> {
        Err(io::Error::from(io::ErrorKind::Unsupported))
    }
}

#[test]
fn the_clock_tells_milliseconds_since_1970(rt: HostRuntime) {
    let mut clock = SysClock::new(rt);
    let moment = clock.now();
    // From 2026 on, and before the year 2100.
    assert!(rt;
        moment > 1_767_000_000_000 && moment < 4_102_000_000_000,
        "{moment}"
    );
    assert!(rt; clock.now() >= moment);
    assert_eq!(rt; SysClock::new(Stopped).now(), 0);
}

/// A clock that can be read once.
#[derive(Drop)]
struct ReadOnce {
    was_read: AtomicBool,
}

impl SystemClock for ReadOnce {
    fn monotonic(&self) -> io::Result<Duration> {
        Err(io::Error::from(io::ErrorKind::Unsupported))
    }

    fn since_1970(&self) -> io::Result<Duration> {
        if self.was_read.swap(true, Ordering::SeqCst) {
            return Err(io::Error::from(io::ErrorKind::Unsupported));
        }
        Ok(Duration::from_millis(1234))
    }
}

#[test]
fn a_clock_that_fails_tells_its_last_moment_again(rt: HostRuntime) {
    let mut clock = SysClock::new(ReadOnce {
        was_read: AtomicBool::new(false),
    });
    assert_eq!(rt; (clock.now(), clock.now()), (1234, 1234));
}
