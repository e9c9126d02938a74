//! The acceptor's step over a door of the system: as many links as are counted, and one more.
use cy_accept::{Step1, accept_step};
use cy_latch::{LatchBook, Share};
use cy_link::{Door, Opened, Readiness, Ready};
use cy_net::{MioDoor, MioLink, MioReady};
use std::net::{IpAddr, Ipv4Addr, SocketAddr, TcpStream};
use std::test::Fail;

const LOOPBACK: IpAddr = IpAddr::V4(Ipv4Addr::LOCALHOST);

const NO_EVENT: Ready = Ready {
    place: 0,
    read: false,
    write: false,
};

/// An open door with its latch.
#[derive(Drop)]
struct Entrance {
    ready: MioReady,
    door: MioDoor<HostRuntime>,
    latch: LatchBook,
}

/// A connection that was let in.
#[derive(Drop)]
struct Guest {
    peer: TcpStream,
    link: MioLink,
    share: Share,
}

/// What became of a connection that waits.
#[derive(Drop)]
enum Outcome {
    In(MioLink, Share),
    Full(u64),
    None,
}

/// A latch of so many, and a door at which a port is open. It answers that port too.
fn open_entrance(rt: HostRuntime, limit: u32) -> Result<(Entrance, u16), Fail> {
    let alloc = rt.alloc();
    let ready = MioReady::new(&rt, alloc, 2)?;
    let mut door = MioDoor::beside(rt, alloc, LOOPBACK, &ready)?;
    let latch = LatchBook::new(alloc, limit)?;
    match door.open(0) {
        Opened::Port(port) => Ok((Entrance { ready, door, latch }, port)),
        Opened::Failed => Err("no port".into()),
    }
}

impl Entrance {
    /// Steps until a connection came or the latch is full.
    fn step(&mut self) -> Outcome {
        for _ in 0..100 {
            match accept_step(&mut self.door, &mut self.latch) {
                Step1::In(link, share) => return Outcome::In(link, share),
                Step1::Full { count } => return Outcome::Full(count),
                Step1::Failed => return Outcome::None,
                Step1::NotYet => {
                    let _events = self.ready.poll(100, &mut [NO_EVENT; 4]);
                }
            }
        }
        Outcome::None
    }

    /// Connects, and lets the connection in.
    fn let_in(&mut self, rt: &HostRuntime, port: u16) -> Result<Guest, Fail> {
        let peer = TcpStream::connect(rt, SocketAddr::new(LOOPBACK, port))?;
        match self.step() {
            Outcome::In(link, share) => Ok(Guest { peer, link, share }),
            Outcome::Full(_count) => Err("full".into()),
            Outcome::None => Err("no connection came".into()),
        }
    }

    /// Ends a connection that was let in.
    fn let_out(&mut self, guest: Guest) {
        let Guest { peer, link, share } = guest;
        drop(link);
        drop(peer);
        self.latch.leave(share);
    }
}

/// The count at which one more was kept out.
fn full_at(outcome: Outcome) -> Option<u64> {
    match outcome {
        Outcome::Full(count) => Some(count),
        Outcome::In(_link, _share) => None,
        Outcome::None => None,
    }
}

fn is_in(outcome: Outcome) -> bool {
    match outcome {
        Outcome::In(_link, _share) => true,
        Outcome::Full(_count) => false,
        Outcome::None => false,
    }
}

#[test]
fn a_latch_of_256_lets_256_links_in_and_one_more_for_one_that_left(
    rt: HostRuntime,
) -> Result<(), Fail> {
    let (mut entrance, port) = open_entrance(rt, 256)?;
    let mut guests = Vec::new(rt.alloc());
    for _ in 0..256 {
        guests.push(entrance.let_in(&rt, port)?)?;
    }
    assert_eq!(rt; entrance.latch.count(), 256);
    let _waits = TcpStream::connect(&rt, SocketAddr::new(LOOPBACK, port))?;
    assert_eq!(rt; full_at(entrance.step()), Some(256));
    if let Some(guest) = guests.pop() {
        entrance.let_out(guest);
    }
    assert_eq!(rt; entrance.latch.count(), 255);
    assert!(rt; is_in(entrance.step()));
    assert_eq!(rt; entrance.latch.count(), 256);
    Ok(())
}
