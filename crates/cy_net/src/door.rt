//! Listening sockets.
use crate::{MioLink, MioReady};
use cy_link::{Accepted, Door, Opened};
use mio::net::TcpListener;
use mio::{Interest, Registry, Token};
use std::alloc::Global;
use std::io;
use std::io::ErrorKind;
use std::net::{IpAddr, Net, SocketAddr};

/// How many ports a door can open.
pub const MOST_PORTS: usize = 8;

/// The events of listeners, which are of no place.
pub(crate) const DOOR: Token = Token(usize::MAX - 1);

/// Listening sockets at one address. Accepts take from them in turn.
#[derive(Drop)]
pub struct MioDoor<N> {
    net: N,
    address: IpAddr,
    // Whose polls end as a connection comes.
    registry: Option<Registry>,
    listeners: Vec<TcpListener>,
    // The listener that is asked first.
    turn: usize,
    faults: u64,
    pauses: u64,
}

impl<N: Net + Drop> MioDoor<N> {
    /// A door at this address, of which no port is open yet. This alone takes memory.
    pub fn new(net: N, alloc: Global, address: IpAddr) -> io::Result<MioDoor<N>> {
        Ok(MioDoor {
            net,
            address,
            registry: None,
            listeners: Vec::with_capacity(alloc, MOST_PORTS)?,
            turn: 0,
            faults: 0,
            pauses: 0,
        })
    }

    /// A door at this address, of which no port is open yet. A connection that comes ends a poll of `ready` that waits.
    pub fn beside(
        net: N,
        alloc: Global,
        address: IpAddr,
        ready: &MioReady,
    ) -> io::Result<MioDoor<N>> {
        let registry = ready.registry()?;
        let mut door = MioDoor::new(net, alloc, address)?;
        door.registry = Some(registry);
        Ok(door)
    }

    /// A listener at this port, and which port that is.
    fn listen(&self, port: u16) -> io::Result<(TcpListener, u16)> {
        let mut listener = TcpListener::bind(&self.net, SocketAddr::new(self.address, port))?;
        let port = listener.local_addr()?.port();
        if let Some(registry) = &self.registry {
            registry.register(&mut listener, DOOR, Interest::READABLE)?;
        }
        Ok((listener, port))
    }
}

/// What listeners answer to an accept.
#[derive(Drop)]
enum Arrival {
    Link(MioLink),
    None,
    Fault,
}

/// The next connection of this listener.
fn take_from(listener: &TcpListener) -> Arrival {
    match listener.accept() {
        Ok((stream, _)) => match stream.set_nodelay(true) {
            Ok(()) => Arrival::Link(MioLink::new(stream)),
            Err(_) => Arrival::Fault,
        },
        Err(fault) if fault.kind() == ErrorKind::WouldBlock => Arrival::None,
        Err(_) => Arrival::Fault,
    }
}

/// The next connection of these listeners, each of which is asked at most once. The one whose turn it is comes first.
fn take_next(listeners: &[TcpListener], turn: &mut usize) -> Arrival {
    for _ in 0..listeners.len() {
        if *turn >= listeners.len() {
            *turn = 0;
        }
        let arrival = take_from(&listeners[*turn]);
        *turn += 1;
        if !matches!(arrival, Arrival::None) {
            return arrival;
        }
    }
    Arrival::None
}

impl<N: Net + Drop> Door for MioDoor<N> {
    ghost use Rattle.std.specs.Prelude.{None};

    type L = MioLink;

    ghost ports = { λ _. None };

    ghost given = { λ _. None };

    ghost faults = { λ d. d.faults };

    ghost pauses = { λ d. d.pauses };

    fn open(&mut self, port: u16) -> Opened {
        if self.listeners.len() < self.listeners.capacity()
            && let Ok((listener, port)) = self.listen(port)
        {
            self.listeners.push_reserved(listener);
            return Opened::Port(port);
        }
        self.faults = self.faults.saturating_add(1);
        Opened::Failed
    }

    fn accept(&mut self) -> Accepted<MioLink> {
        match take_next(&self.listeners, &mut self.turn) {
            Arrival::Link(link) => Accepted::Link(link),
            Arrival::None => {
                self.pauses = self.pauses.saturating_add(1);
                Accepted::NotYet
            }
            Arrival::Fault => {
                self.faults = self.faults.saturating_add(1);
                Accepted::Failed
            }
        }
    }

    fn faults(&self) -> u64 {
        self.faults
    }

    fn pauses(&self) -> u64 {
        self.pauses
    }
}
