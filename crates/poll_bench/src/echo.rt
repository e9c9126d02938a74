//! 64 connections over sockets, whose messages one thread sends back.

use crate::table::Table;
use anyhow::{Context, Result, bail};
use cy_accept::{Step1, accept_step};
use cy_latch::{LatchBook, Share};
use cy_link::{Door, Link, Opened, Polled, Read, Readiness, Ready, Write};
use cy_net::{MioDoor, MioLink, MioReady};
use std::alloc::Global;
use std::io::{Read as _, Write as _};
use std::net::{IpAddr, Ipv4Addr, Net, SocketAddr};

/// How many connections there are.
const CONNECTIONS: u32 = 64;

/// The bytes of a message.
const MESSAGE: usize = 100;

const LOOPBACK: IpAddr = IpAddr::V4(Ipv4Addr::LOCALHOST);

/// Sends back what a connection sent, until there is nothing to read, and counts the messages. Answers whether the
/// connection is over.
fn send_back(link: &mut MioLink, table: &mut Table, place: u32, sent: &mut u64) -> Result<bool> {
    let mut page = [0; 4096];
    for _ in 0..u64::MAX {
        match link.read(&mut page) {
            Read::Got(count) => {
                if link.write(&page[..count]) != Write::Took(count) {
                    bail!("a message was not taken whole");
                }
                *sent = sent.saturating_add(1);
            }
            Read::NotYet => {
                if !table.want(place, true, false) {
                    return Ok(false);
                }
            }
            Read::End | Read::Failed => break,
        }
    }
    table.forget(place);
    Ok(true)
}

/// One thread's connections.
#[derive(Drop)]
struct Server {
    ready: MioReady,
    table: Table,
    latch: LatchBook,
    links: Vec<MioLink>,
    shares: Vec<Option<Share>>,
    sent: u64,
    over: u32,
}

impl Server {
    fn new<R: Net>(rt: &R, alloc: Global) -> Result<Server> {
        Ok(Server {
            ready: MioReady::new(rt, alloc, CONNECTIONS)?,
            table: Table::new(alloc)?,
            latch: LatchBook::new(alloc, CONNECTIONS)?,
            links: Vec::with_capacity(alloc, CONNECTIONS as usize)?,
            shares: Vec::with_capacity(alloc, CONNECTIONS as usize)?,
            sent: 0,
            over: 0,
        })
    }

    /// Lets in all that wait at the door, each at the next place.
    fn let_in<D: Door<L = MioLink>>(&mut self, door: &mut D) -> Result<()> {
        for _ in 0..CONNECTIONS {
            match accept_step(door, &mut self.latch) {
                Step1::In(mut link, share) => {
                    let place = u32::try_from(self.links.len()).unwrap_or(u32::MAX);
                    if !self.ready.register(&mut link, place) {
                        bail!("not registered");
                    }
                    self.links.push(link)?;
                    self.shares.push(Some(share))?;
                    self.go_on(place)?;
                }
                Step1::NotYet | Step1::Full { .. } => break,
                Step1::Failed => bail!("accept failed"),
            }
        }
        Ok(())
    }

    /// Sends back what the place has sent. One that ended leaves its share.
    fn go_on(&mut self, place: u32) -> Result<()> {
        let i = place as usize;
        if i >= self.links.len() || i >= self.shares.len() {
            return Ok(());
        }
        if send_back(&mut self.links[i], &mut self.table, place, &mut self.sent)?
            && let Some(share) = self.shares[i].take()
        {
            self.latch.leave(share);
            self.over = self.over.saturating_add(1);
        }
        Ok(())
    }

    /// Waits for events, and goes on with the places that they give.
    fn poll(&mut self) -> Result<()> {
        let mut events = [Ready {
            place: 0,
            read: false,
            write: false,
        }; 256];
        let mut places = [0; 256];
        let Polled::Events(count) = self.ready.poll(100, &mut events) else {
            bail!("poll failed");
        };
        let given = self
            .table
            .sort_events(&events[..count], &mut places[..count]);
        for place in &places[..given] {
            self.go_on(*place)?;
        }
        Ok(())
    }

    /// Serves until all connections came and ended, and answers how many messages were sent back.
    fn serve<D: Door<L = MioLink>>(&mut self, door: &mut D) -> Result<u64> {
        for _ in 0..u64::MAX {
            if self.over >= CONNECTIONS {
                break;
            }
            if self.links.len() < CONNECTIONS as usize {
                self.let_in(door)?;
            }
            self.poll()?;
        }
        Ok(self.sent)
    }
}

/// Opens a door at a port that the system chooses.
fn open<'r, R: Net>(rt: &'r R, alloc: Global, server: &Server) -> Result<(MioDoor<&'r R>, u16)> {
    let mut door = MioDoor::beside(rt, alloc, LOOPBACK, &server.ready)?;
    match door.open(0) {
        Opened::Port(port) => Ok((door, port)),
        Opened::Failed => bail!("no port"),
    }
}

/// Writes the port, and serves 64 connections there, of so many messages in all.
pub fn serve<R: Net + Print>(rt: &R, alloc: Global, times: u64) -> Result<u64> {
    let mut server = Server::new(rt, alloc)?;
    let (mut door, port) = open(rt, alloc, &server)?;
    println!(rt; "port {port}")?;
    let sent = server.serve(&mut door)?;
    if sent != times {
        bail!("{sent} messages were sent back");
    }
    Ok(sent)
}

/// 64 connections to this port.
fn connect<R: Net>(rt: &R, alloc: Global, port: u16) -> Result<Vec<R::Stream>> {
    let address = SocketAddr::new(LOOPBACK, port);
    let mut streams = Vec::new(alloc);
    for _ in 0..CONNECTIONS {
        streams.push(rt.connect(address)?)?;
    }
    Ok(streams)
}

/// Sends a message over each connection.
fn send_all<S: std::io::Write>(streams: &mut Vec<S>) -> Result<()> {
    for stream in streams.iter_mut() {
        stream.write_all(&[b'm'; MESSAGE])?;
    }
    Ok(())
}

/// Reads the message back from each connection, and answers how many came.
fn take_all<S: std::io::Read>(streams: &mut Vec<S>) -> Result<u64> {
    let mut done = 0u64;
    for stream in streams.iter_mut() {
        let mut back = [0; MESSAGE];
        stream.read_exact(&mut back)?;
        if back != [b'm'; MESSAGE] {
            bail!("another message came back");
        }
        done = done.saturating_add(1);
    }
    Ok(done)
}

/// Sends so many messages in all over 64 connections to this port, one on each and then the next, and reads them back.
pub fn ask<R: Net>(rt: &R, alloc: Global, port: u16, times: u64) -> Result<u64> {
    let mut streams = connect(rt, alloc, port)?;
    let mut done = 0u64;
    for _ in 0..times / u64::from(CONNECTIONS) {
        send_all(&mut streams)?;
        done = done.saturating_add(take_all(&mut streams)?);
    }
    Ok(done)
}

/// Both sides in one thread, so many messages in all.
pub fn both<R: Net>(rt: &R, alloc: Global, times: u64) -> Result<u64> {
    let mut server = Server::new(rt, alloc)?;
    let (mut door, port) = open(rt, alloc, &server)?;
    let mut streams = connect(rt, alloc, port)?;
    server.let_in(&mut door)?;
    let mut done = 0u64;
    for _ in 0..times / u64::from(CONNECTIONS) {
        send_all(&mut streams)?;
        let wanted = done.saturating_add(u64::from(CONNECTIONS));
        for _ in 0..1000 {
            if server.sent >= wanted {
                break;
            }
            server.poll()?;
        }
        done = done.saturating_add(take_all(&mut streams)?);
    }
    drop(streams);
    Ok(server.serve(&mut door)?.min(done))
}
