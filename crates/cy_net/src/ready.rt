//! Readiness of sockets.
ghost use Rattle.std.specs.Prelude.{◌≡◌, ◌≤◌, length, IfOk};

use crate::MioLink;
use crate::bell::Bell;
use crate::marks::Marks;
use cy_link::{Polled, Readiness, Ready};
use mio::event::Event;
use mio::{Events, Interest, Poll, Registry, Token, Waker};
use std::alloc::{AllocError, Global};
use std::io;
use std::net::Net;
use std::sync::Arc;
use std::time::Duration;

/// The most events that are taken from the system at once.
const MOST_EVENTS: usize = 256;

/// The events of the bell, which are of no place.
const BELL: Token = Token(usize::MAX);

/// Tells which connections have something to read or room to write. Each is registered once, for both kinds, and an
/// event comes as something changes: after a read or a write has found nothing yet.
#[derive(Drop)]
pub struct MioReady {
    poll: Poll,
    events: Events<Global>,
    // How many of the events were handed out.
    handed: usize,
    marks: Arc<Marks, Global>,
    bell: Arc<Bell, Global>,
    faults: u64,
}

impl MioReady {
    ghost use Rattle.cy_net.specs.Counts.{ready_faults};

    /// Nothing is registered yet. Connections get places below `places`. This alone takes memory.
    pub fn new(net: &impl Net, alloc: Global, places: u32) -> io::Result<MioReady>
        ensures { IfOk result (λ r. ready_faults r ≡ 0) }
    {
        let poll = Poll::new(net)?;
        let waker = Waker::new(poll.registry(), BELL)?;
        let bell = Arc::new(alloc, Bell::new(waker)).map_err(|_| AllocError)?;
        let marks = Arc::new(alloc, Marks::new(alloc, places)?).map_err(|_| AllocError)?;
        Ok(MioReady {
            poll,
            events: Events::with_capacity(alloc, MOST_EVENTS)?,
            handed: 0,
            marks,
            bell,
            faults: 0,
        })
    }

    /// What ends a poll from another thread.
    pub fn bell(&self) -> Result<Arc<Bell, Global>, AllocError> {
        Arc::try_clone(&self.bell)
    }

    pub(crate) fn registry(&self) -> io::Result<Registry> {
        self.poll.registry().try_clone()
    }
}

/// Puts the events that weren't handed out yet at the front of the slice, as many as fit, and answers how many they are.
/// Those of the bell and of listeners are passed over. The places of connections that ended or failed are marked.
fn hand_out(events: &Events, handed: &mut usize, marks: &Marks, into: &mut [Ready]) -> usize
    ensures { result ≤ length into.new }
{
    let mut count = 0;
    for event in events.iter().skip(*handed) {
        if count >= into.len() {
            return count;
        }
        *handed = handed.saturating_add(1);
        if let Ok(place) = u32::try_from(event.token().0) {
            into[count] = ready_for(event, place);
            if event.is_read_closed() || event.is_error() {
                marks.set(place, true);
            }
            count += 1;
        }
    }
    count
}

/// What an event says of a place. A connection that ended or failed has an answer for a read, and one that failed or
/// whose peer takes no more has one for a write.
fn ready_for(event: &Event, place: u32) -> Ready {
    Ready {
        place,
        read: event.is_readable() || event.is_read_closed() || event.is_error(),
        write: event.is_writable() || event.is_write_closed() || event.is_error(),
    }
}

impl Readiness<MioLink> for MioReady {
    ghost use Rattle.cy_net.specs.Counts.{ready_faults};

    ghost faults = { λ r. ready_faults r };

    fn register(&mut self, link: &mut MioLink, place: u32) -> bool {
        self.marks.set(place, false);
        let interest = Interest::READABLE | Interest::WRITABLE;
        let token = Token(place as usize);
        if self
            .poll
            .registry()
            .register(&mut link.stream, token, interest)
            .is_err()
        {
            self.faults = self.faults.saturating_add(1);
            return false;
        }
        link.marks = Arc::try_clone(&self.marks).ok();
        link.place = place;
        true
    }

    fn poll(&mut self, limit: u64, into: &mut [Ready]) -> Polled {
        let count = hand_out(&self.events, &mut self.handed, &self.marks, into);
        if count > 0 {
            return Polled::Events(count);
        }
        self.handed = 0;
        match self
            .poll
            .poll(&mut self.events, Some(Duration::from_millis(limit)))
        {
            Ok(()) => {
                self.bell.quiet();
                Polled::Events(hand_out(&self.events, &mut self.handed, &self.marks, into))
            }
            Err(_) => {
                self.faults = self.faults.saturating_add(1);
                Polled::Failed
            }
        }
    }

    fn faults(&self) -> u64 {
        self.faults
    }
}
