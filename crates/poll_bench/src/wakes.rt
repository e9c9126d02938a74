//! Two threads that wake each other out of their polls.

use anyhow::Result;
use cy_link::{Polled, Readiness, Ready};
use cy_net::{Bell, MioReady};
use std::alloc::Global;
use std::net::Net;
use std::thread;
use std::thread::Threads;

/// As long as a poll waits that nobody wakes, in milliseconds.
const LIMIT: u64 = 10_000;

/// Polls until it is woken, so often, and rings each time. The one that begins rings first.
fn wake(ready: &mut MioReady, bell: &Bell, begins: bool, times: u64) -> u64 {
    let mut into = [Ready {
        place: 0,
        read: false,
        write: false,
    }; 1];
    let mut done = 0u64;
    for _ in 0..times {
        if begins {
            bell.ring();
        }
        if ready.poll(LIMIT, &mut into) == Polled::Events(0) {
            done = done.saturating_add(1);
        }
        if !begins {
            bell.ring();
        }
    }
    done
}

/// Two threads that wake each other, so often each.
pub fn wakes<R: Net + Threads + Sync>(rt: &R, alloc: Global, times: u64) -> Result<u64> {
    let mut first = MioReady::new(rt, alloc, 1)?;
    let mut second = MioReady::new(rt, alloc, 1)?;
    let first_bell = first.bell()?;
    let second_bell = second.bell()?;
    let (one, two) = thread::join(
        rt,
        || wake(&mut first, &second_bell, true, times),
        || wake(&mut second, &first_bell, false, times),
    );
    Ok(one.min(two))
}
