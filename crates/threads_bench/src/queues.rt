//! Places that threads put into a queue and take out of it.
ghost use Rattle.std.specs.Prelude.{◌≡◌, ◌≤◌, ◌+◌};

use anyhow::Result;
use cy_queue::{PlaceQueue, Put};
use std::alloc::Global;
use std::sync::Wait;
use std::thread;
use std::thread::Threads;

/// Puts places from the first one on, 64 in turn, and takes one after each that entered, so often.
fn put_and_take<H: Wait>(rt: &H, queue: &PlaceQueue, first: u32, times: u64) -> u64
    requires { (queue.now.places ≡ 256) × (first ≤ 192) }
{
    let mut done = 0u64;
    let mut next = 0u32;
    for _ in 0..u64::MAX {
        if done >= times {
            break;
        }
        if queue.put(rt, first + next % 64) == Put::Put && queue.take(rt).is_some() {
            done += 1;
        }
        next = next.wrapping_add(1);
    }
    done
}

/// The same by two threads.
fn by_two<R: Threads + Wait + Sync>(rt: &R, queue: &PlaceQueue, first: u32, times: u64) -> u64
    requires { (queue.now.places ≡ 256) × (first ≤ 128) }
{
    let (one, two) = thread::join(
        rt,
        ||
            requires { (queue.now.places ≡ 256) × (first ≤ 128) }
        { put_and_take(rt, queue, first, times) },
        ||
            requires { (queue.now.places ≡ 256) × (first ≤ 128) }
        { put_and_take(rt, queue, first + 64, times) },
    );
    one.saturating_add(two)
}

pub fn by_1<R: Threads + Wait + Sync>(rt: &R, alloc: Global, times: u64) -> Result<u64> {
    let queue = PlaceQueue::new(alloc, 256)?;
    Ok(put_and_take(rt, &queue, 0, times))
}

pub fn by_2<R: Threads + Wait + Sync>(rt: &R, alloc: Global, times: u64) -> Result<u64> {
    let queue = PlaceQueue::new(alloc, 256)?;
    Ok(by_two(rt, &queue, 0, times / 2))
}

pub fn by_4<R: Threads + Wait + Sync>(rt: &R, alloc: Global, times: u64) -> Result<u64> {
    let queue = PlaceQueue::new(alloc, 256)?;
    let shared = &queue;
    let (one, two) = thread::join(
        rt,
        ||
            requires { shared.now.places ≡ 256 }
        { by_two(rt, shared, 0, times / 4) },
        ||
            requires { shared.now.places ≡ 256 }
        { by_two(rt, shared, 128, times / 4) },
    );
    Ok(one.saturating_add(two))
}

/// Takes from the first queue and puts into the second, until the first is closed, and then closes the second.
fn answer<H: Wait>(rt: &H, ping: &PlaceQueue, pong: &PlaceQueue) -> u64
    requires { pong.now.places ≡ 1 }
{
    let mut done = 0u64;
    for _ in rt.forever() {
        if ping.take(rt).is_none() {
            break;
        }
        pong.put(rt, 0);
        done = done.saturating_add(1);
    }
    pong.close(rt);
    done
}

/// Puts into the first queue and takes from the second, so often, and then closes the first.
fn ask<H: Wait>(rt: &H, ping: &PlaceQueue, pong: &PlaceQueue, times: u64) -> u64
    requires { ping.now.places ≡ 1 }
{
    let mut done = 0u64;
    for _ in 0..times {
        ping.put(rt, 0);
        if pong.take(rt).is_some() {
            done = done.saturating_add(1);
        }
    }
    ping.close(rt);
    done
}

/// Two threads that wake each other, so often each.
pub fn wakes<R: Threads + Wait + Sync>(rt: &R, alloc: Global, times: u64) -> Result<u64> {
    let first = PlaceQueue::new(alloc, 1)?;
    let second = PlaceQueue::new(alloc, 1)?;
    let ping = &first;
    let pong = &second;
    let (asked, answered) = thread::join(
        rt,
        ||
            requires { ping.now.places ≡ 1 }
        { ask(rt, ping, pong, times) },
        ||
            requires { pong.now.places ≡ 1 }
        { answer(rt, ping, pong) },
    );
    Ok(asked.min(answered))
}
