//! Numbers that threads take from a pool and give back.
ghost use Rattle.cy_pool.specs.Stocks.{IsIdleSeatOf};

use anyhow::Result;
use cy_pool::{Pool, Seat};
use std::alloc::Global;
use std::sync::Wait;
use std::thread;
use std::thread::Threads;

/// Takes and gives a number, so often.
fn take_and_give<H: Wait>(rt: &H, pool: &Pool, mut seat: Seat, times: u64) -> u64
    requires { IsIdleSeatOf pool.now seat }
{
    let mut done = 0u64;
    for _ in 0..u64::MAX {
        if done >= times {
            break;
        }
        if let Some(slip) = pool.take(rt, &mut seat) {
            pool.give(rt, &mut seat, slip);
            done += 1;
        }
    }
    done
}

/// The same by two threads.
fn by_two<R: Threads + Wait + Sync>(rt: &R, pool: &Pool, a: Seat, b: Seat, times: u64) -> u64
    requires { IsIdleSeatOf pool.now a × IsIdleSeatOf pool.now b }
{
    let (one, two) = thread::join(
        rt,
        move ||
            requires { IsIdleSeatOf pool.now a }
        { take_and_give(rt, pool, a, times) },
        move ||
            requires { IsIdleSeatOf pool.now b }
        { take_and_give(rt, pool, b, times) },
    );
    one.saturating_add(two)
}

pub fn by_1<R: Threads + Wait + Sync>(rt: &R, alloc: Global, times: u64) -> Result<u64> {
    let (pool, mut keeper) = Pool::new(alloc, 256)?;
    let seat = pool.seat(&mut keeper);
    Ok(take_and_give(rt, &pool, seat, times))
}

pub fn by_2<R: Threads + Wait + Sync>(rt: &R, alloc: Global, times: u64) -> Result<u64> {
    let (pool, mut keeper) = Pool::new(alloc, 256)?;
    let a = pool.seat(&mut keeper);
    let b = pool.seat(&mut keeper);
    Ok(by_two(rt, &pool, a, b, times / 2))
}

pub fn by_4<R: Threads + Wait + Sync>(rt: &R, alloc: Global, times: u64) -> Result<u64> {
    let (pool, mut keeper) = Pool::new(alloc, 256)?;
    let a = pool.seat(&mut keeper);
    let b = pool.seat(&mut keeper);
    let c = pool.seat(&mut keeper);
    let d = pool.seat(&mut keeper);
    let shared = &pool;
    let (one, two) = thread::join(
        rt,
        move ||
            requires { IsIdleSeatOf shared.now a × IsIdleSeatOf shared.now b }
        { by_two(rt, shared, a, b, times / 4) },
        move ||
            requires { IsIdleSeatOf shared.now c × IsIdleSeatOf shared.now d }
        { by_two(rt, shared, c, d, times / 4) },
    );
    Ok(one.saturating_add(two))
}
