//! `threads_bench` runs what threads share over and over. Each line of the input names a part and says how often, and is
//! answered by a line with the name and how often it ran.
#![tactic(auto)]

mod pools;
mod queues;

use anyhow::{Context, Result};
use std::alloc::Global;
use std::sync::Wait;
use std::thread::Threads;

/// How often a part ran, or none where no part has that name.
fn run<R: Threads + Wait + Sync>(
    rt: &R,
    alloc: Global,
    part: &str,
    times: u64,
) -> Result<Option<u64>> {
    let done = match part {
        "queue_by_1" => queues::by_1(rt, alloc, times)?,
        "queue_by_2" => queues::by_2(rt, alloc, times)?,
        "queue_by_4" => queues::by_4(rt, alloc, times)?,
        "wakes_by_queue" => queues::wakes(rt, alloc, times)?,
        "pool_by_1" => pools::by_1(rt, alloc, times)?,
        "pool_by_2" => pools::by_2(rt, alloc, times)?,
        "pool_by_4" => pools::by_4(rt, alloc, times)?,
        _ => return Ok(None),
    };
    Ok(Some(done))
}

fn main(rt: HostRuntime) -> Result<()> {
    for line in rt.lines(rt.alloc()) {
        let line = line?;
        let (part, times) = line
            .as_str()
            .split_once(' ')
            .context("a part and a number")?;
        let times = times.parse::<u64>().context("a number of runs")?;
        let done = run(&rt, rt.alloc(), part, times)?.context("the name of a part")?;
        println!(rt; "{part} {done}")?;
    }
    Ok(())
}
