//! `poll_bench` runs what a poller does over and over. Each line of the input names a part and says how often, and is
//! answered by a line with the name and how often it ran. `serve` first writes the port at which it serves, and `ask`
//! is told a port with its name, as `ask_8080`.
#![tactic(auto)]

mod echo;
mod table;
#[cfg(test)]
mod tests;
mod wakes;

use anyhow::{Context, Result};
use std::alloc::Global;
use std::net::Net;
use std::sync::Wait;
use std::thread::Threads;

/// How often a part ran, or none where no part has that name.
fn run<R: Net + Threads + Wait + Print + Sync>(
    rt: &R,
    alloc: Global,
    part: &str,
    times: u64,
) -> Result<Option<u64>> {
    let done = match part {
        "want" => table::want(alloc, times)?,
        "sort_given" => table::sort_given(alloc, times)?,
        "sort_kept" => table::sort_kept(alloc, times)?,
        "want_by_1" => table::by_1(rt, times, alloc)?,
        "want_by_2" => table::by_2(rt, times, alloc)?,
        "want_by_4" => table::by_4(rt, times, alloc)?,
        "wakes_by_poll" => wakes::wakes(rt, alloc, times)?,
        "echo" => echo::both(rt, alloc, times)?,
        "serve" => echo::serve(rt, alloc, times)?,
        _ => match part.strip_prefix("ask_") {
            Some(port) => echo::ask(rt, alloc, port.parse::<u16>().context("a port")?, times)?,
            None => return Ok(None),
        },
    };
    Ok(Some(done))
}

fn main(rt: HostRuntime) -> Result<()> {
    for line in rt.lines(rt.alloc()) {
        let line = line?;
        let (part, times) = line
            .as_str()
            .split_once(' ')
            .context("a part and a number")?;
        let times = times.parse::<u64>().context("a number of runs")?;
        let done = run(&rt, rt.alloc(), part, times)?.context("the name of a part")?;
        println!(rt; "{part} {done}")?;
    }
    Ok(())
}
