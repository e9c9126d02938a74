//! `world_bench` takes steps of a connector over and over. Each line of the input names a part with
//! the number of places of the connector, as `open_64`, and says how often, and is answered by a
//! line with the name and how often the part did what it should. How many nanoseconds that took
//! goes to the standard error: what is made ready before isn't in it.
#![tactic(auto)]

mod connector;
mod request;

use crate::connector::Connector;
use anyhow::{Context, Result, bail};
use std::alloc::Global;
use std::time::{Clock, Instant};

/// As many connections are gone where some are.
const GONE: u64 = 20_000;

/// The most places of a connector.
const MOST_PLACES: u32 = 8192;

/// A connector of so many places, as a part finds it.
fn made_ready(alloc: Global, kind: &str, places: u32) -> Result<Connector> {
    let mut connector = Connector::new(alloc, places)?;
    match kind {
        "get" | "full" => connector.fill(places)?,
        "open" => {
            connector.fill(places)?;
            connector.spread()?;
        }
        "beside" => {
            if connector.pass_some(GONE) != GONE {
                bail!("a connection was not served");
            }
            connector.fill(places)?;
            connector.spread()?;
        }
        _ => {}
    }
    Ok(connector)
}

/// How often a part did what it should, or none where no part has that name.
fn run(connector: &mut Connector, kind: &str, times: u64) -> Option<u64> {
    let done = match kind {
        "open" | "beside" => connector.step_by_turns(times),
        "get" => connector.get_by_turns(times),
        "pass" => connector.pass_some(times),
        "full" => connector.refuse_some(times),
        "admit" => connector.admit_some(times),
        "sit" => connector.sit_some(times),
        _ => return None,
    };
    Some(done)
}

/// Makes connectors of so many places.
fn make_some(alloc: Global, places: u32, times: u64) -> Result<u64> {
    let mut done = 0u64;
    for _ in 0..times {
        let connector = Connector::new(alloc, places)?;
        if connector.counted() == 0 {
            done = done.saturating_add(1);
        }
    }
    Ok(done)
}

/// How often the part of a name did what it should, and how many nanoseconds it took.
fn measure<R: Clock>(rt: &R, alloc: Global, part: &str, times: u64) -> Result<(u64, u128)> {
    let (kind, places) = part.split_once('_').context("a part and a number")?;
    let places = places.parse::<u32>().context("a number of places")?;
    if places == 0 || places > MOST_PLACES {
        bail!("no such number of places");
    }
    if kind == "make" {
        let begin = Instant::now(rt)?;
        let done = make_some(alloc, places, times)?;
        return Ok((done, begin.elapsed(rt)?.as_nanos()));
    }
    let mut connector = made_ready(alloc, kind, places)?;
    let begin = Instant::now(rt)?;
    let done = run(&mut connector, kind, times).context("the name of a part")?;
    Ok((done, begin.elapsed(rt)?.as_nanos()))
}

fn main(rt: HostRuntime) -> Result<()> {
    for line in rt.lines(rt.alloc()) {
        let line = line?;
        let (part, times) = line
            .as_str()
            .split_once(' ')
            .context("a part and a number")?;
        let times = times.parse::<u64>().context("a number of times")?;
        let (done, nanos) = measure(&rt, rt.alloc(), part, times)?;
        eprintln!(rt; "{part} {times} {nanos}")?;
        println!(rt; "{part} {done}")?;
    }
    Ok(())
}
