//! `parts_bench` runs parts of a connector over and over. Each line of the input names one and says how often, and is
//! answered by a line with the name and a checksum of what was computed.
#![tactic(auto)]

mod answers;
mod bodies;
mod heads;
mod latch;
mod map;
mod states;
mod targets;
mod timers;

use anyhow::{Context, Result};
use std::alloc::Global;

/// The checksum of so many runs of a part, or none where no part has that name.
fn run(alloc: Global, part: &str, times: u64) -> Result<Option<u64>> {
    let checksum = match part {
        "heads_of_100" => heads::heads_of_100(alloc, times)?,
        "heads_of_1000" => heads::heads_of_1000(alloc, times)?,
        "heads_of_8000" => heads::heads_of_8000(alloc, times)?,
        "plain_targets" => targets::plain_targets(alloc, times)?,
        "spelled_targets" => targets::spelled_targets(alloc, times)?,
        "framings" => targets::framings(alloc, times)?,
        "map_of_1" => map::map_of_1(alloc, times)?,
        "map_of_1024" => map::map_of_1024(alloc, times)?,
        "machine_calls" => states::machine_calls(alloc, times)?,
        "enter_and_leave_of_1" => latch::enter_and_leave_of_1(alloc, times)?,
        "enter_and_leave_of_8192" => latch::enter_and_leave_of_8192(alloc, times)?,
        "timers_set" => timers::timers_set(alloc, times)?,
        "timers_set_later" => timers::timers_set_later(alloc, times)?,
        "timers_due" => timers::timers_due(alloc, times)?,
        "pieces_of_8192" => answers::pieces_of_8192(alloc, times)?,
        "answers_of_100" => answers::answers_of_100(alloc, times)?,
        "bodies_of_8192" => bodies::bodies_of_8192(alloc, times)?,
        "chunks_of_1000" => bodies::chunks_of_1000(alloc, times)?,
        "chunks_of_1" => bodies::chunks_of_1(alloc, times)?,
        "scans_of_1000" => bodies::scans_of_1000(alloc, times)?,
        "scans_of_15999" => bodies::scans_of_15999(alloc, times)?,
        _ => return Ok(None),
    };
    Ok(Some(checksum))
}

fn main(rt: HostRuntime) -> Result<()> {
    for line in rt.lines(rt.alloc()) {
        let line = line?;
        let (part, times) = line
            .as_str()
            .split_once(' ')
            .context("a part and a number")?;
        let times = times.parse::<u64>().context("a number of runs")?;
        let checksum = run(rt.alloc(), part, times)?.context("the name of a part")?;
        println!(rt; "{part} {checksum}")?;
    }
    Ok(())
}
