//! `world_tests` takes the steps of eleven connections, one behind the other in the one place of a
//! connector, and prints what each is answered. The input is a number: so many allocations are made
//! before. Where one of those behind them is refused, by `rt try --fail-alloc`, a step for which
//! memory ran out is taken again, once all that the connector tells was seen to be as before.
#![tactic(auto)]

mod connector;
mod courses;
mod lines;
mod memory;

use crate::connector::{may_take, world};
use crate::lines::steps_of_all;
use crate::memory::{View, insist};
use anyhow::{Context, Result, bail};
use cy_event::Step;
use cy_world::{Replied, World};
use std::alloc::Global;

/// What is had before the first step.
#[derive(Drop)]
struct Trial {
    /// Allocations that are made so that a later one is refused.
    spent: Vec<Vec<u8>>,
    world: World,
    steps: Vec<Step>,
    before: View,
    after: View,
}

/// So many allocations, and one more where there are any.
fn spend(alloc: Global, count: usize) -> Result<Vec<Vec<u8>>> {
    let mut spent = Vec::with_capacity(alloc, count)?;
    for _ in 0..count {
        spent.push(vec![in alloc; 0u8; 8]?)?;
    }
    Ok(spent)
}

impl Trial {
    fn new(alloc: Global, count: usize) -> Result<Trial> {
        Ok(Trial {
            spent: spend(alloc, count)?,
            world: world(alloc, 1)?,
            steps: steps_of_all(alloc)?,
            before: View::new(alloc)?,
            after: View::new(alloc)?,
        })
    }
}

/// Prints what a step is answered, and the bytes that it got. It takes no memory.
fn print_answer(rt: &HostRuntime, replied: &Replied) -> Result<()> {
    let reply = replied.reply;
    match str::from_utf8(replied.got.as_slice()) {
        Ok("") => println!(rt; "{reply:?}")?,
        Ok(got) => println!(rt; "{reply:?} {got}")?,
        Err(_) => bail!("the bytes of a body are no text"),
    }
    Ok(())
}

fn main(rt: HostRuntime) -> Result<()> {
    let alloc = rt.alloc();
    let mut count = 0;
    for line in rt.lines(alloc) {
        count = line?.as_str().parse::<usize>().context("no number")?;
    }
    let Ok(mut trial) = Trial::new(alloc, count) else {
        println!(rt; "no memory before the first step")?;
        return Ok(());
    };
    for step in &trial.steps {
        let (replied, was_refused) = insist(
            alloc,
            &mut trial.world,
            step,
            &mut trial.before,
            &mut trial.after,
        )?;
        if was_refused {
            println!(rt; "no memory for the next step, which is taken again")?;
        }
        print_answer(&rt, &replied)?;
    }
    if Vec::<u8>::with_capacity(alloc, 8).is_err() {
        println!(rt; "no memory behind the last step")?;
    }
    Ok(())
}

#[cfg(test)]
mod tests;
