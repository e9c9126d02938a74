//! The state table.

use cy_event::{Call, Reply};
use cy_states::{MOST_ITEMS, Machine};
use std::alloc::{AllocError, Global};

/// The calls of a request without asynchronous processing.
const PLAIN: [Call; 2] = [Call::Run, Call::Return];

/// Those of one that another thread completes.
const COMPLETED: [Call; 5] = [
    Call::Run,
    Call::Start,
    Call::Return,
    Call::CompleteOther,
    Call::Return,
];

/// Those of one whose component reads twice, and then fails.
const FAILED: [Call; 10] = [
    Call::Run,
    Call::Start,
    Call::Return,
    Call::Run,
    Call::Return,
    Call::Run,
    Call::Return,
    Call::Fault,
    Call::Return,
    Call::Return,
];

/// Those of one that another thread dispatches back while a callback runs.
const DISPATCHED: [Call; 6] = [
    Call::Run,
    Call::Start,
    Call::DispatchOther,
    Call::Return,
    Call::Run,
    Call::Return,
];

/// A multiplier that scatters numbers (Knuth, 6.4).
const SCATTER: u64 = 0x9e37_79b9_7f4a_7c15;

/// The calls of 256 requests of the four sorts, in an order that the seed gives.
fn calls_of_requests(alloc: Global, seed: u64) -> Result<Vec<Call>, AllocError> {
    let mut calls = Vec::new(alloc);
    for i in 0..256u64 {
        match seed.wrapping_add(i).wrapping_mul(SCATTER) >> 62 {
            0 => calls.extend_from_slice(&PLAIN)?,
            1 => calls.extend_from_slice(&COMPLETED)?,
            2 => calls.extend_from_slice(&FAILED)?,
            _ => calls.extend_from_slice(&DISPATCHED)?,
        }
    }
    Ok(calls)
}

/// Makes so many calls, or a few fewer, of requests that follow each other.
pub fn machine_calls(alloc: Global, times: u64) -> Result<u64, AllocError> {
    let calls = calls_of_requests(alloc, times)?;
    let mut machine = Machine::new(alloc)?;
    let mut sum = 0u64;
    for _ in 0..times / (calls.len() as u64).max(1) {
        for call in &calls {
            if machine.ended() || machine.chart_len() >= MOST_ITEMS {
                machine.clear();
            }
            sum = sum.wrapping_add(worth(machine.call(*call)));
        }
    }
    Ok(sum)
}

fn worth(reply: Reply) -> u64 {
    match reply {
        Reply::Done => 1,
        Reply::Wake => 2,
        _ => 1 << 32,
    }
}
