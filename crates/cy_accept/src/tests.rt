//! A door in memory at which links come, pause and fail, before a latch of two; and the law.
use super::*;
use cy_latch::{LatchBook, Share};
use cy_link::{Arrival, Door, MemDoor, MemLink};
use std::alloc::Global;
use std::test::Fail;

/// A link that has nothing to read.
fn silent(alloc: Global) -> MemLink {
    MemLink::new(
        Vec::new(alloc),
        Vec::new(alloc),
        Vec::new(alloc),
        Vec::new(alloc),
        Vec::new(alloc),
    )
}

/// A word for what a step answers; the share of a connection that came is kept.
fn word_of(step: Step1<MemLink>, shares: &mut Vec<Share>) -> Result<&'static str, Fail> {
    match step {
        Step1::In(_link, share) => {
            shares.push(share)?;
            Ok("in")
        }
        Step1::NotYet => Ok("not yet"),
        Step1::Full { count: 2 } => Ok("full at 2"),
        Step1::Full { .. } => Ok("full"),
        Step1::Failed => Ok("failed"),
    }
}

#[test]
fn a_latch_of_two_lets_two_in(rt: HostRuntime) -> Result<(), Fail> {
    let alloc = rt.alloc();
    let arrivals = vec![in alloc;
        Arrival::Link(silent(alloc)),
        Arrival::Pause,
        Arrival::Link(silent(alloc)),
        Arrival::Link(silent(alloc)),
    ]?;
    let mut door = MemDoor::new(alloc, 80, arrivals, vec![in alloc; 1, 5]?);
    let mut latch = LatchBook::new(alloc, 2)?;
    let mut shares = Vec::new(alloc);
    // What the step answers, the latch's count, the door's faults and pauses.
    let rows: [(&str, u64, u64, u64); 6] = [
        ("in", 1, 0, 0),
        ("failed", 1, 1, 0),
        ("not yet", 1, 1, 1),
        ("in", 2, 1, 1),
        ("full at 2", 2, 1, 1),
        ("full at 2", 2, 1, 1),
    ];
    for (answer, count, faults, pauses) in rows {
        let step = accept_step(&mut door, &mut latch);
        assert_eq!(rt; word_of(step, &mut shares)?, answer);
        assert_eq!(rt; latch.count(), count);
        assert_eq!(rt; door.faults(), faults);
        assert_eq!(rt; door.pauses(), pauses);
    }
    // A share that is left lets one in again. The fourth call of the door is the first that it was asked since.
    latch.leave(shares.pop().ok_or("a share")?);
    let rows: [(&str, u64, u64, u64); 3] = [
        ("in", 2, 1, 1),
        ("full at 2", 2, 1, 1),
        ("full at 2", 2, 1, 1),
    ];
    for (answer, count, faults, pauses) in rows {
        let step = accept_step(&mut door, &mut latch);
        assert_eq!(rt; word_of(step, &mut shares)?, answer);
        assert_eq!(rt; latch.count(), count);
        assert_eq!(rt; door.faults(), faults);
        assert_eq!(rt; door.pauses(), pauses);
    }
    latch.leave(shares.pop().ok_or("a share")?);
    assert_eq!(rt;
        word_of(accept_step(&mut door, &mut latch), &mut shares)?,
        "failed"
    );
    assert_eq!(rt; latch.count(), 1);
    Ok(())
}

#[test]
fn a_latch_of_none_asks_no_door(rt: HostRuntime) -> Result<(), Fail> {
    let alloc = rt.alloc();
    let arrivals = vec![in alloc; Arrival::Link(silent(alloc))]?;
    let mut door = MemDoor::new(alloc, 80, arrivals, vec![in alloc; 0]?);
    let mut latch = LatchBook::new(alloc, 0)?;
    let is_full = matches!(accept_step(&mut door, &mut latch), Step1::Full { count: 0 });
    assert!(rt; is_full);
    assert_eq!(rt; door.faults(), 0);
    Ok(())
}

#[test]
fn laws_hold() {
    laws::latch_counts_connections();
}
