use super::*;
use std::test::Fail;

#[test]
fn due_places_come_by_deadline_and_then_place(rt: HostRuntime) -> Result<(), Fail> {
    let mut timers = Timers::new(rt.alloc(), 5)?;
    let mut into = [9; 5];
    assert_eq!(rt; timers.due(u64::MAX, &mut into), 0);
    assert_eq!(rt; into, [9; 5]);
    timers.set(3, 20);
    timers.set(1, 10);
    timers.set(4, 10);
    timers.set(0, 30);
    timers.set(2, 11);
    // now, the places that are due
    let table: [(u64, &[u32]); 7] = [
        (0, &[]),
        (9, &[]),
        (10, &[1, 4]),
        (11, &[1, 4, 2]),
        (20, &[1, 4, 2, 3]),
        (30, &[1, 4, 2, 3, 0]),
        (u64::MAX, &[1, 4, 2, 3, 0]),
    ];
    for (now, places) in &table {
        let mut into = [9; 5];
        let count = timers.due(*now, &mut into);
        assert_eq!(rt; count, places.len(), "at {now}");
        assert!(rt; into.starts_with(places), "at {now}");
    }
    Ok(())
}

#[test]
fn as_many_places_as_fit(rt: HostRuntime) -> Result<(), Fail> {
    let mut timers = Timers::new(rt.alloc(), 3)?;
    timers.set(2, 7);
    timers.set(0, 7);
    timers.set(1, 7);
    let mut into = [9, 9];
    assert_eq!(rt; timers.due(7, &mut into), 2);
    assert_eq!(rt; into, [0, 1]);
    assert_eq!(rt; timers.due(7, &mut []), 0);
    let mut into = [9; 4];
    assert_eq!(rt; timers.due(7, &mut into), 3);
    assert_eq!(rt; into, [0, 1, 2, 9]);
    Ok(())
}

#[test]
fn a_deadline_is_set_again_or_cancelled(rt: HostRuntime) -> Result<(), Fail> {
    let mut timers = Timers::new(rt.alloc(), 3)?;
    timers.set(0, 5);
    timers.set(1, 5);
    timers.set(2, 5);
    timers.set(0, 8);
    timers.set(2, 1);
    timers.cancel(1);
    timers.cancel(1);
    let mut into = [9; 3];
    assert_eq!(rt; timers.due(5, &mut into), 1);
    assert_eq!(rt; into, [2, 9, 9]);
    assert_eq!(rt; timers.due(8, &mut into), 2);
    assert_eq!(rt; into, [2, 0, 9]);
    timers.set(1, u64::MAX);
    timers.set(0, 0);
    assert_eq!(rt; timers.due(u64::MAX, &mut into), 3);
    assert_eq!(rt; into, [0, 2, 1]);
    timers.cancel(2);
    assert_eq!(rt; timers.due(u64::MAX, &mut into), 2);
    assert_eq!(rt; into, [0, 1, 1]);
    Ok(())
}

#[test]
fn no_place_at_all(rt: HostRuntime) -> Result<(), Fail> {
    let timers = Timers::new(rt.alloc(), 0)?;
    assert_eq!(rt; timers.due(u64::MAX, &mut [1, 2]), 0);
    Ok(())
}

#[test]
fn laws_hold() {
    laws::due_is_due();
}
