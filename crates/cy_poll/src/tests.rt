//! A table of two places, by rows whose answers were worked out by hand; and the laws.
use super::*;
use cy_link::Ready;
use std::alloc::Global;
use std::process::Abort;
use std::test::Fail;

/// An event: `r` for reading, `w` for writing.
fn event(place: u32, kinds: &str) -> Ready {
    Ready {
        place,
        read: kinds.contains('r'),
        write: kinds.contains('w'),
    }
}

/// A want of one of the places that there are, for reading and for writing.
fn want(rt: &impl Abort, interests: &mut Interests, place: u32, read: bool, write: bool) -> bool {
    assert!(rt; (place as usize) < interests.places());
    interests.want(place, read, write)
}

/// Nobody waits for one of the places that there are.
fn forget(rt: &impl Abort, interests: &mut Interests, place: u32) {
    assert!(rt; (place as usize) < interests.places());
    interests.forget(place);
}

/// The places that these events give.
fn given(alloc: Global, interests: &mut Interests, events: &[Ready]) -> Result<Vec<u32>, NoMemory> {
    let mut into = vec![in alloc; 99u32; events.len()]?;
    let count = interests.sort_events(events, into.as_mut_slice());
    into.truncate(count);
    Ok(into)
}

#[test]
fn events_before_between_and_after_a_want(rt: HostRuntime) -> Result<(), Fail> {
    let alloc = rt.alloc();
    let mut interests = Interests::new(alloc, 2)?;
    // Before: nobody waits, so it is kept, and the want is told of it, once.
    assert!(rt; given(alloc, &mut interests, &[event(1, "r")])?.is_empty());
    assert!(rt; !want(&rt, &mut interests, 0, true, true));
    assert!(rt; want(&rt, &mut interests, 1, true, false));
    assert!(rt; !want(&rt, &mut interests, 1, true, false));
    // Between: a kind that isn't wanted is kept, and one that is wanted gives the place, once.
    assert!(rt; given(alloc, &mut interests, &[event(1, "w")])?.is_empty());
    assert_eq!(rt;
        given(alloc, &mut interests, &[event(1, "r")])?.as_slice(),
        [1].as_slice()
    );
    assert!(rt; given(alloc, &mut interests, &[event(1, "r")])?.is_empty());
    // After: both kinds were kept meanwhile, and are taken one by one.
    assert!(rt; want(&rt, &mut interests, 1, false, true));
    assert!(rt; !want(&rt, &mut interests, 1, false, true));
    assert!(rt; want(&rt, &mut interests, 1, true, true));
    assert!(rt; !want(&rt, &mut interests, 1, true, true));
    Ok(())
}

#[test]
fn each_place_is_given_once_in_the_order_of_the_first_wanted_events(
    rt: HostRuntime,
) -> Result<(), Fail> {
    let alloc = rt.alloc();
    let mut interests = Interests::new(alloc, 4)?;
    for place in [0, 1, 3] {
        assert!(rt; !want(&rt, &mut interests, place, place != 1, place == 1));
    }
    let events = [
        event(4, "rw"),
        event(1, "r"),
        event(3, "r"),
        event(0, "rw"),
        event(u32::MAX, "r"),
        event(3, "rw"),
        event(2, "r"),
        event(1, "w"),
        event(0, "r"),
    ];
    assert_eq!(rt;
        given(alloc, &mut interests, &events)?.as_slice(),
        [3, 0, 1].as_slice()
    );
    // What was kept of these: writing of 0 and 3, reading of 1 and 2. All that was wanted is gone.
    for (place, read, write) in [
        (0, false, true),
        (1, true, false),
        (2, true, false),
        (3, false, true),
    ] {
        assert!(rt; !want(&rt, &mut interests, place, !read, !write), "{place}");
        assert!(rt; want(&rt, &mut interests, place, read, write), "{place}");
        assert!(rt; !want(&rt, &mut interests, place, true, true), "{place}");
    }
    Ok(())
}

#[test]
fn the_newest_want_counts_and_forgetting_drops_all(rt: HostRuntime) -> Result<(), Fail> {
    let alloc = rt.alloc();
    let mut interests = Interests::new(alloc, 2)?;
    assert!(rt; !want(&rt, &mut interests, 0, true, false));
    assert!(rt; !want(&rt, &mut interests, 0, false, true));
    assert!(rt; given(alloc, &mut interests, &[event(0, "r")])?.is_empty());
    assert_eq!(rt;
        given(alloc, &mut interests, &[event(0, "w")])?.as_slice(),
        [0].as_slice()
    );
    assert!(rt; !want(&rt, &mut interests, 0, false, true));
    forget(&rt, &mut interests, 0);
    assert!(rt; !want(&rt, &mut interests, 0, true, false));
    forget(&rt, &mut interests, 0);
    assert!(rt; given(alloc, &mut interests, &[event(0, "r"), event(1, "")])?.is_empty());
    forget(&rt, &mut interests, 1);
    assert!(rt; want(&rt, &mut interests, 0, true, true));
    Ok(())
}

#[test]
fn laws_hold() {
    laws::no_event_is_lost();
    laws::what_is_kept_is_untold();
    laws::want_misses_nothing();
    laws::events_give_who_waits();
}
