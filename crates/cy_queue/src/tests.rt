// The answers of a queue for two places, and threads that share one.
ghost use Rattle.std.specs.Prelude.{◌≡◌};

use super::*;
use std::sync::Wait;
use std::sync::atomic::{AtomicBool, Ordering};
use std::test::Fail;
use std::thread;
use std::time::{Clock, Duration};

#[test]
fn a_place_stands_once_and_none_enters_after_the_close(rt: HostRuntime) -> Result<(), Fail> {
    let mut line = Places::new(rt.alloc(), 2)?;
    assert_eq!(rt; line.places(), 2);
    assert_eq!(rt; (line.put(1), line.put(1)), (Put::Put, Put::AlreadyThere));
    assert!(rt; !line.is_empty() && !line.is_closed());
    line.close();
    assert_eq!(rt; line.put(0), Put::Closed);
    assert_eq!(rt; (line.pop(), line.pop()), (Some(1), None));
    assert!(rt; line.is_empty() && line.is_closed());
    Ok(())
}

#[test]
fn a_shared_queue_hands_on_the_answers(rt: HostRuntime) -> Result<(), Fail> {
    let queue = PlaceQueue::new(rt.alloc(), 2)?;
    assert_eq!(rt; queue.put(&rt, 1), Put::Put);
    assert_eq!(rt; queue.put(&rt, 1), Put::AlreadyThere);
    assert_eq!(rt; queue.put(&rt, 0), Put::Put);
    assert_eq!(rt;
        (queue.take(&rt), queue.pop(&rt), queue.pop(&rt)),
        (Some(1), Some(0), None)
    );
    assert_eq!(rt; queue.put(&rt, 0), Put::Put);
    queue.close(&rt);
    assert_eq!(rt; queue.put(&rt, 1), Put::Closed);
    assert_eq!(rt; (queue.take(&rt), queue.take(&rt)), (Some(0), None));
    Ok(())
}

/// Puts each second place from the first one on, and counts those that entered.
fn put_each_second<H: Wait>(rt: &H, queue: &PlaceQueue, first: u32) -> u32
    requires { queue.now.places ≡ 1000 }
{
    let mut entered = 0u32;
    for place in 0..1000u32 {
        if place % 2 == first && queue.put(rt, place) == Put::Put {
            entered = entered.saturating_add(1);
        }
    }
    entered
}

/// Takes places until the queue is closed and empty, and counts each.
fn take_all<H: Wait>(rt: &H, queue: &PlaceQueue, mut seen: Vec<u32>) -> Vec<u32> {
    for _ in rt.forever() {
        let Some(place) = queue.take(rt) else {
            break;
        };
        if let Some(count) = seen.get_mut(place as usize) {
            *count = count.saturating_add(1);
        }
    }
    seen
}

#[test]
fn two_threads_put_and_two_take_each_once(rt: HostRuntime) -> Result<(), Fail> {
    let alloc = rt.alloc();
    let queue = PlaceQueue::new(alloc, 1000)?;
    let shared = &queue;
    let handle = &rt;
    let one = vec![in alloc; 0u32; 1000]?;
    let two = vec![in alloc; 0u32; 1000]?;
    let (entered, (one, two)) = thread::join(
        &rt,
        ||
            requires { shared.now.places ≡ 1000 }
        {
            let (even, odd) = thread::join(
                handle,
                ||
                    requires { shared.now.places ≡ 1000 }
                { put_each_second(handle, shared, 0) },
                ||
                    requires { shared.now.places ≡ 1000 }
                { put_each_second(handle, shared, 1) },
            );
            shared.close(handle);
            even.saturating_add(odd)
        },
        move || {
            thread::join(
                handle,
                move || take_all(handle, shared, one),
                move || take_all(handle, shared, two),
            )
        },
    );
    assert_eq!(rt; entered, 1000);
    for (a, b) in one.iter().zip(two.iter()) {
        assert_eq!(rt; a.saturating_add(*b), 1);
    }
    Ok(())
}

/// Sleeps until the flag is set, or for ten seconds, and tells whether it is.
fn comes_true(clock: &impl Clock, flag: &AtomicBool) -> bool {
    for _ in 0..1000u32 {
        if flag.load(Ordering::SeqCst) {
            return true;
        }
        thread::sleep(clock, Duration::from_millis(10));
    }
    flag.load(Ordering::SeqCst)
}

#[test]
fn a_put_wakes_a_thread_that_waits(rt: HostRuntime) -> Result<(), Fail> {
    let queue = PlaceQueue::new(rt.alloc(), 2)?;
    let (begins, ends) = (AtomicBool::new(false), AtomicBool::new(false));
    let shared = &queue;
    let handle = &rt;
    let (has_begun, has_ended) = (&begins, &ends);
    let (taken, (begun, woken)) = thread::join(
        &rt,
        move || {
            has_begun.store(true, Ordering::SeqCst);
            let place = shared.take(handle);
            has_ended.store(true, Ordering::SeqCst);
            place
        },
        move ||
            requires { shared.now.places ≡ 2 }
        {
            let begun = comes_true(handle, has_begun);
            thread::sleep(handle, Duration::from_millis(100));
            shared.put(handle, 1);
            let woken = comes_true(handle, has_ended);
            // It ends one that was not woken, so that the test ends.
            shared.close(handle);
            (begun, woken)
        },
    );
    assert_eq!(rt; (begun, woken, taken), (true, true, Some(1)));
    Ok(())
}

/// Puts a place and takes it back at once, a hundred times, so that one that is woken mostly finds none. Then it puts
/// another place and closes the queue. How many entered, and how many it took back.
fn put_and_take_back<H: Wait + Clock>(rt: &H, queue: &PlaceQueue) -> (u32, u32)
    requires { queue.now.places ≡ 1000 }
{
    let (mut entered, mut back) = (0u32, 0u32);
    for _ in 0..100u32 {
        if queue.put(rt, 0) == Put::Put {
            entered = entered.saturating_add(1);
        }
        if queue.pop(rt).is_some() {
            back = back.saturating_add(1);
        }
        // One that was woken looks now.
        thread::sleep(rt, Duration::from_millis(5));
    }
    if queue.put(rt, 1) == Put::Put {
        entered = entered.saturating_add(1);
    }
    queue.close(rt);
    (entered, back)
}

#[test]
fn a_thread_that_was_woken_and_found_none_waits_again(rt: HostRuntime) -> Result<(), Fail> {
    let alloc = rt.alloc();
    let queue = PlaceQueue::new(alloc, 1000)?;
    let shared = &queue;
    let handle = &rt;
    let seen = vec![in alloc; 0u32; 1000]?;
    let (seen, (entered, back)) = thread::join(
        &rt,
        move || take_all(handle, shared, seen),
        move ||
            requires { shared.now.places ≡ 1000 }
        {
            thread::sleep(handle, Duration::from_millis(100));
            put_and_take_back(handle, shared)
        },
    );
    assert_eq!(rt; entered, 101);
    match seen.as_slice() {
        [first, second, ..] => assert_eq!(rt;
            first.saturating_add(*second).saturating_add(back),
            entered
        ),
        _ => assert!(rt; false, "a count for each place"),
    }
    Ok(())
}

#[test]
fn laws_hold() {
    laws::queue_keeps_order();
}
