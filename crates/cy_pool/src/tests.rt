// The slips of a pool for two places, and threads that take and give.
ghost use Rattle.cy_pool.specs.Stocks.{FindsOne};

use super::*;
use std::alloc::{AllocError, Global};
use std::sync::Wait;
use std::sync::atomic::{AtomicU64, Ordering};
use std::test::Fail;
use std::thread;

#[test]
fn two_seats_draw_two_numbers_and_a_third_none(rt: HostRuntime) -> Result<(), Fail> {
    let (pool, mut keeper) = Pool::new(rt.alloc(), 2)?;
    let mut one = pool.seat(&mut keeper);
    let mut two = pool.seat(&mut keeper);
    let mut three = pool.seat(&mut keeper);
    let first = pool.take(&rt, &mut one);
    let second = pool.take(&rt, &mut two);
    assert!(rt; pool.take(&rt, &mut three).is_none());
    let (Some(first), Some(second)) = (first, second) else {
        return Err(Fail::from(AllocError));
    };
    assert_eq!(rt; (first.number(), second.number()), (0, 1));
    pool.give(&rt, &mut one, first);
    let again = pool.take(&rt, &mut three);
    assert_eq!(rt; again.map(|slip| slip.number()), Some(0));
    pool.give(&rt, &mut two, second);
    pool.join(&mut keeper, two);
    Ok(())
}

/// Takes and gives a number so many times, and counts how often it had one that nobody else had.
fn take_and_give<H: Wait>(
    rt: &H,
    pool: &Pool,
    busy: &Vec<AtomicU64>,
    mut seat: Seat,
    rounds: u32,
) -> u32
    requires { FindsOne pool.now seat }
{
    let mut alone = 0u32;
    for _ in 0..rounds {
        let Some(slip) = pool.take(rt, &mut seat) else {
            unreachable!()
        };
        if let Some(mark) = busy.get(slip.number() as usize) {
            if mark.swap(1, Ordering::SeqCst) == 0 {
                alone = alone.saturating_add(1);
            }
            mark.store(0, Ordering::SeqCst);
        }
        pool.give(rt, &mut seat, slip);
    }
    alone
}

/// So many marks, of which none is set.
fn marks(alloc: Global, count: usize) -> Result<Vec<AtomicU64>, AllocError> {
    let mut marks = Vec::new(alloc);
    for _ in 0..count {
        marks.push(AtomicU64::new(0))?;
    }
    Ok(marks)
}

#[test]
fn four_threads_take_and_give(rt: HostRuntime) -> Result<(), Fail> {
    let handle = &rt;
    let (pool, mut keeper) = Pool::new(rt.alloc(), 4)?;
    pool.limit(&mut keeper, 4);
    let marks = marks(rt.alloc(), 4)?;
    let one = pool.seat(&mut keeper);
    let two = pool.seat(&mut keeper);
    let three = pool.seat(&mut keeper);
    let four = pool.seat(&mut keeper);
    let shared = &pool;
    let busy = &marks;
    let ((a, b), (c, d)) = thread::join(
        &rt,
        move ||
            requires { FindsOne shared.now one × FindsOne shared.now two }
        {
            thread::join(
                handle,
                move ||
                    requires { FindsOne shared.now one }
                { take_and_give(handle, shared, busy, one, 25000) },
                move ||
                    requires { FindsOne shared.now two }
                { take_and_give(handle, shared, busy, two, 25000) },
            )
        },
        move ||
            requires { FindsOne shared.now three × FindsOne shared.now four }
        {
            thread::join(
                handle,
                move ||
                    requires { FindsOne shared.now three }
                { take_and_give(handle, shared, busy, three, 25000) },
                move ||
                    requires { FindsOne shared.now four }
                { take_and_give(handle, shared, busy, four, 25000) },
            )
        },
    );
    assert_eq!(rt; (a, b, c, d), (25000, 25000, 25000, 25000));
    Ok(())
}

#[test]
fn laws_hold() {
    laws::each_number_once();
}
