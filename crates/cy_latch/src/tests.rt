use super::*;
use std::process::Abort;
use std::test::Fail;

/// A share of a latch that isn't full.
fn entered(rt: &impl Abort, book: &mut LatchBook) -> Share {
    match book.enter() {
        Enter::Entered(share) => share,
        Enter::Full { count } => panic!(rt; "full at {count}"),
    }
}

/// Whether the latch is full, with this count.
fn is_full(book: &mut LatchBook, limit: u64) -> bool {
    match book.enter() {
        Enter::Full { count } => count == limit && book.count() == limit,
        Enter::Entered(share) => {
            book.leave(share);
            false
        }
    }
}

#[test]
fn counts_up_to_each_limit(rt: HostRuntime) -> Result<(), Fail> {
    for limit in [0, 1, 2, 8192] {
        let mut book = LatchBook::new(rt.alloc(), limit)?;
        let mut shares = Vec::new(rt.alloc());
        for count in 0..limit {
            assert_eq!(rt; book.count(), u64::from(count));
            shares
                .push(entered(&rt, &mut book))
                .map_err(|_| "no memory")?;
        }
        assert!(rt; is_full(&mut book, u64::from(limit)), "at {limit}");
        for count in (0..limit).rev() {
            let share = shares.pop().ok_or("no share")?;
            book.leave(share);
            assert_eq!(rt; book.count(), u64::from(count));
        }
    }
    Ok(())
}

#[test]
fn a_number_that_was_left_is_drawn_again(rt: HostRuntime) -> Result<(), Fail> {
    let mut book = LatchBook::new(rt.alloc(), 2)?;
    let first = entered(&rt, &mut book);
    let second = entered(&rt, &mut book);
    assert!(rt; is_full(&mut book, 2));
    book.leave(first);
    assert_eq!(rt; book.count(), 1);
    let third = entered(&rt, &mut book);
    assert!(rt; is_full(&mut book, 2));
    book.leave(third);
    book.leave(second);
    assert_eq!(rt; book.count(), 0);
    Ok(())
}

#[test]
fn a_share_whose_number_is_not_out_changes_nothing(rt: HostRuntime) -> Result<(), Fail> {
    let mut wide = LatchBook::new(rt.alloc(), 3)?;
    let mut narrow = LatchBook::new(rt.alloc(), 1)?;
    for _ in 0..3 {
        let foreign = entered(&rt, &mut wide);
        narrow.leave(foreign);
        assert_eq!(rt; narrow.count(), 0);
    }
    assert_eq!(rt; wide.count(), 3);
    let own = entered(&rt, &mut narrow);
    assert!(rt; is_full(&mut narrow, 1));
    narrow.leave(own);
    assert_eq!(rt; narrow.count(), 0);
    Ok(())
}

#[test]
fn a_share_that_is_dropped_stays_counted(rt: HostRuntime) -> Result<(), Fail> {
    let mut book = LatchBook::new(rt.alloc(), 1)?;
    drop(entered(&rt, &mut book));
    assert_eq!(rt; book.count(), 1);
    assert!(rt; is_full(&mut book, 1));
    Ok(())
}

#[test]
fn laws_hold() {
    laws::latch_counts_its_shares();
}
