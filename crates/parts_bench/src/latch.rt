//! The latch.

use cy_latch::{Enter, LatchBook};
use std::alloc::{AllocError, Global};

/// Enters and leaves so often a latch of one.
pub fn enter_and_leave_of_1(alloc: Global, times: u64) -> Result<u64, AllocError> {
    enter_and_leave(LatchBook::new(alloc, 1)?, times)
}

/// Enters and leaves so often a latch of 8,192, half of which are out.
pub fn enter_and_leave_of_8192(alloc: Global, times: u64) -> Result<u64, AllocError> {
    let mut book = LatchBook::new(alloc, 8192)?;
    for _ in 0..4096 {
        // The share is dropped, and stays counted.
        let _ = book.enter();
    }
    enter_and_leave(book, times)
}

fn enter_and_leave(mut book: LatchBook, times: u64) -> Result<u64, AllocError> {
    let mut sum = 0u64;
    for _ in 0..times {
        match book.enter() {
            Enter::Entered(share) => {
                sum = sum.wrapping_add(book.count());
                book.leave(share);
            }
            Enter::Full { count } => sum = sum.wrapping_sub(count),
        }
    }
    Ok(sum.wrapping_add(book.count()))
}
