//! What ends a poll that waits, from another thread.
use mio::Waker;
use std::sync::atomic::{AtomicBool, Ordering};

/// Ends the poll of its `MioReady` that waits, or else the next one. Between two polls only the first ring costs a
/// system call.
#[derive(Drop)]
pub struct Bell {
    waker: Waker,
    // It was rung since the poll returned.
    is_rung: AtomicBool,
}

impl Bell {
    pub(crate) fn new(waker: Waker) -> Bell {
        Bell {
            waker,
            is_rung: AtomicBool::new(false),
        }
    }

    /// Ends the poll that waits, or else the next one.
    pub fn ring(&self) {
        if !self.is_rung.swap(true, Ordering::SeqCst) && self.waker.wake().is_err() {
            self.is_rung.store(false, Ordering::SeqCst);
        }
    }

    /// The poll has returned. Who asks for it looks at all that was changed before a ring only after this.
    pub(crate) fn quiet(&self) {
        self.is_rung.store(false, Ordering::SeqCst);
    }
}
