//! Marks of places whose connection has ended or failed, which a poller and the connections share.
use std::alloc::{AllocError, Global};
use std::sync::atomic::{AtomicBool, Ordering};

/// For each place, whether an event told that its peer sends no more, or that the connection failed.
#[derive(Drop)]
pub(crate) struct Marks {
    places: Vec<AtomicBool>,
}

impl Marks {
    /// No place is marked.
    pub(crate) fn new(alloc: Global, places: u32) -> Result<Marks, AllocError> {
        let mut marks = Vec::with_capacity(alloc, places as usize)?;
        for _ in 0..places {
            marks.push(AtomicBool::new(false))?;
        }
        Ok(Marks { places: marks })
    }

    /// Marks the place, or takes its mark away. A place that isn't there has none.
    pub(crate) fn set(&self, place: u32, is_marked: bool) {
        if let Some(mark) = self.places.get(place as usize) {
            mark.store(is_marked, Ordering::SeqCst);
        }
    }

    /// Whether the place is marked. One that isn't there always counts as marked.
    pub(crate) fn get(&self, place: u32) -> bool {
        match self.places.get(place as usize) {
            Some(mark) => mark.load(Ordering::SeqCst),
            None => true,
        }
    }
}
