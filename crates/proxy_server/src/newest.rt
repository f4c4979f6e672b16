//! The number of the newest open generation, readable without a lock.

use crate::task_words::NewestToShow;
use std::sync::atomic::{AtomicU64, Ordering};

const NONE: u64 = u64::MAX;

/// The newest open generation, if there is one.
#[derive(Drop)]
pub(crate) struct Newest {
    number: AtomicU64,
}

impl Newest {
    pub(crate) fn new() -> Newest {
        Newest {
            number: AtomicU64::new(NONE),
        }
    }

    /// Shows which it is, behind the words of the others: a generation that sees that it isn't the newest any more finds its
    /// task.
    pub(crate) fn show(&self, newest: NewestToShow) {
        self.number
            .store(newest.number().unwrap_or(NONE), Ordering::SeqCst);
    }

    pub(crate) fn number(&self) -> Option<u64> {
        match self.number.load(Ordering::SeqCst) {
            NONE => None,
            number => Some(number),
        }
    }
}
