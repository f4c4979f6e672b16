//! The connections of one generation, which can't be forgotten.

use std::alloc::{AllocError, Global};
use std::sync::Arc;
use std::sync::atomic::{AtomicU64, Ordering};

/// A socket that has a connection in this generation, or may get one. It is counted until this is dropped.
pub struct OpenConnection {
    count: Arc<AtomicU64>,
}

impl Drop for OpenConnection {
    fn drop(self) {
        let OpenConnection { count } = self;
        count.fetch_sub(1, Ordering::SeqCst);
    }
}

/// The number of open connections of a generation.
#[derive(Drop)]
pub(crate) struct OpenConnections {
    count: Arc<AtomicU64>,
}

impl OpenConnections {
    /// No connection. Refused for want of memory.
    pub(crate) fn new(alloc: Global) -> Result<OpenConnections, AllocError> {
        match Arc::new(alloc, AtomicU64::new(0)) {
            Ok(count) => Ok(OpenConnections { count }),
            Err(_) => Err(AllocError),
        }
    }

    /// Counts one. Refused for want of memory.
    pub(crate) fn open(&self) -> Result<OpenConnection, AllocError> {
        match Arc::try_clone(&self.count) {
            Ok(count) => {
                count.fetch_add(1, Ordering::SeqCst);
                Ok(OpenConnection { count })
            }
            Err(_) => Err(AllocError),
        }
    }

    pub(crate) fn count(&self) -> u64 {
        self.count.load(Ordering::SeqCst)
    }
}
