//! The bytes that a worker's sockets have moved.

use std::alloc::{AllocError, Global};
use std::sync::Arc;
use std::sync::atomic::{AtomicU64, Ordering};

/// The bytes of some sockets, as the system told of each call, over all threads.
#[derive(Drop)]
pub struct Traffic {
    read: AtomicU64,
    written: AtomicU64,
}

impl Traffic {
    /// Nothing was read or written.
    pub fn new() -> Traffic {
        Traffic {
            read: AtomicU64::new(0),
            written: AtomicU64::new(0),
        }
    }

    /// Counts bytes that were read.
    #[inline(always)]
    pub fn count_read(&self, bytes: usize) {
        self.read.fetch_add(bytes as u64, Ordering::Relaxed);
    }

    /// Counts bytes that were written.
    #[inline(always)]
    pub fn count_written(&self, bytes: usize) {
        self.written.fetch_add(bytes as u64, Ordering::Relaxed);
    }

    /// The bytes read so far.
    pub fn read(&self) -> u64 {
        self.read.load(Ordering::Relaxed)
    }

    /// The bytes written so far.
    pub fn written(&self) -> u64 {
        self.written.load(Ordering::Relaxed)
    }
}

/// What a worker's sockets have moved, whichever generation they were in.
#[derive(Drop)]
pub struct WorkerTraffic {
    /// The sockets of its clients.
    pub clients: Arc<Traffic>,
    /// The sockets of its links to hosts.
    pub hosts: Arc<Traffic>,
}

impl WorkerTraffic {
    /// Nothing was moved. Refused only where there is no memory.
    pub fn new(alloc: Global) -> Result<WorkerTraffic, AllocError> {
        Ok(WorkerTraffic {
            clients: shared(alloc)?,
            hosts: shared(alloc)?,
        })
    }
}

fn shared(alloc: Global) -> Result<Arc<Traffic>, AllocError> {
    match Arc::new(alloc, Traffic::new()) {
        Ok(traffic) => Ok(traffic),
        Err(_) => Err(AllocError),
    }
}
