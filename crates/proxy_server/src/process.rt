//! What all lines of generations share.

use crate::host_outs::HostOuts;
use crate::log::Log;
use crate::stop::Stop;
use byte_sum::ByteSum;
use mio::Waker;
use open_sockets::OpenSockets;
use proxy_histogram::HostDurations;
use proxy_serve_core::{DrainPlan, FaultLog, RefusedSockets, StalledBids};
use std::alloc::Global;
use std::sync::atomic::AtomicU64;
use std::sync::{Arc, Mutex, Wait};

/// The lines of a server, which clients it closes, and its end.
#[derive(Clone, Copy, Drop)]
pub struct Extent {
    /// The number of lines of generations.
    pub lines: usize,
    /// Milliseconds until an idle client is closed; 0: never.
    pub idle_ms: u64,
    /// Milliseconds from an order to its drain.
    pub drain_after_ms: u64,
    /// The number of closed connections after which it ends; 0 is never.
    pub connections: u64,
}

/// The open sockets, and whether the server goes on; if not, why, unless it is done.
pub(crate) struct Process {
    pub(crate) sockets: OpenSockets,
    stop: Mutex<Option<Stop>>,
    pub(crate) log: Log,
    pub(crate) faults: Mutex<FaultLog>,
    pub(crate) refused: Mutex<RefusedSockets>,
    pub(crate) drain_plan: Mutex<DrainPlan>,
    pub(crate) extent: Extent,
    pub(crate) host_durations: Mutex<HostDurations>,
    pub(crate) outs: Mutex<HostOuts>,
    // Of all journals.
    pub(crate) unfinished: Arc<ByteSum>,
    // Those of all workers, of whichever line and generation.
    pub(crate) stalled: Mutex<StalledBids>,
    pub(crate) bidders: AtomicU64,
}

impl Drop for Process {
    fn drop(self) {
        let Process {
            sockets: _,
            stop: _,
            log: _,
            faults: _,
            refused: _,
            drain_plan: _,
            extent: _,
            host_durations: _,
            outs: _,
            unfinished: _,
            stalled: _,
            bidders: _,
        } = self;
    }
}

impl Process {
    /// One that goes on.
    pub(crate) fn new(
        alloc: Global,
        waker: Waker,
        extent: Extent,
        log: Log,
    ) -> Result<Process, Stop> {
        Ok(Process {
            sockets: OpenSockets::new(alloc, waker, extent.connections, extent.lines)?,
            stop: Mutex::new(None),
            log,
            faults: Mutex::new(FaultLog::new()),
            refused: Mutex::new(RefusedSockets::NONE),
            drain_plan: Mutex::new(DrainPlan::new()),
            extent,
            host_durations: Mutex::new(HostDurations::new()),
            outs: Mutex::new(HostOuts::new()),
            unfinished: Arc::new(alloc, ByteSum::new())?,
            stalled: Mutex::new(StalledBids::new(alloc)),
            bidders: AtomicU64::new(0),
        })
    }

    /// Ends the server. The first reason stays.
    pub(crate) fn end<R: Wait>(&self, rt: &R, stop: Stop) {
        let mut first = self.stop.lock(rt);
        *first = Stop::first(*first, stop, self.sockets.end());
    }

    /// Why the server ended, unless it is done.
    pub(crate) fn stop_reason<R: Wait>(&self, rt: &R) -> Option<Stop> {
        *self.stop.lock(rt)
    }
}
