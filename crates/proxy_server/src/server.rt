use crate::line::Line;
use crate::log::{Level, Log};
use crate::look_sum::no_look;
use crate::process::{Extent, Process};
use crate::stop::Stop;
use crossbeam_utils::CachePadded;
use fresh_stream::FreshStream;
use limits::MAX_SOCKETS;
use mio::Waker;
use open_sockets::{AdmittedStream, NotAdmitted};
use proxy_config::Config;
use proxy_histogram::Histogram;
use proxy_pages::{EjectedHosts, LineHosts, MAX_LINES_SHOWN, MovedBytes, ProcessUse, Snapshot};
use proxy_serve_core::{DrainOrder, SocketRefusal};
use proxy_stats::{Counts, RefusedNames};
use std::alloc::Global;
use std::sync::{Arc, Wait};

/// What all threads share: lines of generations, each a whole, and what is the process's. `C` is a socket that goes over from one
/// generation to the next.
pub struct Server<C: Drop> {
    process: Arc<Process>,
    // No line's round writes to the cache lines of another.
    lines: Vec<CachePadded<Line<C>>>,
}

impl<C: Drop> Drop for Server<C> {
    fn drop(self) {
        let Server {
            process: _,
            lines: _,
        } = self;
    }
}

impl<C: Drop> Server<C> {
    /// A server of each line of which the first generation is due. The waker wakes the thread that accepts and opens
    /// generations. Refused only for want of memory.
    pub fn new(
        alloc: Global,
        config: &Config,
        waker: Waker,
        extent: Extent,
        log: Log,
    ) -> Result<Server<C>, Stop> {
        let process = Process::new(alloc, waker, extent, log)?;
        let mut server = Server {
            process: Arc::new(alloc, process)?,
            lines: Vec::new(alloc),
        };
        for _ in 0..extent.lines {
            let process = Arc::try_clone(&server.process)?;
            let line = Line::new(alloc, config, process)?;
            server.lines.push(CachePadded::new(line))?;
        }
        Ok(server)
    }

    /// The number of lines.
    pub fn lines(&self) -> usize {
        self.lines.len()
    }

    /// A line.
    pub fn line(&self, number: usize) -> Option<&Line<C>> {
        match self.lines.get(number) {
            Some(line) => Some(&**line),
            None => None,
        }
    }

    /// The beginning of lines on standard error.
    pub fn log(&self) -> Log {
        self.process.log
    }

    /// As [`OpenSockets::admit`](open_sockets::OpenSockets::admit).
    pub fn admit(&self, line: usize, stream: FreshStream) -> Result<AdmittedStream, NotAdmitted> {
        self.process.sockets.admit(line, stream)
    }

    /// As [`OpenSockets::take_gone`](open_sockets::OpenSockets::take_gone).
    pub fn take_gone(&self, line: usize) -> u64 {
        self.process.sockets.take_gone(line)
    }

    /// Queues a socket for a worker of a line, and wakes that. Without memory the socket is closed.
    pub fn push<R: Wait>(&self, rt: &R, line: usize, index: usize, stream: AdmittedStream) {
        if let Some(line) = self.line(line) {
            line.push(rt, index, stream);
        }
    }

    /// Counts a client's socket that finds no room at this moment, and logs it if a line is due.
    pub fn note_refused<R: Wait + Eprint>(&self, rt: &R, cause: SocketRefusal, now: u64) {
        let Some(count) = self.process.refused.lock(rt).note(cause, now) else {
            return;
        };
        let tag = self.process.log.tag(Level::Warning);
        let _ = match cause {
            SocketRefusal::Full => eprintln!(rt;
                "{tag}redproxy: {MAX_SOCKETS} sockets of clients are open; closed for it: {count}"
            ),
            SocketRefusal::NoFile => eprintln!(rt;
                "{tag}redproxy: no file number for a client's socket, which waits; tries: {count}"
            ),
            SocketRefusal::NoMemory => eprintln!(rt;
                "{tag}redproxy: no memory for a client's socket, which waits; tries: {count}"
            ),
        };
    }

    /// Orders a drain, which begins so many milliseconds later; `None`: after the command line's delay. Until then `/ready` is
    /// 503, and clients are served. Of several orders the one that is due first counts.
    pub fn order_drain<R: Wait + Eprint>(&self, rt: &R, now: u64, after_ms: Option<u64>) {
        let after_ms = after_ms.unwrap_or(self.process.extent.drain_after_ms);
        let order = DrainOrder { now, after_ms };
        let is_earlier = self.process.drain_plan.lock(rt).order(order);
        if after_ms > 0 && is_earlier && !self.is_draining() {
            let tag = self.process.log.tag(Level::Notice);
            let _ = eprintln!(rt; "{tag}redproxy: draining in {after_ms} ms");
        }
        self.follow_plan(rt, now);
    }

    /// Drains once that is due by the orders so far.
    pub fn follow_plan<R: Wait + Eprint>(&self, rt: &R, now: u64) {
        let is_due = self.process.drain_plan.lock(rt).is_due(now);
        if is_due {
            self.drain(rt);
        }
    }

    /// Accepts no further socket, and ends all inputs behind what has come. The last socket then ends the server.
    pub fn drain<R: Wait + Eprint>(&self, rt: &R) {
        let Some(count) = self.process.sockets.drain() else {
            return;
        };
        let tag = self.process.log.tag(Level::Notice);
        let _ = eprintln!(rt; "{tag}redproxy: draining, {count} sockets of clients are open");
        self.wake_all(rt);
    }

    fn wake_all<R: Wait>(&self, rt: &R) {
        for line in self.lines.iter() {
            line.wake_all(rt);
        }
        self.process.sockets.wake();
    }

    /// Whether the server drains.
    pub fn is_draining(&self) -> bool {
        self.process.sockets.is_draining()
    }

    /// Ends the server at once.
    pub fn quit(&self) {
        self.process.sockets.end();
    }

    /// Whether the server goes on.
    pub fn runs(&self) -> bool {
        self.process.sockets.runs()
    }

    /// Ends the server. The first reason stays.
    pub fn end<R: Wait>(&self, rt: &R, stop: Stop) {
        self.process.end(rt, stop);
    }

    /// Why the server ended, unless it is done.
    pub fn stop_reason<R: Wait>(&self, rt: &R) -> Option<Stop> {
        self.process.stop_reason(rt)
    }

    /// The counts of all generations of all lines.
    pub fn counts<R: Wait>(&self, rt: &R) -> Counts {
        let mut counts = Counts::NONE;
        for line in self.lines.iter() {
            counts = counts.plus(&line.counts(rt));
        }
        counts
    }

    /// The numbers of the server at this moment.
    pub fn snapshot<R: Wait>(&self, rt: &R, moment: u64) -> Snapshot {
        let is_ordered = self.process.drain_plan.lock(rt).is_ordered();
        let is_ending = is_ordered || self.is_draining() || !self.runs();
        let mut all = Snapshot {
            counts: Counts::NONE,
            refused_names: RefusedNames::NONE,
            generations: 0,
            past_steps: 0,
            serving: no_look(),
            draining: no_look(),
            draining_count: 0,
            connections: self.process.sockets.count(),
            closed: self.process.sockets.closed(),
            idle_closed: self.process.sockets.idle_closed(),
            refused: *self.process.refused.lock(rt),
            faults: *self.process.faults.lock(rt).hosts(),
            host_durations: *self.process.host_durations.lock(rt).hosts(),
            moved: MovedBytes::NONE,
            ejected: EjectedHosts::none(moment),
            lines: self.lines.len(),
            line_hosts: [LineHosts::NONE; MAX_LINES_SHOWN],
            durations: Histogram::new(),
            is_ready: !is_ending,
            is_ending,
            process: ProcessUse::UNKNOWN,
        };
        for (number, line) in self.lines.iter().enumerate() {
            line.add_to(rt, number, &mut all);
        }
        all
    }
}
