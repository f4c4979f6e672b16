//! A line of generations, one after another, each with its board and its numbers.

use crate::board::Board;
use crate::log::Log;
use crate::look_sum::{both, line_hosts};
use crate::process::Process;
use crate::stats::Stats;
use crate::stop::Stop;
use byte_sum::ByteSum;
use limits::{MAX_FAILURES, MAX_GENERATIONS, MAX_HOSTS};
use mio::Waker;
use open_sockets::{AdmittedStream, Traffic, WorkerTraffic};
use proxy_config::Config;
use proxy_core::Handover;
use proxy_generations::{At, Due, Generations, Phase};
use proxy_histogram::Histogram;
use proxy_pages::{MAX_LINES_SHOWN, Moved, Snapshot};
use proxy_serve_core::{EjectedHost, EjectionLog, FaultCause, LinkLoss};
use proxy_stats::{Counts, Sight, TalliedCore};
use std::alloc::{AllocError, Global};
use std::collections::VecDeque;
use std::sync::atomic::Ordering;
use std::sync::{Arc, Mutex, MutexGuard, Wait};

/// What a generation starts from.
#[derive(Drop)]
pub struct Inherited {
    /// The state of outlier detection.
    pub handover: Handover,
    /// The payload bytes a step.
    pub average: u64,
}

// A worker's waiting sockets, and its present waker.
#[derive(Drop)]
struct AcceptQueue<C: Drop> {
    sockets: Mutex<VecDeque<AdmittedStream>>,
    carried: Mutex<VecDeque<C>>,
    waker: Mutex<Option<Waker>>,
    traffic: WorkerTraffic,
}

/// A line of generations: each is a whole, with a journal, workers and links of its own. `C` is a socket that goes over from one
/// generation of the line to the next.
pub struct Line<C: Drop> {
    process: Arc<Process>,
    queues: Vec<AcceptQueue<C>>,
    // The board shows these without a lock.
    generations: Mutex<Generations<Inherited>>,
    board: Board,
    stats: Mutex<Stats>,
    ejections: Mutex<EjectionLog>,
}

impl<C: Drop> Drop for Line<C> {
    fn drop(self) {
        let Line {
            process: _,
            queues: _,
            generations: _,
            board: _,
            stats: _,
            ejections: _,
        } = self;
    }
}

impl<C: Drop> Line<C> {
    /// A line with a queue for each worker. Its first generation is due.
    pub(crate) fn new(
        alloc: Global,
        config: &Config,
        process: Arc<Process>,
    ) -> Result<Line<C>, AllocError> {
        let mut queues = Vec::new(alloc);
        let interval_ms = u64::from(config.core.interval_ms);
        for _ in 0..config.workers {
            queues.push(AcceptQueue {
                sockets: Mutex::new(VecDeque::new(alloc)),
                carried: Mutex::new(VecDeque::new(alloc)),
                waker: Mutex::new(None),
                traffic: WorkerTraffic::new(alloc)?,
            })?;
        }
        Ok(Line {
            process,
            queues,
            generations: Mutex::new(Generations::new(interval_ms, MAX_FAILURES)),
            board: Board::new(alloc)?,
            stats: Mutex::new(Stats::new(alloc)?),
            ejections: Mutex::new(EjectionLog::new(alloc, config.hosts.len())?),
        })
    }

    /// The number of workers of each generation.
    pub fn workers(&self) -> usize {
        self.queues.len()
    }

    /// The beginning of lines on standard error.
    pub fn log(&self) -> Log {
        self.process.log
    }

    /// The bytes of all unfinished commands of the process.
    pub fn unfinished(&self) -> Result<Arc<ByteSum>, AllocError> {
        match Arc::try_clone(&self.process.unfinished) {
            Ok(unfinished) => Ok(unfinished),
            Err(_) => Err(AllocError),
        }
    }

    /// Counts a closed connection. The server ends after `connections` of them.
    pub fn count_closed(&self) {
        self.process.sockets.count_closed();
    }

    /// As [`OpenSockets::waiting`](open_sockets::OpenSockets::waiting).
    pub fn waiting(&self) -> u64 {
        self.process.sockets.waiting()
    }

    /// As [`OpenSockets::has_too_much_waiting`](open_sockets::OpenSockets::has_too_much_waiting).
    pub fn has_too_much_waiting(&self) -> bool {
        self.process.sockets.has_too_much_waiting()
    }

    /// A number that no other worker bids with.
    pub fn new_bidder(&self) -> u64 {
        self.process.bidders.fetch_add(1, Ordering::Relaxed)
    }

    /// As [`StalledBids::bid`]. Where there is no memory for its bid, the bidder closes its client.
    pub fn bid_stalled<R: Wait>(&self, rt: &R, bidder: u64, bytes: u64, now: u64) -> bool {
        let bid = self.process.stalled.lock(rt).bid(bidder, bytes, now);
        bid.unwrap_or(bytes > 0)
    }

    /// Where the bytes of the worker of this index are counted. `None`: there is no such worker.
    pub fn traffic(&self, index: usize) -> Option<&WorkerTraffic> {
        match self.queues.get(index) {
            Some(queue) => Some(&queue.traffic),
            None => None,
        }
    }

    /// Milliseconds until an idle client is closed; 0: never.
    pub fn idle_ms(&self) -> u64 {
        self.process.extent.idle_ms
    }

    /// Whether the server drains.
    pub fn is_draining(&self) -> bool {
        self.process.sockets.is_draining()
    }

    /// Whether the server goes on.
    pub fn runs(&self) -> bool {
        self.process.sockets.runs()
    }

    /// Ends the server. The first reason stays.
    pub fn end<R: Wait>(&self, rt: &R, stop: Stop) {
        self.process.end(rt, stop);
    }

    fn wake<R: Wait>(&self, rt: &R, queue: &AcceptQueue<C>) {
        if let Some(waker) = &*queue.waker.lock(rt) {
            let _ = waker.wake();
        }
    }

    /// Wakes its workers.
    pub(crate) fn wake_all<R: Wait>(&self, rt: &R) {
        for queue in self.queues.iter() {
            self.wake(rt, queue);
        }
    }

    /// Queues a socket and wakes its worker. Without memory the socket is closed.
    pub(crate) fn push<R: Wait>(&self, rt: &R, index: usize, stream: AdmittedStream) {
        let Some(queue) = self.queues.get(index) else {
            return;
        };
        let _ = queue.sockets.lock(rt).push_back(stream);
        self.wake(rt, queue);
    }

    /// Whether a socket waits in a worker's queue.
    pub fn has_waiting<R: Wait>(&self, rt: &R, index: usize) -> bool {
        match self.queues.get(index) {
            Some(queue) => {
                !queue.carried.lock(rt).is_empty() || !queue.sockets.lock(rt).is_empty()
            }
            None => false,
        }
    }

    /// Takes the socket that waits longest.
    pub fn pop<R: Wait>(&self, rt: &R, index: usize) -> Option<AdmittedStream> {
        self.queues.get(index)?.sockets.lock(rt).pop_front()
    }

    /// Reserves memory for one more carried-over socket. False: there is none.
    ///
    /// The room stays: one worker of each generation puts such sockets in, one at a time, and each reserves for all.
    pub fn reserve_to_carry<R: Wait>(&self, rt: &R, index: usize) -> bool {
        match self.queues.get(index) {
            Some(queue) => queue.carried.lock(rt).reserve(MAX_GENERATIONS).is_ok(),
            None => false,
        }
    }

    /// Queues a carried-over socket, and wakes its worker. Without memory the socket is closed and counted.
    pub fn carry<R: Wait>(&self, rt: &R, index: usize, carried: C) {
        let Some(queue) = self.queues.get(index) else {
            return self.count_closed();
        };
        if queue.carried.lock(rt).push_back(carried).is_err() {
            self.count_closed();
        }
        self.wake(rt, queue);
    }

    /// Puts a carried-over socket back at the front. Without memory it is closed and counted.
    pub fn carry_back<R: Wait>(&self, rt: &R, index: usize, carried: C) {
        let Some(queue) = self.queues.get(index) else {
            return self.count_closed();
        };
        if queue.carried.lock(rt).push_front(carried).is_err() {
            self.count_closed();
        }
    }

    /// Takes the carried-over socket that waits longest.
    pub fn take_carried<R: Wait>(&self, rt: &R, index: usize) -> Option<C> {
        self.queues.get(index)?.carried.lock(rt).pop_front()
    }

    /// What the generation is to do; `Stopped` once the server ends.
    pub fn phase(&self, number: u64) -> Phase {
        if self.runs() {
            self.board.phase(number)
        } else {
            Phase::Stopped
        }
    }

    /// Whether the generation is or was open.
    pub fn has_opened(&self, number: u64) -> bool {
        self.board.phase(number) != Phase::Unopened
    }

    /// Whether the generation is the newest open one or drains.
    pub fn has_connections(&self, number: u64) -> bool {
        self.board.has_connections(number)
    }

    // Wakes the thread that opens a generation that is due.
    fn publish(&self, generations: MutexGuard<'_, Generations<Inherited>>) {
        self.board.show(&generations);
        drop(generations);
        self.process.sockets.wake();
    }

    /// The generation to open now; each is returned once.
    pub fn take_due<R: Wait>(&self, rt: &R) -> Option<Due<Inherited>> {
        self.generations.lock(rt).take_due()
    }

    /// The generation opens at this moment, and the wakers wake its workers.
    pub fn open<R: Wait>(&self, rt: &R, at: At, wakers: Vec<Waker>) {
        let mut generations = self.generations.lock(rt);
        generations.opened(at);
        self.publish(generations);
        self.stats.lock(rt).opened();
        for (queue, waker) in self.queues.iter().zip(wakers) {
            *queue.waker.lock(rt) = Some(waker);
            self.wake(rt, queue);
        }
    }

    /// The generation could not be opened. Too many failures in a row end the server.
    pub fn fail<R: Wait>(&self, rt: &R, number: u64, stop: Stop) {
        let is_last = self.generations.lock(rt).failed(number);
        if is_last {
            self.end(rt, stop);
        }
    }

    /// As [`Generations::progressed`].
    pub fn progressed<R: Wait>(&self, rt: &R, at: At) {
        self.generations.lock(rt).progressed(at);
    }

    /// As [`Generations::near`].
    pub fn near<R: Wait>(&self, rt: &R, at: At) {
        let mut generations = self.generations.lock(rt);
        generations.near(at);
        self.board.show(&generations);
    }

    /// As [`Generations::full`]. The next one starts from the state of the last call.
    pub fn full<R: Wait>(&self, rt: &R, at: At, from: Inherited) {
        let mut generations = self.generations.lock(rt);
        if let Some(from) = generations.renew(at.number, from) {
            generations.full(at, from);
        }
        self.publish(generations);
    }

    /// As [`Generations::drained`].
    pub fn drained<R: Wait>(&self, rt: &R, number: u64) {
        let mut generations = self.generations.lock(rt);
        generations.drained(number);
        self.publish(generations);
    }

    /// As [`Generations::is_sweep_due`].
    pub fn is_sweep_due<R: Wait>(&self, rt: &R, at: At) -> bool {
        self.generations.lock(rt).is_sweep_due(at)
    }

    /// As [`Generations::swept`].
    pub fn swept<R: Wait>(&self, rt: &R, at: At) {
        self.generations.lock(rt).swept(at);
    }

    /// Records the sight of a living generation.
    pub fn looked<R: Wait>(&self, rt: &R, number: u64, sight: &Sight) {
        self.stats.lock(rt).looked(number, sight);
    }

    /// As [`FaultLog::note`].
    pub fn note_fault<R: Wait>(
        &self,
        rt: &R,
        host: usize,
        loss: LinkLoss,
        now: u64,
    ) -> Option<u64> {
        self.process.faults.lock(rt).note(host, loss, now)
    }

    /// As [`FaultLog::count`].
    pub fn count_fault<R: Wait>(&self, rt: &R, host: usize, cause: FaultCause) {
        self.process.faults.lock(rt).count(host, cause);
    }

    /// A generation is gone, with this core.
    pub fn gone<R: Wait>(&self, rt: &R, number: u64, core: &TalliedCore) {
        let steps = core.core().journal().len() as u64;
        self.stats
            .lock(rt)
            .gone(number, core.counts(), core.refused_names(), steps);
    }

    /// Adds the durations of commands.
    pub fn add_durations<R: Wait>(&self, rt: &R, durations: &Histogram) {
        self.stats.lock(rt).add_durations(durations);
    }

    /// As [`HostDurations::add`](proxy_histogram::HostDurations::add).
    pub fn add_host_durations<R: Wait>(&self, rt: &R, host: usize, durations: &Histogram) {
        self.process.host_durations.lock(rt).add(host, durations);
    }

    /// What the log says of hosts that its generations have ejected.
    pub fn ejections<R: Wait>(&self, rt: &R) -> MutexGuard<'_, EjectionLog> {
        self.ejections.lock(rt)
    }

    /// The line has put the host aside, or has it back. True: that is to be logged, as no other line has it out.
    pub fn note_out<R: Wait>(&self, rt: &R, host: usize, is_out: bool) -> bool {
        self.process.outs.lock(rt).is_news(host, is_out)
    }

    /// The counts of all generations.
    pub(crate) fn counts<R: Wait>(&self, rt: &R) -> Counts {
        self.stats.lock(rt).counts()
    }

    fn add_ejected<R: Wait>(&self, rt: &R, all: &mut Snapshot) {
        let ejections = self.ejections.lock(rt);
        for host in 0..MAX_HOSTS {
            let ejected = &mut all.ejected.hosts[host];
            *ejected = EjectedHost::first(*ejected, ejections.ejected(host));
        }
    }

    fn add_traffic(&self, all: &mut Snapshot) {
        for queue in self.queues.iter() {
            add_moved(&mut all.moved.clients, &queue.traffic.clients);
            add_moved(&mut all.moved.hosts, &queue.traffic.hosts);
        }
    }

    /// Adds its numbers to those of the lines before.
    pub(crate) fn add_to<R: Wait>(&self, rt: &R, number: usize, all: &mut Snapshot) {
        self.add_ejected(rt, all);
        self.add_traffic(all);
        // (nobody takes these two locks the other way round)
        let generations = self.generations.lock(rt);
        let newest = generations.newest();
        let stats = self.stats.lock(rt);
        let serving = stats.look(newest);
        if number < MAX_LINES_SHOWN {
            all.line_hosts[number] = line_hosts(&serving);
        }
        all.counts = all.counts.plus(&stats.counts());
        all.refused_names = all.refused_names.plus(&stats.refused_names());
        all.generations = all.generations.saturating_add(stats.generations());
        all.past_steps = all
            .past_steps
            .saturating_add(stats.steps_beside(&generations));
        all.serving = both(&all.serving, &serving);
        all.draining = both(&all.draining, &stats.draining(&generations));
        all.draining_count = all.draining_count.saturating_add(generations.drain_count());
        all.durations = all.durations.plus(stats.durations());
        all.is_ready = all.is_ready && newest.is_some();
    }
}

fn add_moved(moved: &mut Moved, traffic: &Traffic) {
    moved.read = moved.read.saturating_add(traffic.read());
    moved.written = moved.written.saturating_add(traffic.written());
}
