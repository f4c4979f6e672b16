//! What the threads of one generation share beside the gate.
ghost use Rattle.std.specs.Prelude.{◌≤◌, ◌*◌};

use crate::server::Line;
use close_behind::CloseBehind;
use crossbeam_utils::CachePadded;
use journal_room::JournalRoom;
use limits::{MAX_PARTS_AT_ONCE, MAX_START_MS};
use mio::{Registry, Waker};
use proxy_config::Config;
use proxy_connections::Round;
use proxy_generations::{Marks, Mode, Phase};
use proxy_notices::Notices;
use proxy_server::Moment;
use std::alloc::Global;
use std::rt::Clock;
use std::sync::Arc;
use std::sync::atomic::{AtomicBool, AtomicU8, AtomicU64, Ordering};
use std::thread;
use std::time::Duration;

// The time between two looks whether all threads have come. Clients wait meanwhile.
const START_LOOK_US: u32 = 50;

// The start of a generation isn't decided yet: its threads start.
const STARTING: u8 = 0;

// All its threads came in time.
const BEGUN: u8 = 1;

// It never begins: threads were missing, or had no memory.
const ABANDONED: u8 = 2;

/// What each thread of a generation gets beside its seat at the gate.
#[derive(Clone, Copy, Drop)]
pub(crate) struct ThreadContext<'a> {
    pub(crate) alloc: Global,
    pub(crate) generation: &'a GenerationState<'a>,
    pub(crate) config: &'a Config,
    pub(crate) behind: &'a CloseBehind,
    pub(crate) marks: Marks,
}

/// How a worker is woken, and whether it waits.
#[derive(Drop)]
pub(crate) struct WorkerStatus {
    waker: Waker,
    // Whether it takes in nothing until others have looked at their hosts.
    is_held_back: AtomicBool,
    is_asleep: AtomicBool,
}

/// What the threads of a generation share. What each round of a worker writes has cache lines of its own, so that no other reads
/// wait for it.
pub(crate) struct GenerationState<'a> {
    line: &'a Line,
    number: u64,
    workers: Vec<CachePadded<WorkerStatus>>,
    // What the core's turns tell the workers.
    notices: Arc<Notices>,
    come: AtomicU64,
    // STARTING, BEGUN or ABANDONED.
    start: AtomicU8,
    // The number of its workers that may still take in commands.
    taking: AtomicU64,
    // Whether a worker has seen that it is to stop.
    is_stopped: AtomicBool,
    // By `parts_per_worker`.
    most_parts: u64,
    /// The room in its journal.
    pub(crate) room: JournalRoom,
}

impl Drop for GenerationState<'_> {
    fn drop(self) {
        let GenerationState {
            line: _,
            number: _,
            workers: _,
            notices: _,
            come: _,
            start: _,
            taking: _,
            is_stopped: _,
            most_parts: _,
            room: _,
        } = self;
    }
}

impl WorkerStatus {
    pub(crate) fn new(waker: Waker) -> WorkerStatus {
        WorkerStatus {
            waker,
            is_held_back: AtomicBool::new(false),
            is_asleep: AtomicBool::new(false),
        }
    }

    pub(crate) fn mark_asleep(&self, is_held_back: bool) {
        self.is_held_back.store(is_held_back, Ordering::SeqCst);
        self.is_asleep.store(true, Ordering::SeqCst);
    }

    pub(crate) fn mark_awake(&self) {
        self.is_asleep.store(false, Ordering::SeqCst);
    }

    fn wake(&self) {
        if self.is_asleep.load(Ordering::SeqCst) && self.is_asleep.swap(false, Ordering::SeqCst) {
            let _ = self.waker.wake();
        }
    }
}

impl<'a> GenerationState<'a> {
    /// A generation to which nothing has happened, with the room in its journal.
    pub(crate) fn new(
        line: &'a Line,
        number: u64,
        room: JournalRoom,
        workers: Vec<CachePadded<WorkerStatus>>,
        notices: Arc<Notices>,
    ) -> GenerationState<'a> {
        let count = workers.len() as u64;
        GenerationState {
            line,
            number,
            workers,
            notices,
            come: AtomicU64::new(0),
            start: AtomicU8::new(STARTING),
            taking: AtomicU64::new(count),
            is_stopped: AtomicBool::new(false),
            most_parts: parts_per_worker(count),
            room,
        }
    }

    pub(crate) fn line(&self) -> &'a Line {
        self.line
    }

    /// What the core's turns tell its workers.
    #[inline(always)]
    pub(crate) fn notices(&self) -> &Notices {
        &self.notices
    }

    pub(crate) fn number(&self) -> u64 {
        self.number
    }

    fn threads(&self) -> u64 {
        (self.workers.len() as u64).saturating_add(1)
    }

    /// Counts a thread that has come, and waits for the others. False: some didn't come in time, and none begins.
    pub(crate) fn wait_for_all<R: Clock>(&self, rt: &R) -> bool {
        if self.come.fetch_add(1, Ordering::SeqCst).saturating_add(1) == self.threads() {
            self.decide(BEGUN);
        }
        for _ in 0..MAX_START_MS.saturating_mul(1_000 / START_LOOK_US) {
            if self.start.load(Ordering::SeqCst) != STARTING {
                break;
            }
            thread::sleep(rt, Duration::from_micros(u64::from(START_LOOK_US)));
        }
        self.abandon_start();
        self.has_begun()
    }

    /// Keeps the generation from beginning, unless it has begun.
    pub(crate) fn abandon_start(&self) {
        self.decide(ABANDONED);
    }

    fn decide(&self, start: u8) {
        let _ = self
            .start
            .compare_exchange(STARTING, start, Ordering::SeqCst, Ordering::SeqCst);
    }

    pub(crate) fn has_begun(&self) -> bool {
        self.start.load(Ordering::SeqCst) == BEGUN
    }

    /// Counts a worker that takes in no further command. Each calls it once.
    pub(crate) fn stop_taking(&self) {
        self.taking.fetch_sub(1, Ordering::SeqCst);
    }

    /// Whether no worker here takes in a further command and a newer generation is open: no further part comes for any
    /// host.
    pub(crate) fn takes_nothing(&self) -> bool {
        self.taking.load(Ordering::SeqCst) == 0 && !self.phase().may_accept()
    }

    pub(crate) fn worker(&self, index: usize) -> Option<&WorkerStatus> {
        match self.workers.get(index) {
            Some(worker) => Some(&**worker),
            None => None,
        }
    }

    /// What the generation is to do: `Line::phase`.
    pub(crate) fn phase(&self) -> Phase {
        self.line.phase(self.number)
    }

    /// What its workers are to do: as `phase`, but `Draining` once the room accepts no further commands, and `Stopped` once it
    /// was.
    pub(crate) fn worker_phase(&self) -> Phase {
        if self.is_stopped.load(Ordering::SeqCst) {
            return Phase::Stopped;
        }
        match self.phase() {
            Phase::Serving if self.room.is_full() => Phase::Draining,
            Phase::Stopped => {
                self.is_stopped.store(true, Ordering::SeqCst);
                Phase::Stopped
            }
            other => other,
        }
    }

    /// Whether no connection is open and none will be: reads the phase before the count.
    pub(crate) fn is_drained(&self) -> bool {
        !self.phase().may_accept() && !self.room.has_connections()
    }

    /// A round at this moment of the worker whose sockets are registered here. What clients are read may have come since
    /// `came_us`.
    pub(crate) fn round<'r>(
        &'r self,
        registry: &'r Registry,
        mode: Mode,
        now: Moment,
        came_us: u64,
    ) -> Round<'r> {
        Round {
            room: &self.room,
            notices: self.notices(),
            registry,
            now: now.ms,
            now_us: now.us,
            came_us,
            most_parts: self.most_parts,
            gives_up: mode.gives_up,
            ends_inputs: mode.ends_inputs,
            carries_over: self.line.runs(),
            buffers_all: !self.line.has_too_much_waiting(),
            idle_ms: self.line.idle_ms(),
        }
    }

    /// Whether clients must be held back until some worker has looked at its hosts.
    #[inline(always)]
    pub(crate) fn must_hold_back(&self) -> bool {
        self.notices.pressed() != 0
    }

    /// Wakes the other workers for whose hosts clients are held back.
    pub(crate) fn wake_behind(&self, index: usize) {
        let pressed = self.notices.pressed();
        for (other, worker) in self.workers.iter().enumerate() {
            if other != index && self.notices.has_any_of(other, pressed) {
                worker.wake();
            }
        }
    }

    /// Wakes the other workers that hold clients back.
    pub(crate) fn wake_held(&self, index: usize) {
        for (other, worker) in self.workers.iter().enumerate() {
            if other != index && worker.is_held_back.load(Ordering::SeqCst) {
                worker.wake();
            }
        }
    }

    /// Wakes the other workers that have something to know.
    pub(crate) fn wake_concerned(&self, index: usize) {
        for (other, worker) in self.workers.iter().enumerate() {
            if other != index && self.notices.concern(other) {
                worker.wake();
            }
        }
    }
}

// The most parts that each of these many workers may let a client queue before it looks at its own hosts.
fn parts_per_worker(workers: u64) -> u64
    ensures most { result * workers ≤ MAX_PARTS_AT_ONCE }
    ensures some { workers ≤ MAX_PARTS_AT_ONCE → 1 ≤ result }
{
    if workers == 0 {
        MAX_PARTS_AT_ONCE
    } else {
        MAX_PARTS_AT_ONCE / workers
    }
}
