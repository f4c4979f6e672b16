//! A worker: a thread that has a poll and steps its clients and hosts.
ghost use Rattle.std.specs.Prelude.{◌≡◌, [], IfSome};
ghost use Rattle.proxy_connections.specs.WorkerConnections.{steps_of};

use crate::generation_state::{GenerationState, ThreadContext};
use mio::event::Event;
use mio::{Events, Poll, Token};
use proxy_connections::{ConnectionSetup, HOSTS, StepError, WorkerConnections};
use proxy_generations::{Change, Mode, Phase};
use proxy_notices::Place;
use proxy_serve_core::{Arrivals, Refusals};
use proxy_server::{Moment, Stop};
use proxy_stats::TalliedCore;
use std::marker::Model;
use std::net::Net;
use std::rt::Clock;
use std::sync::Wait;
use std::time::Duration;
use ticket_gate::Seated;

mod closing;
mod faults;
mod opening;
mod stepping;

/// The token of a worker's waker.
pub(crate) const WAKER: Token = Token(usize::MAX);

// The longest sleep of an idle worker, in milliseconds.
const IDLE_MS: u64 = 10;

// The most milliseconds until it looks for sockets in its queue, though nothing woke it.
const QUEUE_MS: u64 = 10;

// The milliseconds between two reports of durations: its commands' and its hosts'.
const REPORT_MS: u64 = 10;

// The most milliseconds until it steps a client, though nothing told of it.
const ALL_CLIENTS_MS: u64 = 100;

// The most rounds before the last sockets of a generation are closed.
const MAX_LAST_ROUNDS: u32 = 128;

// The most milliseconds between two of these.
const LAST_PAUSE_MS: u64 = 1;

// The milliseconds until the next try after one without memory.
const NO_MEMORY_MS: u64 = 1;

// The most events taken from the poll, and sockets from the queue, at once.
const MAX_EVENTS: usize = 1_024;

// The most sockets opened in a round, so that clients are served between them.
const MAX_OPENED: usize = 64;

// The most idle clients that leave in a round, so that busy ones leave first.
const MAX_LEAVING: usize = 32;

/// What a worker starts with.
pub(crate) struct WorkerSetup<'a> {
    context: ThreadContext<'a>,
    place: Place,
    poll: Poll,
    seat: Seated<'a, TalliedCore>,
}

impl Drop for WorkerSetup<'_> {
    fn drop(self) {
        let WorkerSetup {
            context: _,
            place: _,
            poll: _,
            seat: _,
        } = self;
    }
}

impl<'a> Model for WorkerSetup<'a> {
    ghost use Rattle.std.specs.Prelude.{◌≡◌, []};
    ghost use Rattle.proxy_connections.specs.WorkerConnections.{steps_of};
    ghost use Rattle.proxy_connections.specs.Assigned.{Assigned};

    ghost Value = { Assigned };

    ghost view = { λ s. record { place = s.place; pass = s.seat.pass.number } };

    ghost invariant = { λ s. steps_of s.seat ≡ [] };
}

impl<'a> WorkerSetup<'a> {
    pub(crate) fn new(
        context: ThreadContext<'a>,
        place: Place,
        poll: Poll,
        seat: Seated<'a, TalliedCore>,
    ) -> WorkerSetup<'a>
        requires { steps_of seat ≡ [] }
        ensures { result ≡ record { place = place; pass = seat.entry.pass.number } }
    {
        WorkerSetup {
            context,
            place,
            poll,
            seat,
        }
    }

    /// Works once all threads of its generation have come, until that has nothing more to do, or ends the server.
    /// Without memory to begin the generation is given up.
    pub(crate) fn run<R: Wait + Net + Clock + Eprint>(self, rt: &R) {
        let generation = self.context.generation;
        let Ok(events) = Events::with_capacity(self.context.alloc, MAX_EVENTS) else {
            generation.abandon_start();
            return;
        };
        match self.worker() {
            Some(worker) => worker.run(rt, events),
            None => generation.abandon_start(),
        }
    }

    // The worker with its hosts and no clients. `None`: there is no memory for the hosts, or its line has no such worker.
    fn worker(self) -> Option<Worker<'a>>
        ensures { IfSome result (λ worker. worker.connections.place ≡ self.entry.place) }
    {
        let WorkerSetup {
            context,
            place,
            poll,
            seat,
        } = self;
        let ThreadContext {
            alloc,
            generation,
            config,
            behind,
            marks: _,
        } = context;
        let traffic = generation.line().traffic(place.index)?;
        let setup = ConnectionSetup {
            alloc,
            config,
            traffic,
        };
        let connections = WorkerConnections::new(setup, place, behind, seat).ok()?;
        Some(Worker {
            poll,
            generation,
            connections,
            reply_ms: config.reply_ms,
            opening: Refusals::new(),
            now: Moment::FIRST,
            arrivals: Arrivals::new(0),
            came_us: 0,
            lacks_memory: false,
            undrained: 0,
            may_have_sockets: true,
            accepted_at: 0,
            looked_at: 0,
            next: 0,
            is_held_back: false,
            mode: Mode::new(),
            reported_at: 0,
            bidder: generation.line().new_bidder(),
        })
    }
}

/// What a step leaves to do.
#[derive(Clone, Copy, PartialEq, Eq, Drop)]
enum Remaining {
    /// Something that can be done at once.
    Work,
    /// Nothing, until the poll or another thread tells of something.
    Nothing,
}

impl Remaining {
    fn work_if(is_more: bool) -> Remaining {
        if is_more {
            Remaining::Work
        } else {
            Remaining::Nothing
        }
    }

    fn or(self, other: Remaining) -> Remaining {
        Remaining::work_if(self == Remaining::Work || other == Remaining::Work)
    }
}

struct Worker<'a> {
    poll: Poll,
    generation: &'a GenerationState<'a>,
    connections: WorkerConnections<'a>,
    reply_ms: u32,
    // Consecutive refusals of memory to the first socket in the queue.
    opening: Refusals,
    // Read behind the poll, and the microseconds again before what clients brought is sent.
    now: Moment,
    arrivals: Arrivals,
    // Since when what clients are read may have come.
    came_us: u64,
    // Something in this round found no memory.
    lacks_memory: bool,
    // The first client that may not drain yet, once the worker does.
    undrained: usize,
    // Sockets may wait in the queue.
    may_have_sockets: bool,
    accepted_at: u64,
    looked_at: u64,
    // The client with which rounds begin: where clients were last held back.
    next: usize,
    // Clients wait until other workers have looked at their hosts.
    is_held_back: bool,
    mode: Mode,
    reported_at: u64,
    // With which it bids for its stalled clients.
    bidder: u64,
}

impl Drop for Worker<'_> {
    fn drop(self) {
        let Worker {
            poll: _,
            generation: _,
            connections: _,
            reply_ms: _,
            opening: _,
            now: _,
            arrivals: _,
            came_us: _,
            lacks_memory: _,
            undrained: _,
            may_have_sockets: _,
            accepted_at: _,
            looked_at: _,
            next: _,
            is_held_back: _,
            mode: _,
            reported_at: _,
            bidder: _,
        } = self;
    }
}

impl<'a> Worker<'a> {
    // Its index among the generation's workers.
    fn index(&self) -> usize {
        self.connections.place().index
    }

    fn run<R: Wait + Net + Clock + Eprint>(mut self, rt: &R, events: Events) {
        if !self.generation.wait_for_all(rt) {
            return;
        }
        match self.run_rounds(rt, events) {
            Ok(()) => self.close_clients(rt),
            Err(stop) => self.generation.line().end(rt, stop),
        }
    }

    // One round for each wait at the poll, until the generation is stopped or leaves nothing more to do.
    fn run_rounds<R: Wait + Net + Clock + Eprint>(
        &mut self,
        rt: &R,
        mut events: Events,
    ) -> Result<(), Stop> {
        let mut pause = 0;
        self.arrivals = Arrivals::new(Moment::now(rt).us);
        self.settle(rt);
        for _ in rt.forever() {
            if self.follow_phase() == Phase::Stopped {
                return self.finish(rt, &mut events);
            }
            self.wait(rt, &mut events, pause)?;
            let is_last = self.may_end();
            if is_last {
                // (no part may depend on a notice)
                self.connections.stir_hosts();
            }
            self.end_inputs();
            let remaining = self.make_round(rt)?;
            pause = self.pause(remaining);
            self.settle(rt);
            if is_last && self.connections.are_hosts_at_rest() {
                return Ok(());
            }
        }
        unreachable!()
    }

    // Whether there is no client, and no further part comes.
    fn may_end(&self) -> bool {
        self.mode.drains && self.connections.is_empty() && self.generation.takes_nothing()
    }

    // What the worker is to do, which it does from now on.
    fn follow_phase(&mut self) -> Phase {
        let phase = self.generation.worker_phase();
        if self.mode.follow(phase) == Change::Begins {
            self.drain();
        }
        phase
    }

    // Takes in no further commands, and reports it: from here on each client drains before it is stepped.
    fn drain(&mut self) {
        self.undrained = 0;
        self.generation.stop_taking();
    }

    // Has a few more clients drain.
    fn drain_some(&mut self) -> Remaining {
        let capacity = self.connections.capacity();
        let end = self.undrained.saturating_add(MAX_LEAVING).min(capacity);
        for key in self.undrained..end {
            self.connections.drain(key);
        }
        self.undrained = end;
        Remaining::work_if(end < capacity)
    }

    fn wait<R: Clock>(&mut self, rt: &R, events: &mut Events, pause: u64) -> Result<(), Stop> {
        let called = Moment::now(rt).us;
        let polled = self.poll.poll(events, Some(Duration::from_millis(pause)));
        self.now = Moment::now(rt);
        self.came_us = self.arrivals.polled(called, self.now.us);
        if let Some(worker) = self.generation.worker(self.index()) {
            worker.mark_awake();
        }
        if let Err(error) = polled {
            return Err(Stop::socket("cannot poll", error));
        }
        for event in &*events {
            self.on_event(event);
        }
        Ok(())
    }

    // A worker that stops answers what it still can, and hands sockets over, before it closes the others. Without connections
    // no link is given up, which would count as a fault of its host.
    fn finish<R: Wait + Net + Clock + Eprint>(
        &mut self,
        rt: &R,
        events: &mut Events,
    ) -> Result<(), Stop> {
        for _ in 0..MAX_LAST_ROUNDS {
            if !self.generation.line().runs() || self.generation.is_drained() {
                break;
            }
            let remaining = self.make_round(rt)?;
            if remaining == Remaining::Nothing && !self.connections.may_be_answered() {
                break;
            }
            let pause = self.pause(remaining).min(LAST_PAUSE_MS);
            self.wait(rt, events, pause)?;
        }
        Ok(())
    }

    fn settle<R: Wait>(&mut self, rt: &R) {
        self.connections.settle(rt, &self.generation.room);
    }

    fn report_durations<R: Wait>(&mut self, rt: &R) {
        let reported = self.connections.take_durations();
        if reported.total > 0 {
            self.generation.line().add_durations(rt, &reported);
        }
        for index in 0..self.connections.host_count() {
            self.report_host_time(rt, index);
        }
    }

    fn report_host_time<R: Wait>(&mut self, rt: &R, index: usize) {
        if let Some(time) = self.connections.take_host_time(index) {
            let line = self.generation.line();
            line.add_host_durations(rt, time.host, &time.durations);
        }
    }

    // Ends its clients' inputs once the server drains.
    fn end_inputs(&mut self) {
        if !self.generation.line().is_draining() || self.mode.end_inputs() == Change::Stays {
            return;
        }
        for key in 0..self.connections.capacity() {
            self.connections.end_input(key);
        }
    }

    fn pause(&self, remaining: Remaining) -> u64 {
        if self.lacks_memory {
            return NO_MEMORY_MS;
        }
        let has_work = remaining == Remaining::Work || self.connections.has_ready();
        if has_work && !self.is_held_back {
            return 0;
        }
        if let Some(worker) = self.generation.worker(self.index()) {
            worker.mark_asleep(self.is_held_back);
        }
        if self.has_news() { 0 } else { IDLE_MS }
    }

    // Whether there is something to hear, or clients needn't be held back any more.
    fn has_news(&self) -> bool {
        self.generation.notices().concern(self.index())
            || (self.is_held_back && !self.must_hold_back())
    }

    fn on_event(&mut self, event: &Event) {
        let token = event.token();
        if token == WAKER {
            self.may_have_sockets = true;
        } else if token.0 >= HOSTS {
            self.connections.on_host_event(token.0 - HOSTS, event);
        } else {
            self.connections.on_client_event(token.0, event);
        }
    }

    fn make_round<R: Wait + Net + Clock + Eprint>(&mut self, rt: &R) -> Result<Remaining, Stop> {
        self.lacks_memory = false;
        if self.may_have_sockets || self.now.ms.saturating_sub(self.accepted_at) >= QUEUE_MS {
            self.accepted_at = self.now.ms;
            self.open_sockets(rt)?;
        }
        let undrained = if self.mode.drains {
            self.drain_some()
        } else {
            Remaining::Nothing
        };
        let remaining = self.step_all(rt)?.or(undrained);
        if self.now.ms.saturating_sub(self.reported_at) >= REPORT_MS {
            self.reported_at = self.now.ms;
            self.report_durations(rt);
        }
        self.generation.wake_concerned(self.index());
        Ok(remaining)
    }

    fn step_all<R: Wait + Net + Clock + Eprint>(&mut self, rt: &R) -> Result<Remaining, Stop> {
        let hosts = self.step_hosts(rt)?;
        let clients = self.step_clients(rt)?;
        self.now.us = Moment::now(rt).us;
        self.connections.count_answered(self.now.us);
        let after = self.step_hosts(rt)?;
        Ok(hosts.or(clients).or(after))
    }

    // Without memory the step is made again, until too many were refused in a row.
    fn handle_step_error(&mut self, error: StepError) -> Result<(), Stop> {
        match error {
            StepError::Full => {
                self.generation.room.stop_accepting();
                Ok(())
            }
            StepError::Ends(ending) => Err(Stop::from(ending)),
            StepError::Memory => {
                self.lacks_memory = true;
                Ok(())
            }
            StepError::EndsOne => Ok(()),
        }
    }
}
