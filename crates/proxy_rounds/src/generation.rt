//! A generation: a journal, its gate, and the threads that make turns at it.
ghost use Rattle.std.specs.Prelude.{◌≡◌, [], IfOk, IfSome, None, Some, length, ⊤};
ghost use Rattle.ticket_gate.specs.Gate.{IsPassOf};
ghost use Rattle.ticket_gate.specs.Journal.{steps_of};
ghost use Rattle.proxy_core.specs.Recorded.{journal_of};
ghost use Rattle.proxy_core.specs.Handover.{HandoverFacts};
ghost use Rattle.proxy_connections.specs.Assigned.{Assigned};
ghost use Rattle.proxy_rounds.specs.Tasks.{HaveOwnPlaces, assigned_of};

use crate::generation_state::{GenerationState, ThreadContext, WorkerStatus};
use crate::seats::Seats;
use crate::server::LineContext;
use crate::sweeping::SweepThread;
use crate::worker::{WAKER, WorkerSetup};
use crossbeam_utils::CachePadded;
use engine_work::{EngineError, Work, run_all};
use journal_room::JournalRoom;
use mio::{Poll, Waker};
use proxy_config::Config;
use proxy_core::{CountingCore, Handover};
use proxy_exit_status::Ending;
use proxy_generations::Due;
use proxy_notices::{Notices, Place};
use proxy_server::{Inherited, Stop};
use proxy_stats::TalliedCore;
use std::alloc::Global;
use std::mem;
use std::net::Net;
use std::rt::Clock;
use std::sync::{Arc, Wait};
use std::thread::Threads;
use ticket_gate::{Gate, Pass};

/// What `serve` runs on: threads that can wait, sockets, the clock, and standard error.
pub trait ServeRuntime: Threads
    + Wait
    + Net<Listener = std::net::TcpListener, Stream = std::net::TcpStream>
    + Clock
    + Eprint
    + Sync {}

impl<
    R: Threads
        + Wait
        + Net<Listener = std::net::TcpListener, Stream = std::net::TcpStream>
        + Clock
        + Eprint
        + Sync,
> ServeRuntime for R {}

#[derive(Drop)]
enum Task<'a> {
    Work(WorkerSetup<'a>),
    Sweep(SweepThread<'a>),
    /// It was begun.
    Done,
}

impl<'a, Rt: Wait + Net + Clock + Eprint> Work<Rt> for Task<'a> {
    ghost is_fresh = { λ work. ⊤ };

    ghost may_answer = { λ work answer. ⊤ };

    fn run(&mut self, rt: &Rt) -> Result<(), EngineError> {
        match mem::replace(self, Task::Done) {
            Task::Work(worker) => worker.run(rt),
            Task::Sweep(sweeps) => sweeps.run(rt),
            Task::Done => {}
        }
        Ok(())
    }
}

// A core that starts from this handover, or a new one. It tells workers by these notices.
fn core(
    alloc: Global,
    config: &Config,
    from: Option<Handover>,
    notices: Arc<Notices>,
) -> Result<TalliedCore, Ending>
    ensures begins { IfOk result (λ core. core.steps ≡ []) }
    ensures settings { IfOk result (λ core. core.setting.rules.settings ≡ config.now.core) }
    ensures goes_on { IfOk result (λ core. (h : HandoverFacts) → from ≡ Some h
        → core.setting.opening ≡ h.detection.state) }
{
    let Ok(ring) = config.ring(alloc) else {
        return Err(Ending::Memory);
    };
    let made = match from {
        None => CountingCore::new(alloc, ring, config.core),
        Some(from) => CountingCore::new_from(alloc, ring, config.core, from),
    };
    let Ok(core) = made else {
        return Err(Ending::Memory);
    };
    match TalliedCore::new(alloc, core, notices) {
        Ok(core) => Ok(core),
        Err(_) => Err(Ending::Memory),
    }
}

// A worker's task, with a seat at the gate.
fn work_task<'a, R: Wait>(
    rt: &R,
    context: ThreadContext<'a>,
    seats: Seats<'a>,
    place: Place,
    poll: Poll,
) -> Result<Task<'a>, Ending>
    ensures { IfOk result (λ task. (a : Assigned)
        × (a.place ≡ place) × (assigned_of task ≡ Some a)) }
{
    let seat = seats.take(rt)?;
    Ok(Task::Work(WorkerSetup::new(context, place, poll, seat)))
}

// The task that sweeps and opens the generation, with a seat at the gate.
fn sweep_task<'a, R: Wait>(
    rt: &R,
    context: ThreadContext<'a>,
    seats: Seats<'a>,
    wakers: Vec<Waker>,
) -> Result<Task<'a>, Ending>
    ensures { IfOk result (λ task. assigned_of task ≡ None) }
{
    let seat = seats.take(rt)?;
    Ok(Task::Sweep(SweepThread::new(context, seat, wakers)))
}

// A worker's task for each poll, and the task that sweeps and opens the generation. As many workers as there are polls have the
// places among so many, each its own.
fn tasks<'a, R: Wait>(
    rt: &R,
    context: ThreadContext<'a>,
    seats: Seats<'a>,
    polls: Vec<Poll>,
    wakers: Vec<Waker>,
) -> Result<Vec<Task<'a>>, Stop>
    ensures { IfOk result (λ tasks. HaveOwnPlaces (length polls.items) tasks.items) }
{
    let mut tasks = Vec::new(context.alloc);
    let mut seats = seats;
    let workers = polls.len();
    let mut index = 0usize;
    for poll in polls {
        let (one, rest) = seats.split();
        seats = rest;
        let place = Place { index, workers };
        tasks.push(work_task(rt, context, one, place, poll)?)?;
        index = index.saturating_add(1);
    }
    tasks.push(sweep_task(rt, context, seats, wakers)?)?;
    Ok(tasks)
}

fn waker_of(poll: &Poll) -> Result<Waker, Stop> {
    match Waker::new(poll.registry(), WAKER) {
        Ok(waker) => Ok(waker),
        Err(error) => Err(Stop::socket("cannot make a worker's waker", error)),
    }
}

fn make_poll<R: Net>(rt: &R) -> Result<Poll, Stop> {
    match Poll::new(rt) {
        Ok(poll) => Ok(poll),
        Err(error) => Err(Stop::socket("cannot make a worker's poll", error)),
    }
}

/// The workers' polls, their state, and the wakers for new sockets.
#[derive(Drop)]
struct Polls {
    polls: Vec<Poll>,
    workers: Vec<CachePadded<WorkerStatus>>,
    wakers: Vec<Waker>,
}

impl Polls {
    fn add<R: Net>(&mut self, rt: &R) -> Result<(), Stop> {
        let poll = make_poll(rt)?;
        self.add_wakers(&poll)?;
        self.polls.push(poll)?;
        Ok(())
    }

    fn add_wakers(&mut self, poll: &Poll) -> Result<(), Stop> {
        let status = WorkerStatus::new(waker_of(poll)?);
        self.workers.push(CachePadded::new(status))?;
        self.wakers.push(waker_of(poll)?)?;
        Ok(())
    }
}

fn make_polls<R: Net>(rt: &R, alloc: Global, workers: usize) -> Result<Polls, Stop> {
    let mut all = Polls {
        polls: Vec::new(alloc),
        workers: Vec::new(alloc),
        wakers: Vec::new(alloc),
    };
    for _ in 0..workers {
        all.add(rt)?;
    }
    Ok(all)
}

// The notices of a generation's workers, twice: for the workers, and for the core.
fn make_notices(alloc: Global, workers: usize) -> Result<(Arc<Notices>, Arc<Notices>), Ending> {
    let Ok(notices) = Notices::new(alloc, workers) else {
        return Err(Ending::Memory);
    };
    let Ok(notices) = Arc::new(alloc, notices) else {
        return Err(Ending::Memory);
    };
    match Arc::try_clone(&notices) {
        Ok(told) => Ok((notices, told)),
        Err(_) => Err(Ending::Memory),
    }
}

/// Opens the generation and serves until its threads have ended. Its counts are added to the line's. If it can't be
/// opened, this is reported to the line.
pub fn run_generation<R: ServeRuntime>(
    rt: &R,
    alloc: Global,
    context: LineContext<'_>,
    due: Due<Inherited>,
) {
    let (line, number) = (context.line, due.number);
    if let Err(stop) = open_and_run(rt, alloc, context, due) {
        if line.has_opened(number) {
            line.end(rt, stop);
        } else {
            line.fail(rt, number, stop);
        }
    }
}

// Opens the generation and runs its threads. Ends with `Memory`, `Socket` or `Spent` if it could not be opened; it was then
// never the newest.
fn open_and_run<R: ServeRuntime>(
    rt: &R,
    alloc: Global,
    context: LineContext<'_>,
    due: Due<Inherited>,
) -> Result<(), Stop> {
    let LineContext {
        line,
        config,
        behind,
        marks,
    } = context;
    let Due { number, from } = due;
    let (from, average) = match from {
        None => (None, 0),
        Some(Inherited { handover, average }) => (Some(handover), average),
    };
    let Polls {
        polls,
        workers,
        wakers,
    } = make_polls(rt, alloc, line.workers())?;
    let (notices, told) = make_notices(alloc, line.workers())?;
    let core = core(alloc, config, from, told)?;
    let room = JournalRoom::new(alloc, workers.len() as u64, average, line.unfinished()?)?;
    let generation = GenerationState::new(line, number, room, workers, notices);
    let context = ThreadContext {
        alloc,
        generation: &generation,
        config,
        behind,
        marks,
    };
    run_at_gate(rt, context, core, polls, wakers)
}

// Lets the threads make turns at a gate of their own. Once all have ended it reports what the core counted, unless a ticket
// was left.
fn run_at_gate<R: ServeRuntime>(
    rt: &R,
    context: ThreadContext<'_>,
    core: TalliedCore,
    polls: Vec<Poll>,
    wakers: Vec<Waker>,
) -> Result<(), Stop>
    requires { core.steps ≡ [] }
{
    let Ok((gate, spare)) = Gate::new(context.alloc, core) else {
        return Err(Stop::from(Ending::Memory));
    };
    let (own, spare) = gate.split(spare);
    let Ok(pass) = gate.enrol(rt, own) else {
        return Err(Stop::from(Ending::Spent));
    };
    run_threads(rt, context, Seats::new(&gate, spare), polls, wakers)?;
    if let Some(core) = close_gate(gate, pass) {
        report_end(rt, context.generation, core);
    }
    Ok(())
}

// Ends the gate by a pass that has seen nothing. No step of the whole journal is of that pass.
fn close_gate(gate: Gate<TalliedCore>, pass: Pass<TalliedCore>) -> Option<TalliedCore>
    requires own { IsPassOf gate pass }
    requires idle { pass.known.seen ≡ [] }
    ensures { IfSome result (λ core. steps_of pass.number (journal_of core) ≡ []) }
{
    gate.close(pass)
}

fn run_threads<'a, R: ServeRuntime>(
    rt: &R,
    context: ThreadContext<'a>,
    seats: Seats<'a>,
    polls: Vec<Poll>,
    wakers: Vec<Waker>,
) -> Result<(), Stop> {
    let tasks = tasks(rt, context, seats, polls, wakers)?;
    if run_all(rt, context.alloc, tasks).is_err() || !context.generation.has_begun() {
        return Err(Stop::from(Ending::Memory));
    }
    Ok(())
}

// Reports that the generation is gone, with its core.
fn report_end<R: Wait>(rt: &R, generation: &GenerationState<'_>, core: TalliedCore) {
    generation.line().gone(rt, generation.number(), &core);
    drop(core);
}
