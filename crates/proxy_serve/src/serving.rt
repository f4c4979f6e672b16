//! `serve`, from its listener to its last line.

use crate::acceptor::Acceptor;
use crate::generation_threads::GenerationThreads;
use crate::shares::Shares;
use close_behind::CloseBehind;
use mio::Events;
use mio::net::TcpListener;
use open_sockets::MAX_LINES;
use proxy_admin::{Admin, AdminListener};
use proxy_config::Config;
use proxy_exit_status::Ending;
use proxy_generations::{Due, Marks};
use proxy_rounds::{LineContext, ServeRuntime, Server, run_generation};
use proxy_serve_core::TermEffect;
use proxy_server::{Extent, Inherited, Log, Stop};
use proxy_stats::Counts;
use std::alloc::{AllocError, Global};
use std::fs::File;
use std::io::Write;
use std::net::Net;
use std::sync::Wait;
use std::{io, thread};

// The most events that the accepting thread takes at once.
const MAX_EVENTS: usize = 4;

/// The options of `serve` beside its settings.
#[derive(Drop)]
pub struct Options {
    /// The operator's address; `None`: none.
    pub admin: Option<Admin>,
    /// `/proc/self/status`, which shows pending signals; `None`: signals aren't heeded.
    pub status: Option<File>,
    /// Whether SIGTERM is said to be blocked: then it doesn't serve where signals aren't heeded.
    pub is_term_blocked: bool,
    /// The number of lines of generations, 1 to `MAX_LINES`, each with as many workers as the settings say.
    pub lines: u32,
    /// The number of closed connections after which it ends; 0 is never.
    pub connections: u64,
    /// Milliseconds until an idle client is closed; 0: never.
    pub idle_ms: u64,
    /// Milliseconds from an order to its drain.
    pub drain_after_ms: u64,
    /// The length of a journal at which the next one opens.
    pub marks: Marks,
    /// Behind which refused commands a connection is closed.
    pub behind: CloseBehind,
    /// The beginning of its lines on standard error.
    pub log: Log,
}

/// Serves clients on the listener by the settings. It ends when it has drained, at once on an order, or after
/// `connections` closed connections. Then it writes the counts of the whole run and a newline:
/// `accepted <a> handed <o> sent <s> answered <r> lost <l> ejections <e>`.
///
/// It drains when SIGTERM or SIGINT waits for the process, by `status`, `drain_after_ms` later: no further client is accepted,
/// what has come is answered, and then each connection is closed. If both wait it ends at once.
///
/// The next journal opens when one has reached the marks.
///
/// Stops with `Socket` (5), and what failed, where the listener, a poll or the writer fails, and at once where SIGTERM is
/// blocked and `status` can't be read. Stops with `Memory` (6)
/// where memory was refused at the start or 1,000 times in a row to one thing, and with `Spent` (7) where a gate has no
/// ticket left. All threads have ended then.
pub fn serve<R: ServeRuntime, W: Write>(
    rt: &R,
    alloc: Global,
    listener: TcpListener,
    config: Config,
    options: Options,
    output: &mut W,
) -> Result<(), Stop> {
    let served = run_server(rt, alloc, listener, &config, options);
    drop(config);
    write_counts(&served?, output)
}

// Nothing but SIGKILL would end the program.
fn unseen_signals() -> Stop {
    Stop::socket(
        "SIGTERM is blocked, and signals can't be seen in /proc/self/status",
        io::Error::from(io::ErrorKind::NotFound),
    )
}

fn open_admin<R: Net>(
    rt: &R,
    alloc: Global,
    admin: Option<Admin>,
) -> Result<Option<AdminListener>, Stop> {
    match admin {
        None => Ok(None),
        Some(admin) => Ok(Some(AdminListener::open(rt, alloc, admin)?)),
    }
}

// Serves by settings that outlive all threads; `serve` drops them. Returns the counts of the whole run.
fn run_server<R: ServeRuntime>(
    rt: &R,
    alloc: Global,
    listener: TcpListener,
    config: &Config,
    options: Options,
) -> Result<Counts, Stop> {
    let Options {
        admin,
        status,
        is_term_blocked,
        lines,
        connections,
        idle_ms,
        drain_after_ms,
        marks,
        behind,
        log,
    } = options;
    let admin = open_admin(rt, alloc, admin)?;
    let lines = lines.clamp(1, MAX_LINES) as usize;
    let shares = Shares::new(alloc, lines, config.workers as usize)?;
    let (mut acceptor, waker) = Acceptor::open(rt, listener, config, shares, status)?;
    let effect = acceptor.effect_of_term();
    if is_term_blocked && effect == TermEffect::Unseen {
        return Err(unseen_signals());
    }
    let extent = Extent {
        lines,
        idle_ms,
        drain_after_ms,
        connections,
    };
    let server = Server::new(alloc, config, waker, extent, log)?;
    acceptor.log_start(rt, &server, config, effect);
    let serving = Serving {
        server: &server,
        config,
        behind: &behind,
        marks,
    };
    run_generations(rt, alloc, acceptor, admin, serving)?;
    match server.stop_reason(rt) {
        Some(stop) => Err(stop),
        None => Ok(server.counts(rt)),
    }
}

/// `serve` with one line, no operator's address and no signals; returns only the ending.
pub fn serve_run<R: ServeRuntime, W: Write>(
    rt: &R,
    alloc: Global,
    listener: TcpListener,
    config: Config,
    connections: u64,
    marks: Marks,
    output: &mut W,
) -> Result<(), Ending> {
    let options = Options {
        admin: None,
        status: None,
        is_term_blocked: false,
        lines: 1,
        connections,
        idle_ms: 0,
        drain_after_ms: 0,
        marks,
        behind: CloseBehind::none(),
        log: Log::new(false),
    };
    match serve(rt, alloc, listener, config, options, output) {
        Ok(()) => Ok(()),
        Err(stop) => Err(stop.ending),
    }
}

#[derive(Clone, Copy, Drop)]
struct Serving<'a> {
    server: &'a Server,
    config: &'a Config,
    behind: &'a CloseBehind,
    marks: Marks,
}

impl<'a> Serving<'a> {
    // The generation that a line is to open now.
    fn take_due<R: Wait>(&self, rt: &R, index: usize) -> Option<(LineContext<'a>, Due<Inherited>)> {
        let line = self.server.line(index)?;
        let due = line.take_due(rt)?;
        let context = LineContext {
            line,
            config: self.config,
            behind: self.behind,
            marks: self.marks,
        };
        Some((context, due))
    }
}

fn run_admin<R: ServeRuntime>(rt: &R, admin: AdminListener, serving: Serving<'_>) {
    admin.run(rt, serving.server, serving.config.hosts.as_slice());
}

fn threads_of(alloc: Global, lines: usize) -> Result<Vec<GenerationThreads>, AllocError> {
    let mut threads = Vec::new(alloc);
    for _ in 0..lines {
        threads.push(GenerationThreads::new(alloc)?)?;
    }
    Ok(threads)
}

// Runs one generation of each line after another until the server ends.
fn run_generations<R: ServeRuntime>(
    rt: &R,
    alloc: Global,
    mut acceptor: Acceptor,
    admin: Option<AdminListener>,
    serving: Serving<'_>,
) -> Result<(), Stop> {
    let server = serving.server;
    let mut events = Events::with_capacity(alloc, MAX_EVENTS)?;
    let mut threads = threads_of(alloc, server.lines())?;
    thread::scope(thread::scope_env(), rt, |scope| {
        if let Some(admin) = admin {
            if scope.spawn(move || run_admin(rt, admin, serving)).is_err() {
                server.end(rt, Stop::from(Ending::Memory));
            }
        }
        for _ in rt.forever() {
            if !server.runs() {
                break;
            }
            for index in 0..threads.len() {
                let Some((context, due)) = serving.take_due(rt, index) else {
                    continue;
                };
                let number = due.number;
                threads[index].make_room(rt, context.line);
                match scope.spawn(move || run_generation(rt, alloc, context, due)) {
                    Ok(handle) => threads[index].add(rt, number, handle),
                    Err(_) => context.line.fail(rt, number, Stop::from(Ending::Memory)),
                }
            }
            if let Err(stop) = acceptor.run_once(rt, server, &mut events) {
                server.end(rt, stop);
            }
        }
        for index in 0..threads.len() {
            threads[index].join_all(rt);
        }
    });
    Ok(())
}

fn write_counts<W: Write>(counts: &Counts, output: &mut W) -> Result<(), Stop> {
    let (accepted, handed) = (counts.accepted, counts.handed);
    let (sent, answered) = (counts.sent, counts.answered);
    let (lost, ejections) = (counts.lost, counts.ejections);
    let written = output.write_fmt(format_args!(
        "accepted {accepted} handed {handed} sent {sent} answered {answered} lost {lost} ejections {ejections}\n"
    ));
    match written {
        Ok(()) => Ok(()),
        Err(error) => Err(Stop::socket("cannot write the counts", error)),
    }
}
