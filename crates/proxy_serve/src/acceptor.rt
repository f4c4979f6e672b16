//! The thread that accepts sockets and obeys signals.

use crate::shares::Shares;
use crate::signals::Signals;
use fresh_stream::FreshStream;
use mio::net::TcpListener;
use mio::{Events, Interest, Poll, Token, Waker};
use proxy_config::Config;
use proxy_rounds::Server;
use proxy_serve_core::{Asked, SocketRefusal, TermEffect};
use proxy_server::{Level, Stop, now};
use std::fs::File;
use std::io;
use std::io::ErrorKind;
use std::net::{Net, SocketAddr};
use std::rt::Clock;
use std::sync::Wait;
use std::time::Duration;

// The token of the listener.
const LISTENER: Token = Token(0);

// The token of the accepting thread's waker.
const WAKER: Token = Token(1);

// The most sockets accepted at once.
const MAX_TAKEN: u32 = 1_024;

// The most milliseconds until it looks for work.
const PAUSE_MS: u64 = 10;

// Linux's errors for want of room for a further socket: no memory, no file number in the system or in the process, and
// no buffers.
const ENOMEM: i32 = 12;

const ENFILE: i32 = 23;

const EMFILE: i32 = 24;

const ENOBUFS: i32 = 105;

/// The accepting thread's state.
pub(crate) struct Acceptor {
    poll: Poll,
    // None once no further client is accepted.
    listener: Option<TcpListener>,
    // The listener's address.
    address: SocketAddr,
    shares: Shares,
    signals: Signals,
}

impl Drop for Acceptor {
    fn drop(self) {
        let Acceptor {
            poll: _,
            listener: _,
            address: _,
            shares: _,
            signals: _,
        } = self;
    }
}

impl Acceptor {
    /// Makes a poll for the listener, and its waker. The settings' address stands in where the system returns none.
    pub(crate) fn open<R: Net>(
        rt: &R,
        mut listener: TcpListener,
        config: &Config,
        shares: Shares,
        status: Option<File>,
    ) -> Result<(Acceptor, Waker), Stop> {
        let (poll, waker) = open_poll(rt, &mut listener)?;
        let acceptor = Acceptor {
            poll,
            address: listener.local_addr().unwrap_or(config.listen),
            listener: Some(listener),
            shares,
            signals: Signals::new(status),
        };
        Ok((acceptor, waker))
    }

    /// Logs the start, with what SIGTERM does.
    pub(crate) fn log_start<R: Eprint>(
        &self,
        rt: &R,
        server: &Server,
        config: &Config,
        effect: TermEffect,
    ) {
        let (tag, lines) = (server.log().tag(Level::Info), server.lines());
        let (address, hosts, workers) = (self.address, config.hosts.len(), config.workers);
        let ends = match effect {
            TermEffect::Drains => "SIGTERM drains",
            TermEffect::Ends => "SIGTERM ends it at once",
            TermEffect::Nothing => "SIGTERM does nothing: it isn't blocked in the first process",
            TermEffect::Unseen => {
                "signals aren't looked at, since /proc/self/status can't be read: SIGTERM ends it at once, or does nothing if it is blocked"
            }
        };
        let _ = if lines == 1 {
            eprintln!(rt;
                "{tag}redproxy: listening on {address}, {hosts} hosts, {workers} workers; {ends}"
            )
        } else {
            eprintln!(rt;
                "{tag}redproxy: listening on {address}, {hosts} hosts, {workers} workers in each of {lines} lines; {ends}"
            )
        };
    }

    /// What SIGTERM does to the process.
    pub(crate) fn effect_of_term(&mut self) -> TermEffect {
        self.signals.effect_of_term()
    }

    // Waits at most `PAUSE_MS` milliseconds.
    fn wait(&mut self, events: &mut Events) -> Result<(), Stop> {
        match self
            .poll
            .poll(events, Some(Duration::from_millis(PAUSE_MS)))
        {
            Ok(()) => Ok(()),
            Err(error) => Err(Stop::socket("cannot poll", error)),
        }
    }

    /// Waits for events, accepts sockets, and obeys signals.
    pub(crate) fn run_once<R: Wait + Clock + Eprint>(
        &mut self,
        rt: &R,
        server: &Server,
        events: &mut Events,
    ) -> Result<(), Stop> {
        self.wait(events)?;
        let moment = now(rt);
        self.accept_all(rt, server, moment)?;
        match self.signals.asked(moment) {
            Asked::Nothing => server.follow_plan(rt, moment),
            Asked::Drain => server.order_drain(rt, moment, None),
            Asked::Quit => server.quit(),
        }
        if server.is_draining() {
            // (the system refuses clients from here on)
            self.listener = None;
        }
        Ok(())
    }

    fn accept_all<R: Wait + Eprint>(
        &mut self,
        rt: &R,
        server: &Server,
        moment: u64,
    ) -> Result<(), Stop> {
        let Some(listener) = &self.listener else {
            return Ok(());
        };
        self.shares.note_gone(server);
        for _ in 0..MAX_TAKEN {
            match FreshStream::accept(listener) {
                Ok(stream) => self.shares.give(rt, server, stream, moment),
                Err(error) => {
                    if error.kind() == ErrorKind::WouldBlock {
                        break;
                    }
                    if let Some(cause) = want_of_room(&error) {
                        server.note_refused(rt, cause, moment);
                        break;
                    }
                    // (the peer may be gone already)
                    if error.kind() != ErrorKind::ConnectionAborted
                        && error.kind() != ErrorKind::Interrupted
                    {
                        return Err(Stop::socket_at("cannot accept on", self.address, error));
                    }
                }
            }
        }
        Ok(())
    }
}

// For want of which room accepting failed, if for that alone: it is tried again later.
fn want_of_room(error: &io::Error) -> Option<SocketRefusal> {
    match error.raw_os_error() {
        Some(ENFILE | EMFILE) => Some(SocketRefusal::NoFile),
        Some(ENOMEM | ENOBUFS) => Some(SocketRefusal::NoMemory),
        Some(_) | None => None,
    }
}

fn open_poll<R: Net>(rt: &R, listener: &mut TcpListener) -> Result<(Poll, Waker), Stop> {
    let poll = match Poll::new(rt) {
        Ok(poll) => poll,
        Err(error) => return Err(Stop::socket("cannot make a poll", error)),
    };
    let registered = poll
        .registry()
        .register(listener, LISTENER, Interest::READABLE);
    if let Err(error) = registered {
        return Err(Stop::socket("cannot poll the listener", error));
    }
    match Waker::new(poll.registry(), WAKER) {
        Ok(waker) => Ok((poll, waker)),
        Err(error) => Err(Stop::socket("cannot make a waker", error)),
    }
}
