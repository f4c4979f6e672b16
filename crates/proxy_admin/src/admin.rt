use crate::operated::Operated;
use crate::process_files::ProcessFiles;
use crate::visits::{LISTENER, Visits};
use mio::net::TcpListener;
use mio::{Interest, Poll};
use proxy_config::Host;
use std::alloc::Global;
use std::hash::RandomState;
use std::io::Error;
use std::net::Net;
use std::rt::Clock;
use std::sync::Wait;

/// The operator's listener, and what its pages say.
#[derive(Drop)]
pub struct Admin {
    /// The listener.
    pub listener: TcpListener,
    /// Secret keys for its hash tables.
    pub keys: RandomState,
    /// The program's version.
    pub version: &'static str,
    /// The kit that proved it.
    pub kit: &'static str,
    /// What tells how much the process uses.
    pub process: ProcessFiles,
}

/// Why the operator's end could not be opened.
#[derive(Clone, Copy, Drop)]
pub enum OpenError {
    /// The system gave no poll.
    NoPoll(Error),
    /// The poll refused the listener.
    NotPolled(Error),
}

/// The operator's end, before its thread runs.
pub struct AdminListener {
    alloc: Global,
    admin: Admin,
    poll: Poll,
}

impl Drop for AdminListener {
    fn drop(self) {
        let AdminListener {
            alloc: _,
            admin: _,
            poll: _,
        } = self;
    }
}

impl AdminListener {
    /// Makes a poll for the listener. Fails with `NoPoll` or `NotPolled` where the system refuses.
    pub fn open<R: Net>(
        rt: &R,
        alloc: Global,
        mut admin: Admin,
    ) -> Result<AdminListener, OpenError> {
        let poll = match Poll::new(rt) {
            Ok(poll) => poll,
            Err(error) => return Err(OpenError::NoPoll(error)),
        };
        let registered = poll
            .registry()
            .register(&mut admin.listener, LISTENER, Interest::READABLE);
        match registered {
            Ok(()) => Ok(AdminListener { alloc, admin, poll }),
            Err(error) => Err(OpenError::NotPolled(error)),
        }
    }

    /// Answers visitors until the server ends or the poll fails. Pages name these hosts.
    pub fn run<R: Wait + Clock + Eprint, S: Operated>(self, rt: &R, server: &S, hosts: &[Host]) {
        let AdminListener { alloc, admin, poll } = self;
        let mut visits = Visits::new(alloc, admin, poll);
        visits.serve(rt, server, hosts);
    }
}
