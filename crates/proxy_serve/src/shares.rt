//! Which line, and which worker of it, gets a socket.

use fresh_stream::FreshStream;
use open_sockets::{LineSockets, NotAdmitted};
use proxy_rounds::Server;
use proxy_serve_core::{RoundRobin, SocketRefusal};
use std::alloc::{AllocError, Global};
use std::sync::Wait;

/// The line with the fewest sockets gets the next one, and its workers take turns.
#[derive(Drop)]
pub(crate) struct Shares {
    sockets: LineSockets,
    turns: Vec<RoundRobin>,
}

impl Shares {
    pub(crate) fn new(alloc: Global, lines: usize, workers: usize) -> Result<Shares, AllocError> {
        let mut turns = Vec::new(alloc);
        for _ in 0..lines {
            turns.push(RoundRobin::new(workers))?;
        }
        Ok(Shares {
            sockets: LineSockets::new(alloc, lines)?,
            turns,
        })
    }

    /// Takes in which sockets are gone.
    pub(crate) fn note_gone(&mut self, server: &Server) {
        for line in 0..self.sockets.lines() {
            for _ in 0..server.take_gone(line) {
                self.sockets.remove(line);
            }
        }
    }

    /// Gives the socket that came at this moment to a worker. One without room is closed, and that is told.
    pub(crate) fn give<R: Wait + Eprint>(
        &mut self,
        rt: &R,
        server: &Server,
        stream: FreshStream,
        moment: u64,
    ) {
        let line = self.sockets.fewest();
        self.sockets.add(line);
        let stream = match server.admit(line, stream) {
            Ok(stream) => stream,
            Err(error) => return tell_refused(rt, server, error, moment),
        };
        if let Some(turn) = self.turns.get_mut(line) {
            server.push(rt, line, turn.take(), stream);
        }
    }
}

fn tell_refused<R: Wait + Eprint>(rt: &R, server: &Server, error: NotAdmitted, moment: u64) {
    match error {
        NotAdmitted::Full => server.note_refused(rt, SocketRefusal::Full, moment),
        NotAdmitted::NoMemory => server.note_refused(rt, SocketRefusal::NoMemory, moment),
        NotAdmitted::Draining => {}
    }
}
