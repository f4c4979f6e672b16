use crate::sockets::{DRAINING, Sockets, is_last_closing};
use byte_sum::ByteSum;
use fresh_stream::FreshStream;
use mio::{Registry, Token, Waker};
use std::alloc::{AllocError, Global};
use std::io;
use std::sync::Arc;
use std::sync::atomic::{AtomicBool, AtomicU64, Ordering};

/// The most lines of generations.
pub const MAX_LINES: u32 = 64;

/// The most bytes of answers that wait for all sockets together, beyond what each socket's buffer has at any time.
pub const MAX_WAITING_BYTES: u64 = 268_435_456;

struct Shared {
    // `Sockets` as a word.
    word: AtomicU64,
    waiting: ByteSum,
    // For each line its sockets that are gone, until `take_gone`.
    gone: Vec<AtomicU64>,
    closed: AtomicU64,
    // The connections that were ended since their clients were idle.
    idle: AtomicU64,
    most_closed: u64,
    is_running: AtomicBool,
    // Wakes the thread that accepts.
    waker: Waker,
}

impl Drop for Shared {
    fn drop(self) {
        let Shared {
            word: _,
            waiting: _,
            gone: _,
            closed: _,
            idle: _,
            most_closed: _,
            is_running: _,
            waker: _,
        } = self;
    }
}

impl Shared {
    fn sockets(&self) -> Sockets {
        Sockets::of(self.word.load(Ordering::SeqCst))
    }

    fn wake(&self) {
        let _ = self.waker.wake();
    }

    fn end(&self) -> bool {
        let did_run = self.is_running.swap(false, Ordering::SeqCst);
        self.wake();
        did_run
    }

    fn count_gone(&self, line: usize) {
        if let Some(gone) = self.gone.get(line) {
            gone.fetch_add(1, Ordering::SeqCst);
        }
    }

    fn end_if_done(&self, sockets: Sockets) {
        if sockets.are_done() {
            self.end();
        }
    }
}

/// An open socket of a client, counted in its line until this is dropped with the bytes that wait for it. The last one of a
/// drain ends the server.
pub struct OpenSocket {
    shared: Arc<Shared>,
    line: usize,
    waiting: u64,
}

impl Drop for OpenSocket {
    fn drop(self) {
        let OpenSocket {
            shared,
            line,
            waiting,
        } = self;
        shared.waiting.change(0, waiting);
        shared.count_gone(line);
        let before = shared.word.fetch_sub(1, Ordering::SeqCst);
        shared.end_if_done(Sockets::without_one(before));
    }
}

impl OpenSocket {
    /// So many bytes of answers wait for it now.
    pub fn note_waiting(&mut self, bytes: u64) {
        self.shared.waiting.change(bytes, self.waiting);
        self.waiting = bytes;
    }

    /// Its connection is ended, since its client is idle.
    pub fn count_idle(&self) {
        self.shared.idle.fetch_add(1, Ordering::SeqCst);
    }
}

/// Why an accepted stream isn't served. It is closed.
#[derive(Clone, Copy, Debug, PartialEq, Eq, Drop)]
pub enum NotAdmitted {
    /// `MAX_SOCKETS` are open.
    Full,
    /// No socket is taken any more.
    Draining,
    /// There is no memory for it.
    NoMemory,
}

/// A client's stream that may be served.
#[derive(Drop)]
pub struct AdmittedStream {
    stream: FreshStream,
    open: OpenSocket,
}

impl AdmittedStream {
    /// As [`FreshStream::register`].
    pub fn register(&mut self, registry: &Registry, token: Token) -> io::Result<()> {
        self.stream.register(registry, token)
    }

    /// The stream, and what counts it.
    pub fn into_parts(self) -> (FreshStream, OpenSocket) {
        let AdmittedStream { stream, open } = self;
        (stream, open)
    }
}

/// All open sockets, and whether the server goes on.
#[derive(Drop)]
pub struct OpenSockets {
    shared: Arc<Shared>,
}

impl OpenSockets {
    /// None of a server with these many lines that goes on, and ends after `most_closed` closed connections; 0 is never. The
    /// waker is for the thread that accepts. Refused for want of memory.
    pub fn new(
        alloc: Global,
        waker: Waker,
        most_closed: u64,
        lines: usize,
    ) -> Result<OpenSockets, AllocError> {
        let mut gone = Vec::new(alloc);
        for _ in 0..lines {
            gone.push(AtomicU64::new(0))?;
        }
        let shared = Shared {
            word: AtomicU64::new(0),
            waiting: ByteSum::new(),
            gone,
            closed: AtomicU64::new(0),
            idle: AtomicU64::new(0),
            most_closed,
            is_running: AtomicBool::new(true),
            waker,
        };
        match Arc::new(alloc, shared) {
            Ok(shared) => Ok(OpenSockets { shared }),
            Err(_) => Err(AllocError),
        }
    }

    /// Counts an accepted stream of this line; or it is closed and gone.
    pub fn admit(&self, line: usize, stream: FreshStream) -> Result<AdmittedStream, NotAdmitted> {
        let Ok(shared) = Arc::try_clone(&self.shared) else {
            self.shared.count_gone(line);
            return Err(NotAdmitted::NoMemory);
        };
        let before = Sockets::of(shared.word.fetch_add(1, Ordering::SeqCst));
        let open = OpenSocket {
            shared,
            line,
            waiting: 0,
        };
        if before.may_open() {
            Ok(AdmittedStream { stream, open })
        } else if before.is_draining {
            Err(NotAdmitted::Draining)
        } else {
            Err(NotAdmitted::Full)
        }
    }

    /// The sockets of a line that are gone since the last call.
    pub fn take_gone(&self, line: usize) -> u64 {
        match self.shared.gone.get(line) {
            Some(gone) => gone.swap(0, Ordering::SeqCst),
            None => 0,
        }
    }

    /// Counts a closed connection, which may be the last one.
    pub fn count_closed(&self) {
        let before = self.shared.closed.fetch_add(1, Ordering::SeqCst);
        if is_last_closing(self.shared.most_closed, before) {
            self.shared.end();
        }
    }

    /// Accepts no further socket. Returns how many are open; `None`: it drained before.
    pub fn drain(&self) -> Option<u64> {
        let before = self.shared.word.fetch_or(DRAINING, Ordering::SeqCst);
        if Sockets::of(before).is_draining {
            return None;
        }
        let sockets = Sockets::drained(before);
        self.shared.end_if_done(sockets);
        Some(sockets.count)
    }

    /// Whether no further socket is accepted.
    pub fn is_draining(&self) -> bool {
        self.shared.sockets().is_draining
    }

    /// The number of open sockets.
    pub fn count(&self) -> u64 {
        self.shared.sockets().count
    }

    /// The bytes of answers that wait for all sockets together.
    pub fn waiting(&self) -> u64 {
        self.shared.waiting.get()
    }

    /// Whether these are more than `MAX_WAITING_BYTES`.
    pub fn has_too_much_waiting(&self) -> bool {
        self.shared.waiting.is_more_than(MAX_WAITING_BYTES)
    }

    /// The number of closed connections.
    pub fn closed(&self) -> u64 {
        self.shared.closed.load(Ordering::SeqCst)
    }

    /// The number of connections that were ended since their clients were idle.
    pub fn idle_closed(&self) -> u64 {
        self.shared.idle.load(Ordering::SeqCst)
    }

    /// Whether the server goes on.
    pub fn runs(&self) -> bool {
        self.shared.is_running.load(Ordering::SeqCst)
    }

    /// Ends the server. False: it was ended before.
    pub fn end(&self) -> bool {
        self.shared.end()
    }

    /// Wakes the thread that accepts.
    pub fn wake(&self) {
        self.shared.wake();
    }
}
