ghost use Rattle.std.specs.Prelude.{◌≡◌};
ghost use Rattle.proxy_serve_core.specs.FaultLog.{line_of, logged, with_lost};
ghost use Rattle.proxy_serve_core.specs.RefusedSockets.{of_refusal, with_refusal};

use crate::fault_log::CauseFaults;

/// Why a client's socket finds no room.
#[derive(Clone, Copy, Debug, PartialEq, Eq)]
pub enum SocketRefusal {
    /// `MAX_SOCKETS` are open. The socket is closed.
    Full,
    /// The system has no file number for it. It waits, and is tried again.
    NoFile,
    /// There is no memory for it. It waits, and is tried again.
    NoMemory,
}

/// Sockets of clients that found no room, by cause. A socket that waits counts at each try.
#[derive(Clone, Copy, Debug, PartialEq, Eq)]
pub struct RefusedSockets {
    /// `Full`.
    pub full: CauseFaults,
    /// `NoFile`.
    pub no_file: CauseFaults,
    /// `NoMemory`.
    pub no_memory: CauseFaults,
}

impl RefusedSockets {
    /// There was none.
    pub const NONE: RefusedSockets = RefusedSockets {
        full: CauseFaults::NONE,
        no_file: CauseFaults::NONE,
        no_memory: CauseFaults::NONE,
    };

    /// Those of a cause.
    pub fn of(&self, cause: SocketRefusal) -> CauseFaults
        ensures { result ≡ of_refusal cause self.now }
    {
        match cause {
            SocketRefusal::Full => self.full,
            SocketRefusal::NoFile => self.no_file,
            SocketRefusal::NoMemory => self.no_memory,
        }
    }

    fn set(&mut self, cause: SocketRefusal, refused: CauseFaults)
        ensures { self.new ≡ with_refusal cause refused self.old }
    {
        match cause {
            SocketRefusal::Full => self.full = refused,
            SocketRefusal::NoFile => self.no_file = refused,
            SocketRefusal::NoMemory => self.no_memory = refused,
        }
    }

    /// Counts a socket at a moment in milliseconds. `Some`: a line of it is to be logged, as the last one of its cause was
    /// `TELL_MS` ago, or there was none; with the number of sockets since that one.
    pub fn note(&mut self, cause: SocketRefusal, now: u64) -> Option<u64>
        ensures line { result ≡ line_of now (with_lost 1 (of_refusal cause self.old)) }
        ensures noted { self.new ≡ with_refusal cause
            (logged now (with_lost 1 (of_refusal cause self.old))) self.old }
    {
        let mut refused = self.of(cause).with_lost(1);
        let line = refused.take_line(now);
        self.set(cause, refused);
        line
    }
}
