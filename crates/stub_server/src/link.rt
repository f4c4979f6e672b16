ghost use Rattle.std.specs.Prelude.{◌≡◌, ◌⊎◌, IfErr};
ghost use Rattle.std.specs.Io.{ReadsAtMost, WritesAtMost};
ghost use Rattle.std.specs.IoError.{error_kind};

use crate::error::StubError;
use crate::session::Session;
use crate::stub::Stub;
use std::alloc::Global;
use std::io;
use std::io::{ErrorKind, Read, Write};
use std::sync::{Arc, Mutex};

/// A link to a stub, whose ends read and write in memory.
#[derive(Drop)]
pub struct StubLink {
    alloc: Global,
    stub: Stub,
}

/// The end that replies are read from.
///
/// A read returns `WouldBlock` if there are no bytes, and the end of the input once the link has ended and all
/// replies were read. It has no other error.
#[derive(Drop)]
pub struct StubReader {
    session: Arc<Mutex<Session>>,
}

/// The end that requests are written to, in texts that a client may send.
///
/// A write takes at most `MAX_TAKEN` bytes. While `MAX_UNREAD` or more bytes of replies are unread, or without
/// memory, requests wait, and a write returns `WouldBlock`. Once the link has ended, by `Act::Drop` or at a byte that
/// fits no text, it returns `BrokenPipe`. It has no other error.
#[derive(Drop)]
pub struct StubWriter {
    session: Arc<Mutex<Session>>,
}

impl StubLink {
    /// A link to this stub.
    pub fn new(alloc: Global, stub: Stub) -> StubLink
        ensures { result.stub ≡ stub }
    {
        StubLink { alloc, stub }
    }

    /// The two ends of the link. A call of one during a call of the other, in another thread, returns `WouldBlock`.
    ///
    /// Refused 1501 (no memory): the link comes back.
    pub fn ends(self, alloc: Global) -> Result<(StubReader, StubWriter), (StubError, StubLink)>
        ensures err { IfErr result (λ e. (e.0 ≡ StubError.NoMemory) × (e.1 ≡ self)) }
    {
        let Ok(session) = Arc::new(alloc, Mutex::new(Session::new(self.alloc))) else {
            return Err((StubError::NoMemory, self));
        };
        let Ok(other) = Arc::try_clone(&session) else {
            return Err((StubError::NoMemory, self));
        };
        // (nothing else can have the lock yet)
        match session.try_lock() {
            Some(mut shared) => shared.stub = self.stub,
            None => return Err((StubError::NoMemory, self)),
        }
        Ok((StubReader { session }, StubWriter { session: other }))
    }
}

impl Read for StubReader {
    fn read(&mut self, buffer: &mut [u8]) -> io::Result<usize>
        ensures bound { ReadsAtMost result buffer.new }
        ensures kinds { IfErr result (λ e. error_kind e ≡ ErrorKind.WouldBlock) }
    {
        let Some(mut session) = self.session.try_lock() else {
            return Err(io::Error::from(ErrorKind::WouldBlock));
        };
        Ok(session.read(buffer)?)
    }
}

impl Write for StubWriter {
    fn write(&mut self, bytes: &[u8]) -> io::Result<usize>
        ensures bound { WritesAtMost result bytes.now }
        ensures kinds { IfErr result
            (λ e. (error_kind e ≡ ErrorKind.WouldBlock) ⊎ (error_kind e ≡ ErrorKind.BrokenPipe)) }
    {
        match self.session.try_lock() {
            Some(mut session) => Ok(session.write(bytes)?),
            None => Err(io::Error::from(ErrorKind::WouldBlock)),
        }
    }

    fn flush(&mut self) -> io::Result<()> {
        Ok(())
    }
}
