ghost use Rattle.std.specs.Prelude.{◌≡◌, ◌≢◌, ◌<◌, [], ℕ, List, length};
ghost use Rattle.std.specs.Io.{ReadsAtMost, WritesAtMost};
ghost use Rattle.std.specs.Io.KnownBytes.{Keeps, ReadConsumes, WriteAppends};
ghost use Rattle.proxy_devices.specs.Tallied.{HasSameLogs, counts_of};
ghost use Rattle.proxy_devices.specs.Device.{Counts, CountsRead, CountsWrite, IsRead, IsWritten, LogsCall, Passed, TakesNone, passed_all, reader_state, writer_state};

use crate::byte_log::ByteLog;
use crate::counter::Counter;
use std::io;
use std::io::{Read, Write};

/// The counts of a reader or a writer. Each stays at the greatest `u64`; nothing is promised of it then.
pub trait Tally {
    /// Its counts.
    ghost counts: { Self → Counts };

    /// The number of calls that returned an error other than `WouldBlock` and `Interrupted`, and of writes that took nothing.
    fn failures(&self) -> u64
        ensures { result ≡ (counts self.now).failed };

    /// The number of calls that returned `WouldBlock` or `Interrupted`.
    fn pauses(&self) -> u64
        ensures { result ≡ (counts self.now).paused };
}

/// The result of one call of a device.
#[derive(Clone, Copy, Debug, PartialEq, Eq, Drop)]
pub enum IoOutcome {
    /// At least one byte was read or taken: this many.
    Moved(usize),
    /// A read found the end of the input, or a write took nothing.
    End,
    /// Nothing for now: `WouldBlock` or `Interrupted`.
    Idle,
    /// Another error.
    Failed,
}

/// A reader that returns what each read did, and counts.
pub trait ReadTally: Read + Tally {
    /// All bytes that it told, the oldest first; only proofs have them.
    ghost told: { Self → List ℕ };

    /// Reads once into a buffer that isn't empty.
    fn read_told(&mut self, buffer: &mut [u8]) -> IoOutcome
        requires room { 0 < length buffer.old }
        ensures told { IsRead (reader_state Self.remaining told Self.counts self.old)
            (reader_state Self.remaining told Self.counts self.new) buffer.new result };
}

/// A writer that returns what each write did, and counts.
pub trait WriteTally: Write + Tally {
    /// All bytes that it took, the oldest first; only proofs have them.
    ghost taken: { Self → List ℕ };

    /// What of these has passed to what is behind it, and whether a write there failed; only proofs have it.
    ghost passed: { Self → Passed };

    /// Writes once, at least one byte.
    fn write_told(&mut self, bytes: &[u8]) -> IoOutcome
        requires some { bytes.now ≢ [] }
        ensures told { IsWritten (writer_state Self.contents taken passed Self.counts self.old)
            (writer_state Self.contents taken passed Self.counts self.new) bytes.now result };

    /// Flushes; not counted.
    fn flush_told(&mut self) -> io::Result<()>
        ensures none { TakesNone (writer_state Self.contents taken passed Self.counts self.old)
            (writer_state Self.contents taken passed Self.counts self.new) }
        ensures counts { Self.counts self.new ≡ Self.counts self.old };
}

/// A reader or a writer with its counts, and a log of its bytes.
#[derive(Drop)]
pub struct Tallied<S> {
    inner: S,
    counter: Counter,
    told: ByteLog,
    taken: ByteLog,
}

impl<S> Tallied<S> {
    /// With no counts and an empty log.
    pub fn new(inner: S) -> Tallied<S>
        ensures inner { result.inner ≡ inner }
        ensures failures { result.counter.failed ≡ 0 }
        ensures pauses { result.counter.paused ≡ 0 }
        ensures told { result.told.bytes ≡ [] }
        ensures taken { result.taken.bytes ≡ [] }
    {
        Tallied {
            inner,
            counter: Counter::new(),
            told: ByteLog::new(),
            taken: ByteLog::new(),
        }
    }

    /// The reader or writer, without its counts.
    pub fn into_inner(self) -> S
        ensures { result ≡ self.inner }
    {
        let Tallied { inner, .. } = self;
        inner
    }
}

impl<S> Tally for Tallied<S> {
    ghost counts = { λ t. counts_of t };

    fn failures(&self) -> u64 {
        self.counter.failures()
    }

    fn pauses(&self) -> u64 {
        self.counter.pauses()
    }
}

impl<S: Read> Read for Tallied<S> {
    ghost remaining = { λ t. S.remaining t.inner };

    /// Reads once, and counts the result.
    fn read(&mut self, buffer: &mut [u8]) -> io::Result<usize>
        ensures bound { ReadsAtMost result buffer.new }
        ensures bytes { ReadConsumes (S.remaining self.old.inner) (S.remaining self.new.inner)
            result buffer.new }
        ensures counts { CountsRead result (counts_of self.old) (counts_of self.new) }
        ensures log { LogsCall buffer.new result self.old.told.bytes self.new.told.bytes }
    {
        match self.inner.read(buffer) {
            Ok(n) => {
                self.told = self.told.and(buffer, n);
                Ok(n)
            }
            Err(error) => {
                let _told = self.counter.note_error(error.kind());
                Err(error)
            }
        }
    }
}

impl<S: Write> Write for Tallied<S> {
    ghost contents = { λ t. S.contents t.inner };

    /// Writes once, and counts the result.
    fn write(&mut self, bytes: &[u8]) -> io::Result<usize>
        ensures bound { WritesAtMost result bytes.now }
        ensures bytes { WriteAppends (S.contents self.old.inner) (S.contents self.new.inner)
            result bytes.now }
        ensures counts { CountsWrite bytes.now result (counts_of self.old) (counts_of self.new) }
        ensures log { LogsCall bytes.now result self.old.taken.bytes self.new.taken.bytes }
    {
        match self.inner.write(bytes) {
            Ok(n) => {
                self.taken = self.taken.and(bytes, n);
                if n == 0 && !bytes.is_empty() {
                    self.counter.note_failure();
                }
                Ok(n)
            }
            Err(error) => {
                let _refused = self.counter.note_error(error.kind());
                Err(error)
            }
        }
    }

    /// Flushes the writer; not counted.
    fn flush(&mut self) -> io::Result<()>
        ensures bytes { Keeps (S.contents self.old.inner) (S.contents self.new.inner) }
        ensures counts { counts_of self.new ≡ counts_of self.old }
        ensures log { HasSameLogs self.old self.new }
    {
        self.inner.flush()
    }
}

impl<S: Read> ReadTally for Tallied<S> {
    ghost told = { λ t. t.told.bytes };

    fn read_told(&mut self, buffer: &mut [u8]) -> IoOutcome {
        match self.inner.read(buffer) {
            Ok(0) => IoOutcome::End,
            Ok(n) => {
                self.told = self.told.and(buffer, n);
                IoOutcome::Moved(n)
            }
            Err(error) => self.counter.note_error(error.kind()),
        }
    }
}

impl<S: Write> WriteTally for Tallied<S> {
    ghost taken = { λ t. t.taken.bytes };

    ghost passed = { λ t. passed_all t.taken.bytes };

    fn write_told(&mut self, bytes: &[u8]) -> IoOutcome {
        match self.inner.write(bytes) {
            Ok(0) => {
                self.counter.note_failure();
                IoOutcome::End
            }
            Ok(n) => {
                self.taken = self.taken.and(bytes, n);
                IoOutcome::Moved(n)
            }
            Err(error) => self.counter.note_error(error.kind()),
        }
    }

    fn flush_told(&mut self) -> io::Result<()> {
        self.inner.flush()
    }
}
