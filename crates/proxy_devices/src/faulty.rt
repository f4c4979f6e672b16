ghost use Rattle.std.specs.Prelude.{◌≡◌, ◌≢◌, [], ◌<◌, ◌≤◌, ◌+◌, ◌-◌, ◌^◌, min, length, take, IfErr, IfOk, IsErr, OnErr};
ghost use Rattle.std.specs.Io.{ReadsAtMost, WritesAtMost};
ghost use Rattle.std.specs.Io.KnownBytes.{Keeps, ReadConsumes, WriteAppends};
ghost use Rattle.std.specs.IoError.{error_kind};
ghost use Rattle.proxy_devices.specs.declared.tally.IoOutcome.{IoOutcome};
ghost use Rattle.proxy_devices.specs.Device.{IsRead, IsWritten, reader_state, writer_state};
ghost use Rattle.proxy_devices.specs.Faulty.{moved_count, with_failures};

use crate::tally::{IoOutcome, ReadTally, Tally, WriteTally};
use std::io;
use std::io::{ErrorKind, Read, Write};

/// Passes a number of bytes of another reader or writer, and then fails at each call; for tests. Its log is the
/// other's.
#[derive(Drop)]
pub struct Faulty<S> {
    inner: S,
    left: u64,
    failures: u64,
}

impl<S> Faulty<S> {
    /// `after` bytes pass before the first failure.
    pub fn new(inner: S, after: u64) -> Faulty<S>
        ensures inner { result.inner ≡ inner }
        ensures left { result.left ≡ after }
        ensures failures { result.failures ≡ 0 }
    {
        Faulty {
            inner,
            left: after,
            failures: 0,
        }
    }

    /// The number of bytes that still pass.
    pub fn left(&self) -> u64
        ensures { result ≡ self.now.left }
    {
        self.left
    }

    // How many of these bytes one call may pass.
    fn most(&self, bytes: usize) -> usize
        ensures { result ≡ min bytes self.now.left }
    {
        (bytes as u64).min(self.left) as usize
    }

    fn fail(&mut self)
        ensures { self.new
            ≡ record self.old { failures = min (self.old.failures + 1) (2 ^ 64 - 1) } }
    {
        self.failures = self.failures.saturating_add(1);
    }

    // Fails and counts the failure where no byte is left.
    fn passes(&mut self, bytes: usize) -> io::Result<usize>
        ensures ok { IfOk result (λ n. (n ≡ min bytes self.old.left) × (0 < self.old.left)
            × (self.new ≡ self.old)) }
        ensures err { IfErr result (λ e. (self.old.left ≡ 0)
            × (error_kind e ≡ ErrorKind.ConnectionReset) × (self.new
            ≡ record self.old { failures = min (self.old.failures + 1) (2 ^ 64 - 1) })) }
    {
        if self.left == 0 {
            self.fail();
            return Err(io::Error::from(ErrorKind::ConnectionReset));
        }
        Ok(self.most(bytes))
    }

    fn pass(&mut self, told: IoOutcome)
        requires { moved_count told ≤ self.old.left }
        ensures { self.new ≡ record self.old { left = self.old.left - moved_count told } }
    {
        if let IoOutcome::Moved(n) = told {
            self.left -= n as u64;
        }
    }
}

impl<S: Tally> Tally for Faulty<S> {
    ghost counts = { λ f. with_failures f.failures (S.counts f.inner) };

    fn failures(&self) -> u64 {
        self.inner.failures().saturating_add(self.failures)
    }

    fn pauses(&self) -> u64 {
        self.inner.pauses()
    }
}

impl<S: ReadTally> Faulty<S> {
    /// Reads once, at most the bytes left. Where none are left it fails, and the other one isn't called.
    pub fn read_passed(&mut self, buffer: &mut [u8]) -> IoOutcome
        requires room { 0 < length buffer.old }
        ensures passes { 0 < self.old.left → IsRead
            (reader_state S.remaining S.told S.counts self.old.inner)
            (reader_state S.remaining S.told S.counts self.new.inner)
            (take (min (length buffer.new) self.old.left) buffer.new) result }
        ensures spent { self.old.left ≡ self.new.left + moved_count result }
        ensures kept { 0 < self.old.left → self.new.failures ≡ self.old.failures }
        ensures fails { self.old.left ≡ 0 → (result ≡ IoOutcome.Failed) × (self.new
            ≡ record self.old { failures = min (self.old.failures + 1) (2 ^ 64 - 1) }) }
    {
        if self.left == 0 {
            self.fail();
            return IoOutcome::Failed;
        }
        let most = self.most(buffer.len());
        let told = self.inner.read_told(&mut buffer[..most]);
        self.pass(told);
        told
    }
}

impl<S: WriteTally> Faulty<S> {
    /// Writes once, at most the bytes left. Where none are left it fails, and the other one isn't called.
    pub fn write_passed(&mut self, bytes: &[u8]) -> IoOutcome
        requires some { bytes.now ≢ [] }
        ensures passes { 0 < self.old.left → IsWritten
            (writer_state S.contents S.taken S.passed S.counts self.old.inner)
            (writer_state S.contents S.taken S.passed S.counts self.new.inner)
            (take self.old.left bytes.now) result }
        ensures spent { self.old.left ≡ self.new.left + moved_count result }
        ensures kept { 0 < self.old.left → self.new.failures ≡ self.old.failures }
        ensures fails { self.old.left ≡ 0 → (result ≡ IoOutcome.Failed) × (self.new
            ≡ record self.old { failures = min (self.old.failures + 1) (2 ^ 64 - 1) }) }
    {
        if self.left == 0 {
            self.fail();
            return IoOutcome::Failed;
        }
        let most = self.most(bytes.len());
        let told = self.inner.write_told(&bytes[..most]);
        self.pass(told);
        told
    }
}

impl<S: Read> Read for Faulty<S> {
    ghost remaining = { λ f. S.remaining f.inner };

    /// As `read_passed`; its own failure is `ConnectionReset`.
    fn read(&mut self, buffer: &mut [u8]) -> io::Result<usize>
        ensures bound { ReadsAtMost result buffer.new }
        ensures bytes { ReadConsumes (S.remaining self.old.inner) (S.remaining self.new.inner)
            result buffer.new }
        ensures spent { IfOk result (λ n. self.old.left ≡ self.new.left + n) }
        ensures kept { OnErr result (self.new.left ≡ self.old.left) }
        ensures counts { 0 < self.old.left → self.new.failures ≡ self.old.failures }
        ensures fails { self.old.left ≡ 0 → IsErr result × (self.new
            ≡ record self.old { failures = min (self.old.failures + 1) (2 ^ 64 - 1) }) }
        ensures reset { self.old.left ≡ 0
            → IfErr result (λ e. error_kind e ≡ ErrorKind.ConnectionReset) }
    {
        let most = self.passes(buffer.len())?;
        let n = self.inner.read(&mut buffer[..most])?;
        self.left -= n as u64;
        Ok(n)
    }
}

impl<S: Write> Write for Faulty<S> {
    ghost contents = { λ f. S.contents f.inner };

    /// As `write_passed`; its own failure is `ConnectionReset`.
    fn write(&mut self, bytes: &[u8]) -> io::Result<usize>
        ensures bound { WritesAtMost result bytes.now }
        ensures bytes { WriteAppends (S.contents self.old.inner) (S.contents self.new.inner)
            result bytes.now }
        ensures spent { IfOk result (λ n. self.old.left ≡ self.new.left + n) }
        ensures kept { OnErr result (self.new.left ≡ self.old.left) }
        ensures counts { 0 < self.old.left → self.new.failures ≡ self.old.failures }
        ensures fails { self.old.left ≡ 0 → IsErr result × (self.new
            ≡ record self.old { failures = min (self.old.failures + 1) (2 ^ 64 - 1) }) }
        ensures reset { self.old.left ≡ 0
            → IfErr result (λ e. error_kind e ≡ ErrorKind.ConnectionReset) }
    {
        let most = self.passes(bytes.len())?;
        let n = self.inner.write(&bytes[..most])?;
        self.left -= n as u64;
        Ok(n)
    }

    /// Flushes the other one; not counted.
    fn flush(&mut self) -> io::Result<()>
        ensures bytes { Keeps (S.contents self.old.inner) (S.contents self.new.inner) }
        ensures same { (self.new.left ≡ self.old.left) × (self.new.failures ≡ self.old.failures) }
    {
        self.inner.flush()
    }
}

impl<S: ReadTally> ReadTally for Faulty<S> {
    ghost told = { λ f. S.told f.inner };

    fn read_told(&mut self, buffer: &mut [u8]) -> IoOutcome {
        self.read_passed(buffer)
    }
}

impl<S: WriteTally> WriteTally for Faulty<S> {
    ghost taken = { λ f. S.taken f.inner };

    ghost passed = { λ f. S.passed f.inner };

    fn write_told(&mut self, bytes: &[u8]) -> IoOutcome {
        self.write_passed(bytes)
    }

    fn flush_told(&mut self) -> io::Result<()> {
        self.inner.flush_told()
    }
}
