ghost use Rattle.std.specs.Prelude.{◌≡◌, ◌≢◌, ◌<◌, ◌==◌, ◌||◌, ◌↔◌, not, true, false, [], length, max, IfOk, IfErr, IsTrue, None};
ghost use Rattle.std.specs.Io.{WritesAtMost};
ghost use Rattle.std.specs.Io.KnownBytes.{Keeps, WriteAppends};
ghost use Rattle.std.specs.IoError.{error_kind};
ghost use Rattle.limits.specs.declared.workers.TheConstants.{MAX_BUFFERED};
ghost use Rattle.proxy_devices.specs.Device.{CountsWrite, IsWritten, TakesNone};
ghost use Rattle.socket_halves.specs.WriteBuffer.{WritesOut, accepted, may_write};
ghost use Rattle.socket_halves.specs.SocketWriter.{TellsWrite, WritesHalf, engine_writer, fresh_writer, passed_of};

use crate::write_buffer::WriteBuffer;
use proxy_devices::{Counter, IoOutcome, Tally, WriteTally};
use std::alloc::Global;
use std::io;
use std::io::{ErrorKind, Write};
use std::marker::Model;

/// The writing half of a socket, for an engine.
///
/// What it takes is buffered, and goes out in order. It counts writes that failed or paused.
pub struct SocketWriter<S: Write> {
    output: WriteBuffer<S>,
    // The last write took less than it was given.
    is_short: bool,
    // The socket has had room since then.
    is_writable_again: bool,
    counter: Counter,
}

impl<S: Write + Drop> Drop for SocketWriter<S> {
    fn drop(self) {
        let SocketWriter {
            output: _,
            is_short: _,
            is_writable_again: _,
            counter: _,
        } = self;
    }
}

impl<S: Write> Model for SocketWriter<S> {
    ghost use Rattle.socket_halves.specs.SocketWriter.{SocketWriterState};

    ghost Value = { SocketWriterState };

    ghost view = { λ w. record {
      output = w.output;
      is_short = w.is_short;
      is_writable_again = w.is_writable_again;
      counts = w.counter;
    } };
}

fn is_short(written: &io::Result<usize>, count: usize) -> bool
    ensures ok { IfOk written.now (λ n. IsTrue result ↔ (n < count)) }
    ensures err { IfErr written.now
        (λ e. IsTrue result ↔ (error_kind e ≡ ErrorKind.WouldBlock)) }
{
    match written {
        Ok(taken) => *taken < count,
        Err(error) => error.kind() == ErrorKind::WouldBlock,
    }
}

impl<S: Write> SocketWriter<S> {
    /// Nothing is buffered, and the socket may take bytes.
    pub fn new(alloc: Global, stream: S) -> SocketWriter<S>
        ensures { result ≡ fresh_writer (S.contents stream) }
    {
        SocketWriter {
            output: WriteBuffer::new(alloc, stream),
            is_short: false,
            is_writable_again: false,
            counter: Counter::new(),
        }
    }

    /// The socket may take bytes again.
    pub fn set_writable(&mut self)
        ensures { self.new ≡ record self.old {
          output = record self.old.output { is_writable = true };
          is_writable_again = self.old.is_short;
        } }
    {
        self.output.set_writable();
        self.is_writable_again = self.is_short;
    }

    /// Makes each write fail from here on.
    pub fn break_off(&mut self)
        ensures { self.new
            ≡ record self.old { output = record self.old.output { is_broken = true } } }
    {
        self.output.break_off();
    }

    /// From here on this many bytes are buffered before some are written, at least 65,536.
    pub fn set_bound(&mut self, bound: usize)
        ensures { self.new ≡ record self.old {
          output = record self.old.output { bound = max bound MAX_BUFFERED };
        } }
    {
        self.output.set_bound(bound);
    }

    /// The number of buffered bytes.
    pub fn buffered(&self) -> usize
        ensures { result ≡ length self.now.output.buffered }
    {
        self.output.count()
    }

    /// Whether a write failed.
    pub fn is_broken(&self) -> bool
        ensures { result ≡ self.now.output.is_broken }
    {
        self.output.is_broken()
    }

    /// Whether bytes are buffered.
    pub fn has_buffered(&self) -> bool
        ensures { result ≡ not (length self.now.output.buffered == 0) }
    {
        !self.output.is_empty()
    }

    /// Whether bytes are buffered, or the rest of a text waits.
    pub fn is_behind(&self) -> bool
        ensures { result ≡ (self.now.is_short
            || not (length self.now.output.buffered == 0)) }
    {
        self.is_short || self.has_buffered()
    }

    /// Whether the socket may take such bytes.
    pub fn may_write(&self) -> bool
        ensures { result ≡ (self.now.is_writable_again || may_write self.now.output) }
    {
        self.is_writable_again || self.output.may_write()
    }

    /// Lends a buffer, as [`WriteBuffer::lend_buffer`] does.
    pub fn lend_buffer(&mut self, buffer: &mut Vec<u8>)
        ensures same { self.new ≡ self.old }
        ensures accepted { accepted self.new.output ≡ accepted self.old.output }
        ensures lent { self.old.output.buffered ≡ [] → buffer.new.items ≡ [] }
        ensures stays { self.old.output.buffered ≢ [] → buffer.new.items ≡ buffer.old.items }
    {
        self.output.lend_buffer(buffer);
    }

    /// Writes buffered bytes, as [`WriteBuffer::write_out`] does.
    pub fn write_out(&mut self, buffer: &mut Vec<u8>)
        ensures writes { WritesOut self.old.output self.new.output }
        ensures accepted { accepted self.new.output ≡ accepted self.old.output }
        ensures rest { self.new ≡ record self.old {
          output = self.new.output;
          is_writable_again = false;
        } }
        ensures back { buffer.new.items ≡ [] }
    {
        self.is_writable_again = false;
        self.output.write_out(buffer);
    }

    // Not counted.
    fn buffer(&mut self, bytes: &[u8]) -> io::Result<usize>
        ensures bound { WritesAtMost result bytes.now }
        ensures writes { WritesHalf self.old self.new bytes.now result }
        ensures counts { self.new.counts ≡ self.old.counts }
    {
        let written = self.output.write(bytes);
        self.is_short = is_short(&written, bytes.len());
        written
    }
}

impl<S: Write> Tally for SocketWriter<S> {
    ghost counts = { λ w. w.counts };

    fn failures(&self) -> u64 {
        self.counter.failures()
    }

    fn pauses(&self) -> u64 {
        self.counter.pauses()
    }
}

impl<S: Write> Write for SocketWriter<S> {
    ghost contents = { λ _. None };

    /// Takes these bytes as far as there is room, and counts the result.
    fn write(&mut self, bytes: &[u8]) -> io::Result<usize>
        ensures bound { WritesAtMost result bytes.now }
        ensures bytes { WriteAppends None None result bytes.now }
        ensures writes { WritesHalf self.old self.new bytes.now result }
        ensures counts { CountsWrite bytes.now result self.old.counts self.new.counts }
    {
        match self.buffer(bytes) {
            Ok(n) => {
                if n == 0 && !bytes.is_empty() {
                    self.counter.note_failure();
                }
                Ok(n)
            }
            Err(error) => {
                let _told = self.counter.note_error(error.kind());
                Err(error)
            }
        }
    }

    /// Does nothing: `write_out` writes the buffered bytes.
    fn flush(&mut self) -> io::Result<()>
        ensures bytes { Keeps None None }
        ensures same { self.new ≡ self.old }
    {
        Ok(())
    }
}

impl<S: Write> WriteTally for SocketWriter<S> {
    ghost taken = { λ w. accepted w.output };

    ghost passed = { λ w. passed_of w.output };

    /// As `write`, with its outcome.
    fn write_told(&mut self, bytes: &[u8]) -> IoOutcome
        requires some { bytes.now ≢ [] }
        ensures told { IsWritten (engine_writer self.old) (engine_writer self.new)
            bytes.now result }
        ensures tells { TellsWrite self.old self.new bytes.now result }
    {
        match self.buffer(bytes) {
            Ok(0) => {
                self.counter.note_failure();
                IoOutcome::End
            }
            Ok(n) => IoOutcome::Moved(n),
            Err(error) => self.counter.note_error(error.kind()),
        }
    }

    /// Does nothing.
    fn flush_told(&mut self) -> io::Result<()>
        ensures none { TakesNone (engine_writer self.old) (engine_writer self.new) }
        ensures counts { self.new.counts ≡ self.old.counts }
        ensures same { self.new ≡ self.old }
    {
        Ok(())
    }
}
