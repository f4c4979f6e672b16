ghost use Rattle.std.specs.Prelude.{◌≡◌, ◌≢◌, ◌<◌, ◌≤◌, ◌+◌, ◌-◌, ◌^◌, true, false, length, min, IfErr, Some, None};
ghost use Rattle.std.specs.Io.{ReadsAtMost};
ghost use Rattle.std.specs.Io.KnownBytes.{ReadConsumes};
ghost use Rattle.std.specs.IoError.{error_kind};
ghost use Rattle.proxy_devices.specs.Device.{CountsRead, IsRead};
ghost use Rattle.socket_halves.specs.ReadEnd.{Discards};
ghost use Rattle.socket_halves.specs.declared.read_end.TheConstants.{MAX_THROWN};
ghost use Rattle.socket_halves.specs.SocketReader.{ReadsHalf, TellsRead, engine_reader, fresh_reader};

use crate::read_end::{Discarded, ReadEnd};
use limits::MAX_LAST;
use proxy_devices::{Counter, IoOutcome, ReadTally, Tally};
use std::io;
use std::io::{ErrorKind, Read};
use std::marker::Model;

/// The reading half of a socket, for an engine. It asks the socket only when there may be bytes, and counts reads
/// that failed or paused.
pub struct SocketReader<S: Read> {
    stream: S,
    end: ReadEnd,
    // Each read fails from here on.
    is_broken: bool,
    counter: Counter,
}

impl<S: Read + Drop> Drop for SocketReader<S> {
    fn drop(self) {
        let SocketReader {
            stream: _,
            end: _,
            is_broken: _,
            counter: _,
        } = self;
    }
}

impl<S: Read> Model for SocketReader<S> {
    ghost use Rattle.socket_halves.specs.SocketReader.{IsWholeOrBroken, SocketReaderState};

    ghost Value = { SocketReaderState };

    ghost view = { λ r. record { end = r.end; is_broken = r.is_broken; counts = r.counter } };

    ghost invariant = { λ r. IsWholeOrBroken r.end r.is_broken };
}

impl<S: Read> SocketReader<S> {
    /// The socket may have bytes. Nothing was read.
    pub fn new(stream: S) -> SocketReader<S>
        ensures { result ≡ fresh_reader }
    {
        SocketReader {
            stream,
            end: ReadEnd::new(),
            is_broken: false,
            counter: Counter::new(),
        }
    }

    /// The socket may have bytes, or an end or an error.
    pub fn set_readable(&mut self)
        ensures { self.new
            ≡ record self.old { end = record self.old.end { is_readable = true } } }
    {
        self.end.set_readable();
    }

    /// The peer sends nothing more.
    pub fn set_closed(&mut self)
        ensures { self.new
            ≡ record self.old { end = record self.old.end { is_closed = true } } }
    {
        self.end.set_closed();
    }

    /// Ends the input, as [`ReadEnd::end_input`] does.
    pub fn end_input(&mut self)
        ensures first { self.old.end.left ≡ None → self.new ≡ record self.old {
          end = record self.old.end { left = Some MAX_LAST; is_readable = true };
        } }
        ensures again { self.old.end.left ≢ None → self.new ≡ self.old }
    {
        self.end.end_input();
    }

    /// Makes each read fail from here on, without asking the socket.
    pub fn break_off(&mut self)
        ensures { self.new ≡ record self.old {
          end = record self.old.end { is_readable = true };
          is_broken = true;
        } }
    {
        self.is_broken = true;
        self.end.set_readable();
    }

    /// The number of bytes read.
    pub fn count(&self) -> u64
        ensures { result ≡ min (length self.now.end.received) (2 ^ 64 - 1) }
    {
        self.end.count()
    }

    /// Whether a read may return bytes, or an end or an error.
    pub fn may_read(&self) -> bool
        ensures { result ≡ self.now.end.is_readable }
    {
        self.end.may_read()
    }

    /// Discards what has come, as [`ReadEnd::throw_away`] does; each later read fails.
    pub fn throw_away(&mut self) -> Discarded
        ensures discards { Discards self.old.end self.new.end None None }
        ensures paused { result ≡ Discarded.Emptied → self.new.end.is_readable ≡ false }
        ensures partly { result ≡ Discarded.Partly
            → length self.old.end.received + MAX_THROWN ≤ length self.new.end.received }
        ensures broken { self.new.is_broken ≡ true }
        ensures counts { self.new.counts ≡ self.old.counts }
    {
        self.is_broken = true;
        self.end.throw_away(&mut self.stream)
    }

    // Not counted.
    fn ask(&mut self, buffer: &mut [u8]) -> io::Result<usize>
        ensures bound { ReadsAtMost result buffer.new }
        ensures reads { ReadsHalf self.old self.new (length buffer.old) result buffer.new }
        ensures counts { self.new.counts ≡ self.old.counts }
        ensures pauses { self.old.is_broken ≡ false → self.old.end.left ≢ None
            → IfErr result (λ e. (error_kind e ≢ ErrorKind.WouldBlock)
            × (self.new.end.is_readable ≡ true)) }
    {
        if self.is_broken {
            return Err(io::Error::from(ErrorKind::BrokenPipe));
        }
        self.end.read(&mut self.stream, buffer)
    }
}

impl<S: Read> Tally for SocketReader<S> {
    ghost counts = { λ r. r.counts };

    fn failures(&self) -> u64 {
        self.counter.failures()
    }

    fn pauses(&self) -> u64 {
        self.counter.pauses()
    }
}

impl<S: Read> Read for SocketReader<S> {
    ghost remaining = { λ _. None };

    /// Reads once. `WouldBlock`: the socket may have no bytes. `BrokenPipe`: it is broken off.
    fn read(&mut self, buffer: &mut [u8]) -> io::Result<usize>
        ensures bound { ReadsAtMost result buffer.new }
        ensures bytes { ReadConsumes None None result buffer.new }
        ensures reads { ReadsHalf self.old self.new (length buffer.old) result buffer.new }
        ensures counts { CountsRead result self.old.counts self.new.counts }
        ensures pauses { self.old.is_broken ≡ false → self.old.end.left ≢ None
            → IfErr result (λ e. (error_kind e ≢ ErrorKind.WouldBlock)
            × (self.new.end.is_readable ≡ true)) }
    {
        match self.ask(buffer) {
            Ok(n) => Ok(n),
            Err(error) => {
                let _told = self.counter.note_error(error.kind());
                Err(error)
            }
        }
    }
}

impl<S: Read> ReadTally for SocketReader<S> {
    ghost told = { λ r. r.end.delivered };

    /// The same, as an outcome.
    fn read_told(&mut self, buffer: &mut [u8]) -> IoOutcome
        requires room { 0 < length buffer.old }
        ensures told { IsRead (engine_reader self.old) (engine_reader self.new)
            buffer.new result }
        ensures tells { TellsRead self.old self.new (length buffer.old) result buffer.new }
        ensures pauses { self.old.is_broken ≡ false → self.old.end.left ≢ None
            → result ≡ IoOutcome.Idle → self.new.end.is_readable ≡ true }
    {
        match self.ask(buffer) {
            Ok(0) => IoOutcome::End,
            Ok(n) => IoOutcome::Moved(n),
            Err(error) => self.counter.note_error(error.kind()),
        }
    }
}
