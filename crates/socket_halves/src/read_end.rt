ghost use Rattle.std.specs.Prelude.{◌≡◌, ◌≢◌, ◌≤◌, ◌+◌, ◌⊎◌, true, false, ◌++◌, length, take, min, ◌-◌, ◌^◌, IfOk, IfErr, OnErr, IsErrAnd, Some, None, Ok};
ghost use Rattle.std.specs.Io.{ReadsAtMost};
ghost use Rattle.std.specs.Io.KnownBytes.{IsAtEnd};
ghost use Rattle.std.specs.IoError.{error_kind};
ghost use Rattle.socket_halves.specs.ReadEnd.{CountsDown, Discards, EndsByPause, ReadsEnd, Receives, fresh_end};

use limits::{MAX_LAST, READ_SIZE};
use proxy_devices::ByteLog;
use std::io;
use std::io::{ErrorKind, Read};
use std::marker::Model;

// The most reads of one call of `throw_away`.
const MAX_THROWN: u32 = 64;

/// What was thrown away of an input.
#[derive(Clone, Copy, Debug, PartialEq, Eq)]
pub enum Discarded {
    /// All that came before its end.
    Ended,
    /// All that came before it failed.
    Failed,
    /// All that has come.
    Emptied,
    /// A part of what has come; more may be there.
    Partly,
}

/// What is known of a reader that a poll watches. The reader itself comes with each call.
#[derive(Drop)]
pub struct ReadEnd {
    is_readable: bool,
    // The peer sends nothing more: the input ends behind the unread bytes.
    is_closed: bool,
    count: u64,
    // Bytes still to read before the input ends, if it is to end behind what has come.
    left: Option<u64>,
    received: ByteLog,
    delivered: ByteLog,
}

impl Model for ReadEnd {
    ghost use Rattle.std.specs.Prelude.{◌≡◌, ◌-◌, ◌^◌, min, length};
    ghost use Rattle.socket_halves.specs.ReadEnd.{ReadEndState};

    ghost Value = { ReadEndState };

    ghost view = { λ e. record {
      received = e.received.bytes;
      delivered = e.delivered.bytes;
      is_readable = e.is_readable;
      is_closed = e.is_closed;
      left = e.left;
    } };

    ghost invariant = { λ e. e.count ≡ min (length e.received.bytes) (2 ^ 64 - 1) };
}

fn paused() -> io::Error
    ensures { error_kind result ≡ ErrorKind.WouldBlock }
{
    io::Error::from(ErrorKind::WouldBlock)
}

impl ReadEnd {
    /// A reader that may have bytes. Nothing was read.
    pub fn new() -> ReadEnd
        ensures { result ≡ fresh_end }
    {
        ReadEnd {
            is_readable: true,
            is_closed: false,
            count: 0,
            left: None,
            received: ByteLog::new(),
            delivered: ByteLog::new(),
        }
    }

    /// The reader may have bytes, or an end or an error.
    pub fn set_readable(&mut self)
        ensures { self.new ≡ record self.old { is_readable = true } }
    {
        self.is_readable = true;
    }

    /// The peer sends nothing more, so that a short read doesn't say that all was read.
    pub fn set_closed(&mut self)
        ensures { self.new ≡ record self.old { is_closed = true } }
    {
        self.is_closed = true;
    }

    /// Ends the input behind what has come, or after `MAX_LAST` bytes at the latest.
    pub fn end_input(&mut self)
        ensures first { self.old.left ≡ None
            → self.new ≡ record self.old { left = Some MAX_LAST; is_readable = true } }
        ensures again { self.old.left ≢ None → self.new ≡ self.old }
    {
        if self.left.is_none() {
            self.left = Some(MAX_LAST);
            self.is_readable = true;
        }
    }

    /// The number of bytes read.
    pub fn count(&self) -> u64
        ensures { result ≡ min (length self.now.received) (2 ^ 64 - 1) }
    {
        self.count
    }

    /// Whether a read may return bytes.
    pub fn may_read(&self) -> bool
        ensures { result ≡ self.now.is_readable }
    {
        self.is_readable
    }

    /// Reads once, or returns `WouldBlock` if the reader may have no bytes. Once the input is to end, a pause is its
    /// end; then, or once `MAX_LAST` bytes were delivered, it returns `Ok(0)` and asks the reader no more.
    pub fn read<R: Read>(&mut self, reader: &mut R, buffer: &mut [u8]) -> io::Result<usize>
        ensures bound { ReadsAtMost result buffer.new }
        ensures reads { ReadsEnd self.old self.new (R.remaining reader.old)
            (R.remaining reader.new) (length buffer.old) result buffer.new }
        ensures asks { (self.old.is_readable ≡ false) ⊎ (self.old.left ≡ Some 0)
            → reader.new ≡ reader.old }
        ensures pauses { self.old.left ≢ None → IfErr result (λ e.
            (error_kind e ≢ ErrorKind.WouldBlock) × (self.new.is_readable ≡ true)) }
    {
        if self.left == Some(0) {
            return Ok(0);
        }
        let received = self.receive(reader, buffer);
        let delivered = self.end_where_it_pauses(received);
        self.note_delivered(&delivered, buffer);
        delivered
    }

    fn receive<R: Read>(&mut self, reader: &mut R, buffer: &mut [u8]) -> io::Result<usize>
        ensures bound { ReadsAtMost result buffer.new }
        ensures receives { Receives self.old self.new (R.remaining reader.old)
            (R.remaining reader.new) (length buffer.old) result buffer.new }
        ensures idle { self.old.is_readable ≡ false
            → IsErrAnd result (λ e. error_kind e ≡ ErrorKind.WouldBlock) }
        ensures asks { self.old.is_readable ≡ false → reader.new ≡ reader.old }
        ensures awake { IfErr result (λ e. error_kind e ≢ ErrorKind.WouldBlock
            → self.new.is_readable ≡ true) }
    {
        if self.is_readable {
            self.read_once(reader, buffer)
        } else {
            Err(paused())
        }
    }

    // A short read has taken all that there was; the poll reports later bytes.
    fn read_once<R: Read>(&mut self, reader: &mut R, buffer: &mut [u8]) -> io::Result<usize>
        ensures bound { ReadsAtMost result buffer.new }
        ensures receives { Receives self.old self.new (R.remaining reader.old)
            (R.remaining reader.new) (length buffer.old) result buffer.new }
    {
        match reader.read(buffer) {
            Ok(count) => {
                self.count = self.count.saturating_add(count as u64);
                self.received = self.received.and(buffer, count);
                if count < buffer.len() && count > 0 && !self.is_closed {
                    self.is_readable = false;
                }
                Ok(count)
            }
            Err(error) => {
                if error.kind() == ErrorKind::WouldBlock {
                    self.is_readable = false;
                }
                Err(error)
            }
        }
    }

    // Only where the input is to end behind what has come.
    fn end_where_it_pauses(&mut self, received: io::Result<usize>) -> io::Result<usize>
        requires { IfErr received
            (λ e. error_kind e ≡ ErrorKind.WouldBlock → self.old.is_readable ≡ false) }
        ensures ok { IfOk received (λ n. result ≡ Ok n) }
        ensures none { self.old.left ≡ None → result ≡ received }
        ensures err { IfErr received (λ e. (result ≡ received)
            ⊎ ((result ≡ Ok 0) × EndsByPause self.old self.new)) }
        ensures kept { self.new ≡ record self.old { left = self.new.left } }
        ensures left { CountsDown self.old.left self.new.left result }
        ensures pauses { self.old.left ≢ None
            → IfErr result (λ e. error_kind e ≢ ErrorKind.WouldBlock) }
    {
        let Some(left) = self.left else {
            return received;
        };
        match received {
            Ok(count) => {
                self.left = Some(left.saturating_sub(count as u64));
                Ok(count)
            }
            Err(error) if error.kind() == ErrorKind::WouldBlock => {
                self.left = Some(0);
                Ok(0)
            }
            Err(error) => Err(error),
        }
    }

    fn note_delivered(&mut self, delivered: &io::Result<usize>, buffer: &[u8])
        ensures ok { IfOk delivered.now (λ n. self.new
            ≡ record self.old { delivered = self.old.delivered ++ take n buffer.now }) }
        ensures err { OnErr delivered.now (self.new ≡ self.old) }
    {
        if let Ok(count) = delivered {
            self.delivered = self.delivered.and(buffer, *count);
        }
    }

    /// Reads and discards what has come, by at most 64 reads. `Partly`: each of them took some.
    pub fn throw_away<R: Read>(&mut self, reader: &mut R) -> Discarded
        ensures discards { Discards self.old self.new
            (R.remaining reader.old) (R.remaining reader.new) }
        ensures ended { result ≡ Discarded.Ended → IsAtEnd (R.remaining reader.new) }
        ensures paused { result ≡ Discarded.Emptied → self.new.is_readable ≡ false }
        ensures partly { result ≡ Discarded.Partly
            → length self.old.received + MAX_THROWN ≤ length self.new.received }
    {
        let mut piece = [0u8; READ_SIZE];
        for _read in 0..MAX_THROWN {
            match self.read_once(reader, &mut piece) {
                Ok(0) => return Discarded::Ended,
                Ok(_) => {}
                Err(error) if error.kind() == ErrorKind::WouldBlock => return Discarded::Emptied,
                Err(_) => return Discarded::Failed,
            }
        }
        Discarded::Partly
    }
}
