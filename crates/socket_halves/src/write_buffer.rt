ghost use Rattle.std.specs.Prelude.{◌≡◌, ◌≢◌, ◌≤◌, ◌<◌, ◌==◌, true, false, [], ◌++◌, length, max, IfOk, IfErr, OnOk, OnErr};
ghost use Rattle.std.specs.Io.{WritesAtMost};
ghost use Rattle.std.specs.Io.KnownBytes.{WriteAppends};
ghost use Rattle.std.specs.IoError.{error_kind};
ghost use Rattle.limits.specs.declared.workers.TheConstants.{MAX_BUFFERED};
ghost use Rattle.socket_halves.specs.WriteBuffer.{Accepts, GoesOut, StaysWritable, WritesBuffer, WritesOut, fresh_buffer, may_write};

use limits::MAX_BUFFERED;
use proxy_devices::ByteLog;
use std::alloc::{AllocError, Global};
use std::io::{ErrorKind, Write};
use std::marker::Model;
use std::{io, mem};

// A write interrupted this often in a row has failed.
const MAX_INTERRUPTIONS: u32 = 1_000;

/// A writer, and the bytes buffered for it.
///
/// An interrupted write is made again; 1,000 interruptions in a row are a failed write. One that takes nothing has
/// failed too. After one that takes less than it was given, the writer takes no more for now.
#[derive(Drop)]
pub struct WriteBuffer<W: Write> {
    alloc: Global,
    writer: W,
    taken: ByteLog,
    bytes: Vec<u8>,
    // Bytes in front that are written.
    written: usize,
    // This many buffered bytes are written before more are buffered.
    bound: usize,
    // The greatest bound since the buffer was empty.
    greatest: usize,
    is_writable: bool,
    is_broken: bool,
}

impl<W: Write> Model for WriteBuffer<W> {
    ghost use Rattle.std.specs.Prelude.{◌≤◌, ◌*◌, drop, length};
    ghost use Rattle.limits.specs.declared.workers.TheConstants.{MAX_BUFFERED};
    ghost use Rattle.socket_halves.specs.WriteBuffer.{WriteBufferState};

    ghost Value = { WriteBufferState };

    ghost view = { λ g. record {
      held = W.contents g.writer;
      taken = g.taken.bytes;
      buffered = drop g.written g.bytes.items;
      bound = g.bound;
      is_writable = g.is_writable;
      is_broken = g.is_broken;
    } };

    ghost invariant = { λ g. (g.written ≤ length g.bytes.items) × (MAX_BUFFERED ≤ g.bound)
        × (g.bound ≤ g.greatest) × (length g.bytes.items ≤ 3 * g.greatest) };
}

fn paused() -> io::Error
    ensures { error_kind result ≡ ErrorKind.WouldBlock }
{
    io::Error::from(ErrorKind::WouldBlock)
}

fn broken() -> io::Error
    ensures { error_kind result ≡ ErrorKind.BrokenPipe }
{
    io::Error::from(ErrorKind::BrokenPipe)
}

fn is_interrupted(told: &io::Result<usize>) -> bool
    ensures ok { OnOk told.now (result ≡ false) }
    ensures err { IfErr told.now (λ e. error_kind e ≡ ErrorKind.Interrupted → result ≡ true) }
{
    match told {
        Ok(_) => false,
        Err(error) => error.kind() == ErrorKind::Interrupted,
    }
}

fn write_once<W: Write>(writer: &mut W, bytes: &[u8]) -> io::Result<usize>
    ensures bound { WritesAtMost result bytes.now }
    ensures bytes { WriteAppends (W.contents writer.old) (W.contents writer.new) result bytes.now }
    ensures interrupted { IfErr result (λ e. error_kind e ≢ ErrorKind.Interrupted) }
{
    for _ in 0..MAX_INTERRUPTIONS {
        let told = writer.write(bytes);
        if !is_interrupted(&told) {
            return told;
        }
        drop(told);
    }
    Err(broken())
}

impl<W: Write> WriteBuffer<W> {
    /// Nothing is buffered, the bound is 65,536 bytes, and the writer may take bytes.
    pub fn new(alloc: Global, writer: W) -> WriteBuffer<W>
        ensures { result ≡ fresh_buffer (W.contents writer) }
    {
        WriteBuffer {
            alloc,
            writer,
            taken: ByteLog::new(),
            bytes: Vec::new(alloc),
            written: 0,
            bound: MAX_BUFFERED,
            greatest: MAX_BUFFERED,
            is_writable: true,
            is_broken: false,
        }
    }

    /// The writer, for questions. Bytes written past the buffer would overtake buffered ones.
    pub fn writer(&self) -> &W
        ensures { W.contents result.now ≡ self.now.held }
    {
        &self.writer
    }

    /// The writer may take bytes again.
    pub fn set_writable(&mut self)
        ensures { self.new ≡ record self.old { is_writable = true } }
    {
        self.is_writable = true;
    }

    /// From here on this many bytes are buffered before some are written, at least 65,536.
    pub fn set_bound(&mut self, bound: usize)
        ensures { self.new ≡ record self.old { bound = max bound MAX_BUFFERED } }
    {
        self.bound = bound.max(MAX_BUFFERED);
        self.greatest = self.greatest.max(self.bound);
    }

    /// From here on, behaves as after a failed write.
    pub fn break_off(&mut self)
        ensures { self.new ≡ record self.old { is_broken = true } }
    {
        self.is_broken = true;
    }

    /// Whether a write failed.
    pub fn is_broken(&self) -> bool
        ensures { result ≡ self.now.is_broken }
    {
        self.is_broken
    }

    /// Whether nothing is buffered.
    pub fn is_empty(&self) -> bool
        ensures { result ≡ (length self.now.buffered == 0) }
    {
        self.count() == 0
    }

    /// Whether bytes are buffered and the writer may take some.
    pub fn may_write(&self) -> bool
        ensures { result ≡ may_write self.now }
    {
        self.is_writable && !self.is_broken && !self.is_empty()
    }

    /// Lends a buffer, in which bytes are buffered from here on, unless some are already. Its old content is dropped.
    /// What stands in its place is empty.
    pub fn lend_buffer(&mut self, buffer: &mut Vec<u8>)
        ensures same { self.new ≡ self.old }
        ensures lent { self.old.buffered ≡ [] → buffer.new.items ≡ [] }
        ensures stays { self.old.buffered ≢ [] → buffer.new.items ≡ buffer.old.items }
    {
        if self.is_empty() {
            buffer.clear();
            self.bytes.clear();
            self.written = 0;
            self.greatest = self.bound;
            mem::swap(&mut self.bytes, buffer);
        }
    }

    /// Writes buffered bytes until nothing is buffered, the writer takes no more for now, or a write has failed. Once
    /// all is taken the buffer is returned, and is empty. After a failed write nothing changes.
    pub fn write_out(&mut self, buffer: &mut Vec<u8>)
        ensures writes { WritesOut self.old self.new }
        ensures back { buffer.new.items ≡ [] }
    {
        buffer.clear();
        self.write_gathered();
        if !self.is_empty() {
            return;
        }
        self.bytes.clear();
        self.written = 0;
        if buffer.capacity() < self.bytes.capacity() {
            mem::swap(&mut self.bytes, buffer);
        }
        self.bytes = Vec::new(self.alloc);
    }

    fn write_some(&mut self)
        ensures goes_out { GoesOut self.old self.new [] }
        ensures bound { self.new.bound ≡ self.old.bound }
        ensures ends { may_write self.new ≡ false }
        ensures whole { self.old.buffered ≢ [] → StaysWritable self.old self.new }
    {
        let rest = self.bytes.split_at(self.written).1;
        match write_once(&mut self.writer, rest) {
            Ok(0) => self.is_broken = true,
            Ok(count) => {
                self.taken = self.taken.and(rest, count);
                self.written += count;
                self.is_writable = self.is_empty();
            }
            Err(error) => self.note_refused(error.kind()),
        }
    }

    fn note_refused(&mut self, kind: ErrorKind)
        ensures kept { self.new ≡ record self.old {
          is_writable = self.new.is_writable;
          is_broken = self.new.is_broken;
        } }
        ensures paused { kind ≡ ErrorKind.WouldBlock
            → self.new ≡ record self.old { is_writable = false } }
        ensures failed { kind ≢ ErrorKind.WouldBlock
            → self.new ≡ record self.old { is_broken = true } }
    {
        match kind {
            ErrorKind::WouldBlock => self.is_writable = false,
            _ => self.is_broken = true,
        }
    }

    fn write_gathered(&mut self)
        ensures { WritesOut self.old self.new }
    {
        if self.may_write() {
            self.write_some();
        }
    }

    /// The number of buffered bytes.
    pub fn count(&self) -> usize
        ensures { result ≡ length self.now.buffered }
    {
        self.bytes.len() - self.written
    }

    // Nothing may be buffered.
    fn write_through(&mut self, bytes: &[u8]) -> io::Result<usize>
        requires { self.old.buffered ≡ [] }
        ensures bound { WritesAtMost result bytes.now }
        ensures accepts { Accepts self.old self.new bytes.now result }
        ensures bound_stays { self.new.bound ≡ self.old.bound }
        ensures buffered { self.new.buffered ≡ [] }
        ensures whole { IfOk result (λ n. n ≡ length bytes.now → self.new.is_writable ≡ true) }
    {
        match write_once(&mut self.writer, bytes) {
            Ok(count) => {
                self.taken = self.taken.and(bytes, count);
                self.is_writable = count == bytes.len();
                if count == 0 && !bytes.is_empty() {
                    self.break_off();
                }
                Ok(count)
            }
            Err(error) => {
                self.note_refused(error.kind());
                Err(error)
            }
        }
    }

    // Written bytes go first, where they are as many as the others, or nothing else is there.
    fn append(&mut self, bytes: &[u8]) -> Result<(), AllocError>
        requires few { length self.old.buffered < self.old.bound }
        requires short { length bytes.now < self.old.bound }
        ensures ok { OnOk result (self.new
            ≡ record self.old { buffered = self.old.buffered ++ bytes.now }) }
        ensures err { OnErr result (self.new ≡ self.old) }
    {
        if self.written >= self.count().max(MAX_BUFFERED) || self.is_empty() {
            self.bytes.drain(..self.written);
            self.written = 0;
        }
        match self.bytes.extend_from_slice(bytes) {
            Ok(()) => Ok(()),
            Err(_) => Err(AllocError),
        }
    }

    fn make_room(&mut self, count: usize)
        ensures goes_out { GoesOut self.old self.new [] }
        ensures bound { self.new.bound ≡ self.old.bound }
        ensures some { 0 < self.new.bound }
        ensures full { self.new.bound ≤ length self.new.buffered → may_write self.new ≡ false }
        ensures broken { self.old.is_broken ≡ true → self.new ≡ self.old }
        ensures whole { StaysWritable self.old self.new }
    {
        if self.count() >= self.bound || count >= self.bound {
            self.write_gathered();
        }
    }

    /// Takes these bytes; all of them if they are fewer than the bound. They are buffered, at most twice the bound in all.
    /// A longer text, or one without memory, is written at once behind the others, as far as the writer takes it.
    ///
    /// `WouldBlock`: nothing is taken, since the writer takes no more for now and as many bytes as the bound are buffered
    /// or the text isn't buffered. Any other error, or 0 for a text that isn't empty: a write has failed, and nothing is
    /// taken any more.
    pub fn write(&mut self, bytes: &[u8]) -> io::Result<usize>
        ensures bound { WritesAtMost result bytes.now }
        ensures writes { WritesBuffer self.old self.new bytes.now result }
    {
        self.make_room(bytes.len());
        if self.is_broken {
            return Err(broken());
        }
        if self.count() >= self.bound {
            return Err(paused());
        }
        if bytes.len() >= self.bound {
            return self.write_long(bytes);
        }
        match self.append(bytes) {
            Ok(()) => Ok(bytes.len()),
            Err(_) => self.write_long(bytes),
        }
    }

    fn write_long(&mut self, bytes: &[u8]) -> io::Result<usize>
        ensures bound { WritesAtMost result bytes.now }
        ensures accepts { Accepts self.old self.new bytes.now result }
        ensures bound_stays { self.new.bound ≡ self.old.bound }
        ensures limit { length self.new.buffered ≤ length self.old.buffered }
        ensures whole { IfOk result (λ n. n ≡ length bytes.now → self.new.is_writable ≡ true) }
    {
        self.write_gathered();
        if self.is_broken {
            return Err(broken());
        }
        if !self.is_empty() || !self.is_writable {
            return Err(paused());
        }
        self.write_through(bytes)
    }
}
