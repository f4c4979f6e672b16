ghost use Rattle.std.specs.Prelude.{◌≡◌, ◌<◌, ◌+◌, ◌-◌, ◌^◌, min, length, true, false};
ghost use Rattle.proxy_devices.specs.Device.{IsRead, reader_state};
ghost use Rattle.proxy_local.specs.Announced.{announced, with_pauses};

use proxy_engines::{IoOutcome, ReadTally, Tally};
use std::io;
use std::io::{ErrorKind, Read};

/// Pauses once before each read, so that its engine goes idle once all input is answered, before a read that may
/// wait.
#[derive(Drop)]
pub(crate) struct Announced<R> {
    inner: R,
    is_announced: bool,
    pauses: u64,
}

impl<R> Announced<R> {
    pub(crate) fn new(inner: R) -> Announced<R>
        ensures inner { result.inner ≡ inner }
        ensures next { result.is_announced ≡ false }
        ensures pauses { result.pauses ≡ 0 }
    {
        Announced {
            inner,
            is_announced: false,
            pauses: 0,
        }
    }

    // Only if a pause is due before the next read.
    fn pause(&mut self) -> bool
        ensures inner { self.new.inner ≡ self.old.inner }
        ensures pauses { result ≡ true → (self.old.is_announced ≡ false)
            × (self.new.is_announced ≡ true)
            × (self.new.pauses ≡ min (self.old.pauses + 1) (2 ^ 64 - 1)) }
        ensures reads { result ≡ false → (self.old.is_announced ≡ true)
            × (self.new.is_announced ≡ false) × (self.new.pauses ≡ self.old.pauses) }
    {
        self.is_announced = !self.is_announced;
        if self.is_announced {
            self.pauses = self.pauses.saturating_add(1);
        }
        self.is_announced
    }
}

impl<R: Tally> Tally for Announced<R> {
    ghost counts = { λ a. with_pauses a.pauses (R.counts a.inner) };

    fn failures(&self) -> u64 {
        self.inner.failures()
    }

    fn pauses(&self) -> u64 {
        self.inner.pauses().saturating_add(self.pauses)
    }
}

impl<R: Read> Read for Announced<R> {
    ghost remaining = { λ a. R.remaining a.inner };

    fn read(&mut self, buffer: &mut [u8]) -> io::Result<usize> {
        if self.pause() {
            return Err(io::Error::from(ErrorKind::WouldBlock));
        }
        self.inner.read(buffer)
    }
}

impl<R: ReadTally> ReadTally for Announced<R> {
    ghost told = { λ a. R.told a.inner };

    /// Pauses without a read, or, after a pause, reads and returns the result.
    fn read_told(&mut self, buffer: &mut [u8]) -> IoOutcome
        requires room { 0 < length buffer.old }
        ensures told { IsRead
            (announced self.old.pauses (reader_state R.remaining R.told R.counts self.old.inner))
            (announced self.new.pauses (reader_state R.remaining R.told R.counts self.new.inner))
            buffer.new result }
        ensures pauses { self.old.is_announced ≡ false → (result ≡ IoOutcome.Idle)
            × (self.new.is_announced ≡ true) × (self.new.inner ≡ self.old.inner) }
        ensures reads { self.old.is_announced ≡ true → (self.new.is_announced ≡ false)
            × IsRead (reader_state R.remaining R.told R.counts self.old.inner)
            (reader_state R.remaining R.told R.counts self.new.inner) buffer.new result }
    {
        if self.pause() {
            return IoOutcome::Idle;
        }
        self.inner.read_told(buffer)
    }
}
