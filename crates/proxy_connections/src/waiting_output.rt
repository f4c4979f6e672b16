//! The output that waits for a client's socket.
ghost use Rattle.std.specs.Prelude.{◌≡◌};
ghost use Rattle.proxy_connections.specs.WaitingOutput.{nothing_waits, noted_at, stalled_bytes};

use limits::MAX_BUFFERED;

/// A socket for which more bytes than these wait is held back: no command of its client is taken in.
pub(crate) const MAX_USUAL: u64 = 2 * MAX_BUFFERED as u64;

/// A held-back socket that takes nothing for so long is stalled.
pub(crate) const STALLED_MS: u64 = 1_000;

/// The bytes that wait, and since when they are as many.
#[derive(Clone, Copy, Drop)]
pub(crate) struct WaitingOutput {
    pub(crate) bytes: u64,
    pub(crate) since: u64,
}

impl WaitingOutput {
    /// Nothing waits.
    pub(crate) fn new() -> WaitingOutput
        ensures { result ≡ nothing_waits }
    {
        WaitingOutput { bytes: 0, since: 0 }
    }

    /// At this moment so many bytes wait.
    pub(crate) fn note(&mut self, bytes: u64, now: u64)
        ensures { self.new ≡ noted_at now bytes self.old }
    {
        if bytes != self.bytes {
            self.bytes = bytes;
            self.since = now;
        }
    }

    /// The bytes that wait if it is stalled, else 0.
    pub(crate) fn stalled_bytes(&self, now: u64) -> u64
        ensures { result ≡ stalled_bytes now self.now }
    {
        let is_stalled = now.saturating_sub(self.since) >= STALLED_MS;
        if self.bytes > MAX_USUAL && is_stalled {
            self.bytes
        } else {
            0
        }
    }
}
