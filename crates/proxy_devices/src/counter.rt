ghost use Rattle.std.specs.Prelude.{◌≡◌, ◌⊎◌, ◌↔◌};
ghost use Rattle.proxy_devices.specs.Device.{CountsError, HasFailed, WasIdle, IsPause};

use crate::tally::IoOutcome;
use std::io::ErrorKind;
use std::marker::Model;

/// Counts failures and pauses. Each count stays at the greatest `u64`.
#[derive(Drop)]
pub struct Counter {
    failures: u64,
    pauses: u64,
}

impl Model for Counter {
    ghost use Rattle.proxy_devices.specs.Device.{Counts};

    ghost Value = { Counts };

    ghost view = { λ c. record { failed = c.failures; paused = c.pauses } };
}

impl Counter {
    /// Nothing is counted.
    pub fn new() -> Counter
        ensures { result ≡ record { failed = 0; paused = 0 } }
    {
        Counter {
            failures: 0,
            pauses: 0,
        }
    }

    /// The number of failures.
    pub fn failures(&self) -> u64
        ensures { result ≡ self.now.failed }
    {
        self.failures
    }

    /// The number of pauses.
    pub fn pauses(&self) -> u64
        ensures { result ≡ self.now.paused }
    {
        self.pauses
    }

    /// Counts a failure.
    pub fn note_failure(&mut self)
        ensures { HasFailed self.old self.new }
    {
        self.failures = self.failures.saturating_add(1);
    }

    /// Counts an error by its kind: `WouldBlock` and `Interrupted` are pauses, any other is a failure.
    pub fn note_error(&mut self, kind: ErrorKind) -> IoOutcome
        ensures told { ((result ≡ IoOutcome.Idle) × WasIdle self.old self.new)
            ⊎ ((result ≡ IoOutcome.Failed) × HasFailed self.old self.new) }
        ensures idle { (result ≡ IoOutcome.Idle) ↔ IsPause kind }
        ensures counts { CountsError kind self.old self.new }
    {
        match kind {
            ErrorKind::WouldBlock | ErrorKind::Interrupted => {
                self.pauses = self.pauses.saturating_add(1);
                IoOutcome::Idle
            }
            _ => {
                self.note_failure();
                IoOutcome::Failed
            }
        }
    }
}
