//! Reads each metric's numbers from a snapshot.
ghost use Rattle.std.specs.Prelude.{◌≡◌, ◌<◌};
ghost use Rattle.proxy_pages.specs.Numbers.{number_of, host_number, journal_number, moved_number};

use crate::metric::{HostNumber, JournalNumber, Number, Way};
use crate::snapshot::{Look, Moved, Snapshot};
use limits::MAX_HOSTS;

impl Number {
    /// The number.
    pub(crate) fn of(self, snapshot: &Snapshot) -> u64
        ensures { result ≡ number_of snapshot.now self }
    {
        let (serving, draining) = (&snapshot.serving, &snapshot.draining);
        match self {
            Number::Accepted => snapshot.counts.accepted,
            Number::Handed => snapshot.counts.handed,
            Number::Ejections => snapshot.counts.ejections,
            Number::Kept => snapshot.counts.kept,
            Number::Panic => u64::from(serving.load.in_panic),
            Number::Connections => snapshot.connections,
            Number::Closed => snapshot.closed,
            Number::Idle => snapshot.idle_closed,
            Number::Generations => snapshot.generations,
            Number::Draining => snapshot.draining_count,
            Number::Turns => snapshot
                .past_steps
                .saturating_add(serving.steps)
                .saturating_add(draining.steps),
            Number::Ready => u64::from(snapshot.is_ready),
            Number::Ending => u64::from(snapshot.is_ending),
            Number::Resident => snapshot.process.resident,
            Number::Files => snapshot.process.files,
            Number::Began => snapshot.process.began,
        }
    }
}

impl HostNumber {
    /// The number of a host.
    pub(crate) fn of(self, snapshot: &Snapshot, host: usize) -> u64
        requires { host < MAX_HOSTS }
        ensures { result ≡ host_number snapshot.now self host }
    {
        let counts = &snapshot.counts.hosts[host];
        let serving = &snapshot.serving.load.hosts[host];
        let draining = &snapshot.draining.load.hosts[host];
        match self {
            HostNumber::Sent => counts.sent,
            HostNumber::Answered => counts.answered,
            HostNumber::Faults => counts.faults,
            HostNumber::Lost => counts.lost,
            HostNumber::Waiting => serving.waiting.saturating_add(draining.waiting),
            HostNumber::Flying => serving.flying.saturating_add(draining.flying),
            HostNumber::Out => u64::from(serving.is_out),
        }
    }
}

impl JournalNumber {
    /// The number of a journal.
    pub(crate) fn of(self, look: &Look) -> u64
        ensures { result ≡ journal_number self look.now }
    {
        match self {
            JournalNumber::Steps => look.steps,
            JournalNumber::Bytes => look.bytes,
        }
    }
}

impl Way {
    /// The bytes that went this way.
    pub(crate) fn of(self, moved: &Moved) -> u64
        ensures { result ≡ moved_number self moved.now }
    {
        match self {
            Way::Read => moved.read,
            Way::Written => moved.written,
        }
    }
}
