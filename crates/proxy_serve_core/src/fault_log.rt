ghost use Rattle.std.specs.Prelude.{◌≡◌, ◌≤◌, ◌<◌, None, slice_set};
ghost use Rattle.proxy_serve_core.specs.FaultLog.{counted, faults_at, line_of, logged, of_cause, with_cause, with_lost};

use limits::{MAX_HOSTS, TELL_MS};
use std::mem;

/// Why links to a host end.
#[derive(Clone, Copy, Debug, PartialEq, Eq)]
pub enum FaultCause {
    /// No link could be made.
    Refused,
    /// The host ended the link, or a device failed.
    Closed,
    /// A reply didn't come in time.
    Late,
    /// What came is no reply, or nobody asked for it.
    Garbled,
    /// A reply passed a limit.
    TooLong,
    /// The proxy gave the link up.
    GivenUp,
}

impl FaultCause {
    /// All causes, in the order of the metrics' page.
    pub const ALL: [FaultCause; 6] = [
        FaultCause::Refused,
        FaultCause::Closed,
        FaultCause::Late,
        FaultCause::Garbled,
        FaultCause::TooLong,
        FaultCause::GivenUp,
    ];
}

/// A fault of a host.
#[derive(Clone, Copy, Debug, PartialEq, Eq)]
pub struct LinkLoss {
    /// Its cause.
    pub cause: FaultCause,
    /// The parts that were lost.
    pub parts: u64,
}

/// Faults of one cause: those of a host, or sockets that found no room.
#[derive(Clone, Copy, Debug, PartialEq, Eq)]
pub struct CauseFaults {
    /// Their number; the greatest `u64` stands for any more.
    pub count: u64,
    /// The parts lost by those that no line has told, likewise; of sockets their number.
    pub untold: u64,
    /// When a line of them was logged last, in milliseconds.
    pub logged_at: Option<u64>,
}

impl CauseFaults {
    /// There was none.
    pub const NONE: CauseFaults = CauseFaults {
        count: 0,
        untold: 0,
        logged_at: None,
    };

    fn counted(self) -> CauseFaults
        ensures { result ≡ counted self }
    {
        CauseFaults {
            count: self.count.saturating_add(1),
            ..self
        }
    }

    pub(crate) fn with_lost(self, parts: u64) -> CauseFaults
        ensures { result ≡ with_lost parts self }
    {
        CauseFaults {
            untold: self.untold.saturating_add(parts),
            ..self.counted()
        }
    }

    // The parts of a line that is due, which is logged now.
    pub(crate) fn take_line(&mut self, now: u64) -> Option<u64>
        ensures line { result ≡ line_of now self.old }
        ensures logged { self.new ≡ logged now self.old }
    {
        let is_due = match self.logged_at {
            None => true,
            Some(logged_at) => now.saturating_sub(logged_at) >= TELL_MS,
        };
        if !is_due {
            return None;
        }
        self.logged_at = Some(now);
        Some(mem::replace(&mut self.untold, 0))
    }
}

/// A host's faults, by their cause.
#[derive(Clone, Copy, Debug, PartialEq, Eq)]
pub struct HostFaults {
    /// `Refused`.
    pub refused: CauseFaults,
    /// `Closed`.
    pub closed: CauseFaults,
    /// `Late`.
    pub late: CauseFaults,
    /// `Garbled`.
    pub garbled: CauseFaults,
    /// `TooLong`.
    pub too_long: CauseFaults,
    /// `GivenUp`.
    pub given_up: CauseFaults,
}

impl HostFaults {
    /// There was none.
    pub const NONE: HostFaults = HostFaults {
        refused: CauseFaults::NONE,
        closed: CauseFaults::NONE,
        late: CauseFaults::NONE,
        garbled: CauseFaults::NONE,
        too_long: CauseFaults::NONE,
        given_up: CauseFaults::NONE,
    };

    /// Those of a cause.
    pub fn of(&self, cause: FaultCause) -> CauseFaults
        ensures { result ≡ of_cause cause self.now }
    {
        match cause {
            FaultCause::Refused => self.refused,
            FaultCause::Closed => self.closed,
            FaultCause::Late => self.late,
            FaultCause::Garbled => self.garbled,
            FaultCause::TooLong => self.too_long,
            FaultCause::GivenUp => self.given_up,
        }
    }

    fn set(&mut self, cause: FaultCause, faults: CauseFaults)
        ensures { self.new ≡ with_cause cause faults self.old }
    {
        match cause {
            FaultCause::Refused => self.refused = faults,
            FaultCause::Closed => self.closed = faults,
            FaultCause::Late => self.late = faults,
            FaultCause::Garbled => self.garbled = faults,
            FaultCause::TooLong => self.too_long = faults,
            FaultCause::GivenUp => self.given_up = faults,
        }
    }

    fn count(&mut self, cause: FaultCause)
        ensures { self.new ≡ with_cause cause (counted (of_cause cause self.old)) self.old }
    {
        self.set(cause, self.of(cause).counted());
    }

    fn note(&mut self, loss: LinkLoss, now: u64) -> Option<u64>
        ensures line { result ≡ line_of now (with_lost loss.parts (of_cause loss.cause self.old)) }
        ensures noted { self.new ≡ with_cause loss.cause
            (logged now (with_lost loss.parts (of_cause loss.cause self.old))) self.old }
    {
        let mut faults = self.of(loss.cause).with_lost(loss.parts);
        let line = faults.take_line(now);
        self.set(loss.cause, faults);
        line
    }
}

/// The faults of all hosts, over all generations.
#[derive(Clone, Copy)]
pub struct FaultLog {
    hosts: [HostFaults; MAX_HOSTS],
}

impl FaultLog {
    /// No fault was noted.
    pub fn new() -> FaultLog {
        FaultLog {
            hosts: [HostFaults::NONE; MAX_HOSTS],
        }
    }

    /// Each host's faults, by its number.
    pub fn hosts(&self) -> &[HostFaults; MAX_HOSTS]
        ensures { result.now ≡ self.now.hosts }
    {
        &self.hosts
    }

    /// Counts a host's fault without a line. Ignored for a number past the hosts.
    pub fn count(&mut self, host: usize, cause: FaultCause)
        ensures counted { host < MAX_HOSTS → let faults = faults_at self.old.hosts host in
            self.new.hosts ≡ slice_set self.old.hosts host
            (with_cause cause (counted (of_cause cause faults)) faults) }
        ensures ignored { MAX_HOSTS ≤ host → self.new ≡ self.old }
    {
        if host < MAX_HOSTS {
            let mut faults = self.hosts[host];
            faults.count(cause);
            self.hosts[host] = faults;
        }
    }

    /// Counts a host's fault at a moment in milliseconds. `Some`: a line of it is to be logged, as the last one of its host
    /// and cause was `TELL_MS` ago, or there was none; with the parts lost since that one. Ignored for a number past the
    /// hosts.
    pub fn note(&mut self, host: usize, loss: LinkLoss, now: u64) -> Option<u64>
        ensures line { host < MAX_HOSTS → let faults = faults_at self.old.hosts host in
            result ≡ line_of now (with_lost loss.parts (of_cause loss.cause faults)) }
        ensures noted { host < MAX_HOSTS → let faults = faults_at self.old.hosts host in
            self.new.hosts ≡ slice_set self.old.hosts host (with_cause loss.cause
            (logged now (with_lost loss.parts (of_cause loss.cause faults))) faults) }
        ensures ignored { MAX_HOSTS ≤ host → (result ≡ None) × (self.new ≡ self.old) }
    {
        if host >= MAX_HOSTS {
            return None;
        }
        let mut faults = self.hosts[host];
        let line = faults.note(loss, now);
        self.hosts[host] = faults;
        line
    }
}
