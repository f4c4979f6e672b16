ghost use Rattle.std.specs.Prelude.{◌≡◌};
ghost use Rattle.proxy_history.specs.declared.refusal.Refusal.TheVariants.{NoMemory};

use ejector::Field;
use std::alloc::AllocError;
use thiserror::Error;

/// Why an event is refused. A refused event changes nothing.
#[derive(Clone, Copy, Debug, PartialEq, Eq, Error)]
pub enum Refusal {
    /// 1001: memory was refused.
    #[error("out of memory")]
    NoMemory,
    /// 1002: the journal has 262,144 steps, or its payload would pass 67,108,864 bytes.
    #[error("the journal is full")]
    JournalFull,
    /// 1003: the connection was never opened, or is closed.
    #[error("no such connection")]
    NoSuchConnection,
    /// 1004: 1,024 commands of the connection are accepted and not handed out.
    #[error("too many unwritten commands")]
    Crowded,
    /// 1005: no part waits for the host.
    #[error("nothing waits")]
    NothingWaiting,
    /// 1006: the epoch isn't the host's.
    #[error("not of the present epoch, which is {current}")]
    Stale {
        /// The host's epoch.
        current: u64,
    },
    /// 1007: every part sent in the epoch has its reply.
    #[error("nobody asked")]
    Unasked,
    /// 1008: there is no unwritten command, or a part of the oldest has no value yet.
    #[error("not ready: {left} commands are left")]
    NotReady {
        /// The connection's commands accepted and not handed out.
        left: u64,
    },
    /// 1009: the connection takes no further command.
    #[error("the connection is finishing")]
    Finishing,
    /// 1010: 4,096 connections are open.
    #[error("too many connections")]
    TooManyConnections,
    /// 1011: a setting is out of its range.
    #[error("{field} is out of its range")]
    BadSettings {
        /// The first such setting.
        field: Field,
    },
    /// 1012: there is no host of this number.
    #[error("no such host")]
    NoSuchHost,
    /// 1013: a simple string or an error in the reply has a CR or an LF.
    #[error("a reply that can't be written")]
    NotPlain,
}

impl Refusal {
    ghost use Rattle.proxy_history.specs.Refusal.{number_of};

    /// 1001 to 1013.
    pub fn number(self) -> u16
        ensures { result ≡ number_of self }
    {
        match self {
            Refusal::NoMemory => 1001,
            Refusal::JournalFull => 1002,
            Refusal::NoSuchConnection => 1003,
            Refusal::Crowded => 1004,
            Refusal::NothingWaiting => 1005,
            Refusal::Stale { .. } => 1006,
            Refusal::Unasked => 1007,
            Refusal::NotReady { .. } => 1008,
            Refusal::Finishing => 1009,
            Refusal::TooManyConnections => 1010,
            Refusal::BadSettings { .. } => 1011,
            Refusal::NoSuchHost => 1012,
            Refusal::NotPlain => 1013,
        }
    }
}

impl From<AllocError> for Refusal {
    ghost from_gives = { λ _ e. e ≡ NoMemory };

    fn from(_error: AllocError) -> Refusal {
        Refusal::NoMemory
    }
}
