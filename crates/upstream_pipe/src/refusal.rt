ghost use Rattle.std.specs.Prelude.{◌≡◌};
ghost use Rattle.upstream_pipe.specs.declared.refusal.PipeRefusal.TheVariants.{NoMemory};

use std::alloc::AllocError;
use thiserror::Error;

/// Why a call of a pipe is refused. A refused call changes nothing.
#[derive(Clone, Copy, Debug, PartialEq, Eq, Error)]
pub enum PipeRefusal {
    /// 601: memory was refused.
    #[error("out of memory")]
    NoMemory,
    /// 602: 1,024 parts wait.
    #[error("1024 parts wait already")]
    Full,
    /// 603: the given epoch isn't the pipe's `current`.
    #[error("the epoch is over: it is {current} now")]
    Stale { current: u64 },
    /// 604: a reply came, and no part flies.
    #[error("a reply that nobody asked for")]
    Unasked,
    /// 605: the epoch is the greatest `u64`.
    #[error("no further epoch is left")]
    EpochsSpent,
}

impl PipeRefusal {
    ghost use Rattle.upstream_pipe.specs.Refusal.{number_of};

    /// 601 to 605.
    pub fn number(self) -> u16
        ensures { result ≡ number_of self }
    {
        match self {
            PipeRefusal::NoMemory => 601,
            PipeRefusal::Full => 602,
            PipeRefusal::Stale { .. } => 603,
            PipeRefusal::Unasked => 604,
            PipeRefusal::EpochsSpent => 605,
        }
    }
}

impl From<AllocError> for PipeRefusal {
    ghost from_gives = { λ _ e. e ≡ NoMemory };

    fn from(_error: AllocError) -> PipeRefusal {
        PipeRefusal::NoMemory
    }
}
