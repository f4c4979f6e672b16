ghost use Rattle.std.specs.Prelude.{◌≡◌};
ghost use Rattle.reply_queue.specs.declared.refusal.QueueRefusal.TheVariants.{NoMemory};

use splitter::SplitError;
use std::alloc::AllocError;
use thiserror::Error;

/// Why a call of a queue is refused. A refused call changes nothing.
#[derive(Clone, Copy, Debug, PartialEq, Eq, Error)]
pub enum QueueRefusal {
    /// 801: memory was refused.
    #[error("out of memory")]
    NoMemory,
    /// 802: 1,024 commands are accepted and not popped.
    #[error("1024 commands wait already")]
    Crowded,
    /// 803: the command's index would be the greatest `u64`.
    #[error("no further index is left")]
    Spent,
}

impl QueueRefusal {
    ghost use Rattle.reply_queue.specs.Refusal.{number_of};

    /// 801 to 803.
    pub fn number(self) -> u16
        ensures { result ≡ number_of self }
    {
        match self {
            QueueRefusal::NoMemory => 801,
            QueueRefusal::Crowded => 802,
            QueueRefusal::Spent => 803,
        }
    }
}

impl From<AllocError> for QueueRefusal {
    ghost from_gives = { λ _ e. e ≡ NoMemory };

    fn from(_error: AllocError) -> QueueRefusal {
        QueueRefusal::NoMemory
    }
}

impl From<SplitError> for QueueRefusal {
    ghost from_gives = { λ _ e. e ≡ NoMemory };

    fn from(_error: SplitError) -> QueueRefusal {
        QueueRefusal::NoMemory
    }
}
