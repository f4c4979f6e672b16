ghost use Rattle.std.specs.Prelude.{◌≡◌};
ghost use Rattle.proxy_exit_status.specs.declared.ending.Ending.TheVariants.{Memory};

use std::alloc::{AllocError, AllocFailed};
use thiserror::Error;

/// Why the program ended early.
#[derive(Clone, Copy, Debug, PartialEq, Eq, Drop, Error)]
pub enum Ending {
    /// Status 4: the journal is full.
    #[error("journal full")]
    JournalFull,
    /// Status 5: a stream or a socket failed.
    #[error("socket")]
    Socket,
    /// Status 6: memory was refused.
    #[error("memory")]
    Memory,
    /// Status 7: the gate's tickets are spent.
    #[error("gate spent")]
    Spent,
}

impl Ending {
    ghost use Rattle.proxy_exit_status.specs.Ending.{status_of};

    /// The exit status, 4 to 7.
    pub fn status(self) -> u8
        ensures { result ≡ status_of self }
    {
        match self {
            Ending::JournalFull => 4,
            Ending::Socket => 5,
            Ending::Memory => 6,
            Ending::Spent => 7,
        }
    }
}

impl From<AllocError> for Ending {
    ghost from_gives = { λ _ e. e ≡ Memory };

    fn from(_error: AllocError) -> Ending {
        Ending::Memory
    }
}

impl<T: Drop> From<AllocFailed<T>> for Ending {
    ghost from_gives = { λ _ e. e ≡ Memory };

    fn from(_error: AllocFailed<T>) -> Ending {
        Ending::Memory
    }
}
