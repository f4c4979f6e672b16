ghost use Rattle.std.specs.Prelude.{◌≡◌};
ghost use Rattle.journal_core.specs.declared.error.JournalError.TheVariants.{NoMemory};

use std::alloc::AllocError;
use thiserror::Error;

/// Why a journal has no room for a further step. The journal is unchanged.
#[derive(Clone, Copy, Debug, PartialEq, Eq, Error)]
pub enum JournalError {
    /// 901: memory was refused.
    #[error("out of memory")]
    NoMemory,
    /// 902: there are 262,144 steps, or the step would raise the payload above 67,108,864 bytes.
    #[error("the journal is full")]
    JournalFull,
}

impl JournalError {
    ghost use Rattle.journal_core.specs.Error.{number_of};

    /// 901 or 902.
    pub fn number(self) -> u16
        ensures { result ≡ number_of self }
    {
        match self {
            JournalError::NoMemory => 901,
            JournalError::JournalFull => 902,
        }
    }
}

impl From<AllocError> for JournalError {
    ghost from_gives = { λ _ e. e ≡ NoMemory };

    fn from(_error: AllocError) -> JournalError {
        JournalError::NoMemory
    }
}
