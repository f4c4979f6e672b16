ghost use Rattle.std.specs.Prelude.{◌≡◌};
ghost use Rattle.splitter.specs.declared.error.SplitError.TheVariants.{NoMemory};

use resp_core::RespError;
use std::alloc::{AllocError, AllocFailed};
use thiserror::Error;

/// Why a call is refused. It may be made again.
#[derive(Clone, Copy, Debug, PartialEq, Eq, Drop, Error)]
pub enum SplitError {
    /// 701: memory was refused.
    #[error("out of memory")]
    NoMemory,
}

impl SplitError {
    ghost use Rattle.splitter.specs.Refusal.{number_of};

    /// 701.
    pub fn number(self) -> u16
        ensures { result ≡ number_of self }
    {
        match self {
            SplitError::NoMemory => 701,
        }
    }
}

impl From<AllocError> for SplitError {
    ghost from_gives = { λ _ e. e ≡ NoMemory };

    fn from(_error: AllocError) -> SplitError {
        SplitError::NoMemory
    }
}

impl<T: Drop> From<AllocFailed<T>> for SplitError {
    ghost from_gives = { λ _ e. e ≡ NoMemory };

    fn from(_error: AllocFailed<T>) -> SplitError {
        SplitError::NoMemory
    }
}

// These calls refuse only for want of memory.
impl From<RespError> for SplitError {
    ghost from_gives = { λ _ e. e ≡ NoMemory };

    fn from(_error: RespError) -> SplitError {
        SplitError::NoMemory
    }
}
