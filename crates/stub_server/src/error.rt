ghost use Rattle.std.specs.Prelude.{◌≡◌};
ghost use Rattle.stub_server.specs.declared.error.StubError.TheVariants.{NoMemory};

use std::alloc::{AllocError, AllocFailed};
use thiserror::Error;

/// Why a call of a stub is refused. A refused call changes nothing and may be made again.
#[derive(Clone, Copy, Debug, PartialEq, Eq, Drop, Error)]
pub enum StubError {
    /// 1501: memory was refused.
    #[error("out of memory")]
    NoMemory,
}

impl StubError {
    ghost use Rattle.stub_server.specs.Refusal.{number_of};

    /// Its number, 1501.
    pub fn number(self) -> u16
        ensures { result ≡ number_of self }
    {
        match self {
            StubError::NoMemory => 1501,
        }
    }
}

impl From<AllocError> for StubError {
    ghost from_gives = { λ _ e. e ≡ NoMemory };

    fn from(_error: AllocError) -> StubError {
        StubError::NoMemory
    }
}

impl<T: Drop> From<AllocFailed<T>> for StubError {
    ghost from_gives = { λ _ e. e ≡ NoMemory };

    fn from(_error: AllocFailed<T>) -> StubError {
        StubError::NoMemory
    }
}
