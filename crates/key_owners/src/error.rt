ghost use Rattle.std.specs.Prelude.{◌≡◌};
ghost use Rattle.key_owners.specs.declared.error.KeyFault.TheVariants.{NoMemory};
ghost use Rattle.key_owners.specs.declared.error.TellError.TheVariants.{Key};

use std::alloc::{AllocError, AllocFailed};
use thiserror::Error;

/// Why the lines of keys end early.
#[derive(Clone, Copy, Debug, PartialEq, Eq, Drop, Error)]
pub enum KeyFault {
    /// Memory was refused.
    #[error("out of memory")]
    NoMemory,

    /// A key of more than `MAX_BULK` bytes.
    #[error("line {line}: the key has more than 1048576 bytes")]
    TooLong {
        /// From 1 on.
        line: u64,
    },

    /// A line that isn't pairs of hexadecimal digits.
    #[error("line {line}: no pairs of hexadecimal digits")]
    NotHex {
        /// From 1 on.
        line: u64,
    },
}

impl From<AllocError> for KeyFault {
    ghost from_gives = { λ _ e. e ≡ NoMemory };

    fn from(_error: AllocError) -> KeyFault {
        KeyFault::NoMemory
    }
}

impl<T: Drop> From<AllocFailed<T>> for KeyFault {
    ghost from_gives = { λ _ e. e ≡ NoMemory };

    fn from(_error: AllocFailed<T>) -> KeyFault {
        KeyFault::NoMemory
    }
}

/// Why a telling of owners ended early.
#[derive(Clone, Copy, Debug, PartialEq, Eq, Drop, Error)]
pub enum TellError {
    /// A line has no key, or memory was refused.
    #[error("{0}")]
    Key(KeyFault),

    /// The reader or the writer failed.
    #[error("a stream failed")]
    Device,
}

impl From<KeyFault> for TellError {
    ghost from_gives = { λ f e. e ≡ Key f };

    fn from(fault: KeyFault) -> TellError {
        TellError::Key(fault)
    }
}

impl From<AllocError> for TellError {
    ghost from_gives = { λ _ e. e ≡ Key NoMemory };

    fn from(_error: AllocError) -> TellError {
        TellError::Key(KeyFault::NoMemory)
    }
}
