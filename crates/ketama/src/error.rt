ghost use Rattle.std.specs.Prelude.{◌≡◌};
ghost use Rattle.ketama.specs.RingError.{number_of};
ghost use Rattle.ketama.specs.declared.error.RingError.TheVariants.{NoMemory};

use std::alloc::AllocError;
use thiserror::Error;

/// Why a ring or a host's name was refused.
#[derive(Clone, Copy, Debug, PartialEq, Eq, Hash, Error)]
pub enum RingError {
    /// 301: memory was refused.
    #[error("out of memory")]
    NoMemory,

    /// 302: two hosts have the same name.
    #[error("two hosts have the same name")]
    SameName,

    /// 303: there are more than [`MAX_HOSTS`](crate::MAX_HOSTS) hosts.
    #[error("there are more than 64 hosts")]
    TooManyHosts,

    /// 304: a weight is missing, too many, or not from 1 to 100.
    #[error("the weights do not fit the hosts")]
    BadWeights,

    /// 305: a host's name is empty, too long, or has a forbidden byte.
    #[error("a host's name has 1 to 255 visible ASCII characters")]
    BadName,

    /// 306: a point is of a host that doesn't exist.
    #[error("a point belongs to no host")]
    BadPoint,
}

impl From<AllocError> for RingError {
    ghost from_gives = { λ _ e. e ≡ NoMemory };

    fn from(_error: AllocError) -> RingError {
        RingError::NoMemory
    }
}

impl RingError {
    /// 301 to 306.
    pub fn number(self) -> u16
        ensures { result ≡ number_of self }
    {
        match self {
            RingError::NoMemory => 301,
            RingError::SameName => 302,
            RingError::TooManyHosts => 303,
            RingError::BadWeights => 304,
            RingError::BadName => 305,
            RingError::BadPoint => 306,
        }
    }
}
