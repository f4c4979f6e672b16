ghost use Rattle.std.specs.Prelude.{◌≡◌};
ghost use Rattle.ejector.specs.EjectError.{number_of};
ghost use Rattle.ejector.specs.declared.error.EjectError.TheVariants.{NoMemory};

use crate::settings::Field;
use std::alloc::AllocError;
use thiserror::Error;

/// Why an ejector refused a call.
#[derive(Clone, Copy, Debug, PartialEq, Eq, Error)]
pub enum EjectError {
    /// 501: memory was refused.
    #[error("out of memory")]
    NoMemory,
    /// 502: this field is the first out of its range.
    #[error("the setting {field} is out of its range")]
    BadSettings { field: Field },
}

impl EjectError {
    /// 501 or 502.
    pub fn number(&self) -> u16
        ensures { result ≡ number_of self.now }
    {
        match self {
            EjectError::NoMemory => 501,
            EjectError::BadSettings { .. } => 502,
        }
    }
}

impl From<AllocError> for EjectError {
    ghost from_gives = { λ _ e. e ≡ NoMemory };

    fn from(_error: AllocError) -> EjectError {
        EjectError::NoMemory
    }
}
