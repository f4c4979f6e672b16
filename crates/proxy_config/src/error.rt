ghost use Rattle.std.specs.Prelude.{◌≡◌};
ghost use Rattle.proxy_config.specs.declared.error.ConfigError.TheVariants.{Memory};

use std::alloc::{AllocError, AllocFailed};
use thiserror::Error;

/// Why a settings file is refused.
#[derive(Clone, Copy, Debug, PartialEq, Eq, Error)]
pub enum ConfigError {
    /// Memory was refused.
    #[error("out of memory")]
    Memory,
    /// The bytes are no settings: `json`, `unknown key`, or the first key of the table with an
    /// error.
    #[error("settings: {0}")]
    Fault(&'static str),
}

impl From<AllocError> for ConfigError {
    ghost from_gives = { λ _ e. e ≡ Memory };

    fn from(_error: AllocError) -> ConfigError {
        ConfigError::Memory
    }
}

impl<T: Drop> From<AllocFailed<T>> for ConfigError {
    ghost from_gives = { λ _ e. e ≡ Memory };

    fn from(_error: AllocFailed<T>) -> ConfigError {
        ConfigError::Memory
    }
}
