//! The settings file: a JSON object with a key for each setting.
//!
//! [`Config::read`] returns the settings in a file's bytes, or its first error. It stands on `serde_json` and `ketama`.
//! Begin with `config.rt`; `table.rt` reads each key.
//!
//! ```text
//! let config = Config::read(alloc, br#"{"hosts":["127.0.0.1:7001","127.0.0.1:7002"]}"#)?;
//! let ring = config.ring(alloc)?;
//! ```
#![tactic(auto)]

pub use config::{Config, Host};
pub use error::ConfigError;
pub use line::check_line;

mod config;
mod entry;
mod error;
mod hosts;
mod keys;
mod line;
mod table;
mod weights;
