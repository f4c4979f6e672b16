//! Which host owns a key. It stands on `proxy_config` and `ketama`. Begin with `owners.rt`.
#![tactic(auto)]

pub use error::{KeyFault, TellError};
pub use lines::KeyLines;
pub use owners::KeyOwners;
pub use tell::tell_owners;

mod error;
pub mod laws;
mod lines;
mod owners;
mod tell;
