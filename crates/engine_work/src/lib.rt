//! Works of engines, in threads of their own, and why an engine's call is refused.
//!
//! [`run_all`] runs many [`Work`]s at the same time. A run ends with an [`EngineError`]; [`Denied`] says why a turn
//! was not made. It stands on `proxy_history`. Begin with `error.rt`, then `work.rt`.
#![tactic(auto)]

mod error;
mod threads;
mod work;

pub use error::{Denied, EngineError};
pub use threads::run_all;
pub use work::Work;
