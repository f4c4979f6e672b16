//! Sweeps, one at a time. It stands on `proxy_core`. Begin with `sweep.rt`.
#![tactic(auto)]

mod pace;
mod sweep;

pub use ejector::Swept;
pub use pace::Pace;
pub use sweep::{SweepRefusal, sweep_once};
