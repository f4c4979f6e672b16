//! A histogram with fixed bounds, as Prometheus reads it, and the durations of commands and of hosts' replies. It
//! stands on `limits`; begin with `histogram.rt`.
#![tactic(auto)]

mod flights;
mod histogram;
mod host_durations;
mod unanswered;

pub use flights::Flights;
pub use histogram::{BOUNDS, BOUNDS_US, Histogram};
pub use host_durations::HostDurations;
pub use unanswered::Unanswered;
