//! Success rates of hosts, and which are outliers.
//!
//! It follows Envoy's success-rate monitor, in this project's own profile. It stands on `limits`. Begin with
//! `outlier.rt`.
#![tactic(auto)]

mod laws;
mod outlier;
mod share;

pub use laws::{far_below_is_by_deviation, hosts_are_limited, spread_is_variance};
pub use outlier::is_outlier;
pub use share::rate;
