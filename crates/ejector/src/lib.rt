//! Outlier detection: which hosts are ejected, and when they come back.
//!
//! It follows Envoy's, in this project's own profile. It stands on `rate_core`, `limits` and `list_lemmas`. Begin
//! with `ejector.rt`.
#![tactic(auto)]

mod answer;
mod counting;
mod ejector;
mod error;
mod host;
mod laws;
mod mark;
mod settings;
mod snapshot;
mod sweep;

pub use answer::{Swept, Trip};
pub use ejector::Ejector;
pub use error::EjectError;
pub use laws::{
    back_once_time_is_over, few_are_out, good_ends_streak, opening_comes_first, openings_stay,
    others_change_nothing, others_matter_by_limit_and_rates, out_until_time_is_over,
    state_decides_next, state_goes_on,
};
pub use mark::Mark;
pub use settings::{Field, Rules, Settings};
pub use snapshot::EjectState;
