//! The program's exit statuses. It stands on `thiserror`; begin with `ending.rt`.
#![tactic(auto)]

mod ending;

pub use ending::Ending;
