//! What is wrong with a settings file, and where: the line from which a person mends it.
//!
//! [`explain`] tells of the fault that `Config::read` named, [`warning`] of settings that send commands in a circle. It
//! stands on `proxy_config`, `json` and `serde_json`. Begin with `fault.rt`; `scan.rt` finds the places.
#![tactic(auto)]

mod circle;
mod entries;
mod explanation;
mod fault;
mod file;
mod place;
mod scan;
mod shown;
mod token;
mod wanted;

pub use circle::warning;
pub use explanation::Explanation;
pub use fault::explain;
pub use place::Place;
