//! A list of steps that only grows, the oldest first.
//!
//! A journal limits its steps and their bytes of payload. Room for a step is made before anything else is done,
//! since only that can be refused. It stands on `limits`. Begin with `journal.rt`.
#![tactic(auto)]

mod blocks;
mod error;
mod journal;
mod kept;
mod laws;
mod list;
mod step;

pub use error::JournalError;
pub use journal::Journal;
pub use laws::steps_and_bytes_are_limited;
pub use step::Step;
