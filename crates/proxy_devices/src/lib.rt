//! Readers and writers that count failures and pauses, with a log of their bytes for contracts. It stands on no other
//! crate. Begin with `tally.rt`.
#![tactic(auto)]

mod byte_log;
mod counter;
mod faulty;
mod tally;

pub use byte_log::ByteLog;
pub use counter::Counter;
pub use faulty::Faulty;
pub use tally::{IoOutcome, ReadTally, Tallied, Tally, WriteTally};
