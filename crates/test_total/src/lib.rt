//! A small state for a gate: a running total, for tests and benchmarks.
//!
//! Its wrong bodies are those that a gate over an unknown state can't have. It stands on `ticket_gate` and
//! `journal_core`. Begin with `running_total.rt`.
#![tactic(auto)]

mod running_total;

pub use running_total::{AdditionRefusal, RunningTotal};
