//! A ticket lock around a state with a journal of its turns.
//!
//! A thread's [`Pass`] enters at once if nothing holds or awaits the gate. Otherwise it tries again for some
//! milliseconds; then it waits with a ticket. Each answered turn added one step of its pass to one legal journal,
//! behind all that this pass had seen. Nothing is promised of order of arrival, fairness or progress. It stands on
//! `atomic_table` and `journal_core`. Begin with `recorded.rt`, then `turn.rt`.
#![tactic(auto)]

mod alone;
mod close;
mod enrol;
mod entry;
mod gate;
mod hold;
mod laws;
mod meet;
mod recorded;
mod refusal;
mod seated;
mod sight;
mod steps;
mod turn;
mod turns;
mod view;

pub use alone::Alone;
pub use entry::{MAX_SLEEPS, MAX_TRIES};
pub use gate::{Gate, Pass, Spare};
pub use hold::MAX_TURNS_INSIDE;
pub use laws::rule_in_plain_sentences;
pub use recorded::Recorded;
pub use refusal::{GateRefusal, TurnRefusal};
pub use seated::Seated;
pub use turns::Turns;
