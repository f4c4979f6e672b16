//! How much room the journal of a generation has, in steps and in bytes.
//!
//! Each worker has an [`Account`], and reports to the journal's [`Ledger`] now and then. Which steps were made is the
//! caller's to say. It stands on `limits`. Begin with `account.rt`.
#![tactic(auto)]

mod account;
mod budget;
mod laws;
mod ledger;
mod payload;
mod payload_counts;
mod reply_sizes;
mod reported;
mod step_kind;
mod turn_counts;

pub use account::Account;
pub use laws::{charged_replies_fit, errors_fit, owed_steps_fit, reply_sizes_follow};
pub use ledger::Ledger;
pub use payload::MAX_PART_ERROR;
pub use payload_counts::PayloadCounts;
pub use reply_sizes::{HandedReplies, LARGE_REPLY, MAX_EXPECTED, ReplySizes};
pub use step_kind::StepKind;
pub use turn_counts::TurnCounts;
