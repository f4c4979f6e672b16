//! The commands of one connection that wait for their replies, in their order.
//!
//! A queue keeps each command until it and all before it have all their parts' values. It stands on `splitter`.
//! Begin with `queue.rt`.
#![tactic(auto)]

mod command;
mod joined;
mod laws;
mod queue;
mod refusal;

pub use laws::{commands_are_limited, indices_stay, one_part_changes};
pub use queue::Queue;
pub use refusal::QueueRefusal;
