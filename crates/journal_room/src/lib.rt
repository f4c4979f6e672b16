//! Room in the journal of a generation, shared by its workers.
//!
//! A worker's [`MeteredTurns`] count its steps and payload without a lock, and report to the [`JournalRoom`] now and
//! then. It stands on `journal_budget`. That the lock gives the room's own ledger, as the last worker left it, isn't
//! proved. Begin with `journal_room.rt`.
//!
//! ```text
//! MAX_STEPS and MAX_BYTES of a journal
//!   Ledger, behind the lock of RoomLedger: what all workers spent, have lent and brought
//!   │ lend, lend_steps                                   ▲ settle, takes_reply
//!   ▼                                                    │
//!   Account of MeteredTurns, a worker's own: what it may still spend, and what its turns brought
//!   │ takes_command: MAX_COMMAND_STEPS beside the reserve, and bytes for all replies that are owed
//!   ▼ turn: notes its step's kind and bytes
//! ```
#![tactic(auto)]

mod journal_room;
mod laws;
mod metered_turns;
mod open_connections;
mod room_ledger;
mod turn_step;

pub use journal_budget::TurnCounts;
pub use journal_room::{CommandNeeds, JournalRoom};
pub use laws::part_errors_are_short;
pub use metered_turns::{HeldTurns, MeteredTurns};
pub use open_connections::OpenConnection;
