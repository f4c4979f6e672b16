//! The lines of a record, a file that has a generation's journal for the auditor.
//!
//! `tools/audit/RECORD.md` defines the format. A line is appended to bytes: each step's, that of a socket that goes over,
//! and the last one. No file, clock or thread: whoever keeps a journal asks for its lines one by one. It stands on
//! `proxy_history`. Begin with `payloads.rt`, then `step_line.rt`.
#![tactic(auto)]

mod answer_text;
mod carried_line;
mod end_line;
mod event_text;
mod hashing;
mod names;
mod payloads;
mod pieces;
mod read_back;
mod request_text;
mod step_line;
mod value_text;

pub use carried_line::{Carried, Successor, put_carried};
pub use end_line::put_end;
pub use payloads::Payloads;
pub use read_back::MAX_NESTED;
pub use step_line::{Beside, put_step};
