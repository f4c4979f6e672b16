//! A Redis host in memory, for tests and for `redproxy local`.
//!
//! A `Stub` answers requests by a small table of commands over a map, which is empty at first. The commands have
//! their Redis meanings; their choice and the texts of errors are this project's own. It stands on `resp_core`. Begin
//! with `stub.rt`, then `link.rt`.
#![tactic(auto)]

mod command;
mod error;
mod laws;
mod link;
mod map;
mod number;
mod reply;
mod script;
mod session;
mod stub;
mod unread;
mod words;

pub use error::StubError;
pub use laws::{
    a_number_has_one_spelling, a_removed_key_has_no_value, a_set_key_has_its_value,
    keys_stay_distinct,
};
pub use link::{StubLink, StubReader, StubWriter};
pub use script::Act;
pub use session::MAX_TAKEN;
pub use stub::{Response, Stub};
pub use unread::MAX_UNREAD;
