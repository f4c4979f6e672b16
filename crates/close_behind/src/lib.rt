//! Behind which refused commands a connection is closed. It stands on `splitter` and `command_table`. Begin with
//! `CloseBehind::closes`.
#![tactic(auto)]

mod close_behind;
mod name_list;

pub use close_behind::CloseBehind;
pub use name_list::{MAX_NAME_BYTES, MAX_NAMES, NameError, NameList};
