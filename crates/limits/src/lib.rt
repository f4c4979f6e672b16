//! The limits of the proxy, with times in milliseconds. The crates that keep them prove them in their contracts. It
//! stands on no other crate. Begin with `laws.rt`.
#![tactic(auto)]

mod hosts;
mod journals;
mod laws;
mod messages;
mod queues;
mod reads;
mod visitors;
mod workers;

pub use hosts::{MAX_HOSTS, MAX_NAME_LEN, MAX_WEIGHT};
pub use journals::{
    GIVING_UP_MS, MAX_BYTES, MAX_COMMAND_STEPS, MAX_DRAINING_MS, MAX_FAILURES, MAX_GENERATIONS,
    MAX_PASSES, MAX_REPLY_BYTES, MAX_START_MS, MAX_STEPS, STILL_MS,
};
pub use laws::limits_fit;
pub use messages::{
    MAX_BULK, MAX_CLIENT_MEMBERS, MAX_DEPTH, MAX_HOST_MEMBERS, MAX_LINE, MAX_SHOWN, MAX_TEXT,
};
pub use queues::{MAX_COMMANDS, MAX_CONNECTIONS, MAX_SOCKETS, MAX_WAITING};
pub use reads::READ_SIZE;
pub use visitors::{MAX_BODY, MAX_HEAD, MAX_VISITORS, VISIT_MS};
pub use workers::{
    CONNECTING_MS, LINGER_MS, MAX_BUFFERED, MAX_LAST, MAX_PARTS_AT_ONCE, MAX_REFUSALS, MAX_SPARED,
    MAX_UNFINISHED, MAX_UNSEEN, SIGNAL_MS, TELL_MS,
};
