//! The engines: the proxy's ends of clients and hosts.
//!
//! A [`ClientEngine`] turns its input into a connection's events at a core, and writes the replies that the core
//! hands out. A [`HostEngine`] writes the core's parts to a host, and turns the link's input into replies. Both are
//! lent turns (`CoreTurns`): a pass at a gate, or a core of their own.
//!
//! It stands on `proxy_core`, `proxy_devices` and `engine_work`. Begin with `client.rt`, then `host.rt`.
#![tactic(auto)]

mod client;
mod client_work;
mod host;
mod host_outbox;
mod inbox;
mod laws;
mod link;
mod link_fault;
mod one_turn;
mod outbox;

pub use client::{ClientEnds, ClientEngine, Progress, Stage};
pub use client_work::ClientWork;
pub use close_behind::CloseBehind;
pub use engine_work::{Denied, EngineError, Work, run_all};
pub use host::HostEngine;
pub use inbox::Rest;
pub use laws::{
    accepted_are_first, clients_carry_logs, ended_is_whole, engines_keep_logs,
    engines_leave_others, hosts_carry_logs, others_leave_engines, reads_are_limited, refused_close,
    sockets_carry_logs, sockets_go_on,
};
pub use limits::READ_SIZE;
pub use link_fault::{LinkFault, PassedLimit};
pub use proxy_devices::{Faulty, IoOutcome, ReadTally, Tallied, Tally, WriteTally};
