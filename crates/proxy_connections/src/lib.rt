//! The connections of one worker of `serve`: its clients and its hosts, each with its socket.
//!
//! Engines carry bytes to events and back; here they get sockets, readiness and the time. The clients and hosts of a
//! worker are its [`WorkerConnections`]. What a round shares with other workers comes as a [`Round`].
//!
//! It stands on `proxy_engines`, on `journal_room`, and on `proxy_history` and `journal_core`, whose steps its
//! contracts name. It names no server and no generation. Begin with `WorkerConnections::step_client` in
//! `worker_connections.rt`.
#![tactic(auto)]

mod client_connection;
mod host_connection;
mod host_fault;
mod host_link;
mod laws;
mod round;
mod socket;
mod stage;
mod stalled;
mod step_error;
mod waiting_output;
mod worker_connections;

pub use client_connection::{CarriedSocket, Stepped};
pub use host_connection::{HostStepped, HostTime};
pub use host_fault::{HostFault, LostLink, PassedLimit};
pub use laws::{assigned_hosts_have_one_pass, hosts_have_their_workers, passes_share_no_host};
pub use round::Round;
pub use stalled::Stalled;
pub use step_error::StepError;
pub use worker_connections::{ClientResult, ConnectionSetup, HOSTS, HostResult, WorkerConnections};
