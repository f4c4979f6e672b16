//! What `redproxy serve` decides without a system call. It stands on `limits`. Begin with `ready_clients.rt`: which
//! clients a round looks at.
#![tactic(auto)]

mod arrivals;
mod drain_plan;
mod ejection_log;
mod fault_log;
mod idleness;
mod key_range;
mod key_set;
mod ready_clients;
mod refusals;
mod refused_sockets;
mod round_robin;
mod signals;
mod stalled_bids;

pub use arrivals::{Arrivals, WAITED_US};
pub use drain_plan::{DrainOrder, DrainPlan};
pub use ejection_log::{EjectedHost, EjectionLog, EjectionReason};
pub use fault_log::{CauseFaults, FaultCause, FaultLog, HostFaults, LinkLoss};
pub use idleness::{ClientSight, Idleness};
pub use key_range::KeyRange;
pub use ready_clients::ReadyClients;
pub use refusals::Refusals;
pub use refused_sockets::{RefusedSockets, SocketRefusal};
pub use round_robin::RoundRobin;
pub use signals::{Asked, TermEffect, asked_by_signals, effect_of_term};
pub use stalled_bids::{BID_STANDS_MS, BID_WAITS_MS, StalledBid, StalledBids};
