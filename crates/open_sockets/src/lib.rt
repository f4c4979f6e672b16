//! The open sockets of clients, each counted from `admit` until it is dropped. The last one of a drain ends the server.
//!
//! It stands on `byte_sum`, `fresh_stream` and `mio`. Begin with `open_sockets.rt`.
#![tactic(auto)]

mod line_sockets;
mod open_sockets;
mod sockets;
mod traffic;

pub use line_sockets::LineSockets;
pub use open_sockets::{
    AdmittedStream, MAX_LINES, MAX_WAITING_BYTES, NotAdmitted, OpenSocket, OpenSockets,
};
pub use traffic::{Traffic, WorkerTraffic};
