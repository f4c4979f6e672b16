//! Serves clients on sockets, before real hosts, with many threads.
//!
//! One thread accepts sockets. It gives each to the line of generations with the fewest, whose workers take turns. It runs each
//! generation that is due in a thread of its own: when a journal is nearly full, the line's next generation opens with the
//! state of outlier detection.
//!
//! ```text
//! Acceptor           AdminListener          the threads of a generation, each with a pass of its own:
//!   │ admit, push      │ snapshot              Worker ..           SweepThread
//!   │ drain, quit      │ drain, quit             │ pop, carry        │ open, looked, near, full, drained
//!   ▼                  ▼                         ▼                   ▼
//! Server: OpenSockets, and each Line: AcceptQueue of each worker, Generations and Board, Stats, EjectionLog
//!                                                │                   │
//!               GenerationState: WorkerStatus, Notices, JournalRoom, and the gate
//! ```
//!
//! It stands on `proxy_rounds`. Begin with `serve` in `serving.rt`.
#![tactic(auto)]

mod acceptor;
mod generation_threads;
mod serving;
mod shares;
mod signals;

pub use close_behind::CloseBehind;
pub use proxy_admin::{Admin, ProcessFiles};
pub use proxy_connections::{assigned_hosts_have_one_pass, passes_share_no_host};
pub use proxy_generations::Marks;
pub use proxy_rounds::ServeRuntime;
pub use proxy_server::{Failure, Level, Log, Stop};
pub use serving::{Options, serve, serve_run};
