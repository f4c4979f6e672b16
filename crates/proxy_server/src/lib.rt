//! What all generations of `serve` share: here locks and wakers bring to the threads what `proxy_generations` and
//! `proxy_serve_core` decide. Numbers, the board's words and stops have contracts; the rest is proved safe. It stands
//! on these two, and on `proxy_admin`, `proxy_pages` and `proxy_stats`. Begin with `server.rt`.
#![tactic(auto)]

mod board;
mod host_outs;
mod line;
mod living;
mod log;
mod look_sum;
mod moment;
mod newest;
mod operating;
mod process;
mod seen;
mod server;
mod stats;
mod stop;
mod task_words;
mod words;

pub use line::{Inherited, Line};
pub use log::{Level, Log};
pub use moment::{Moment, now};
pub use process::Extent;
pub use server::Server;
pub use stop::{Failure, Stop};
