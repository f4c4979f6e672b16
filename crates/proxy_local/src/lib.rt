//! What `redproxy local` runs, over any reader and writer: one client, and three hosts in memory.
//! It stands on `proxy_engines` and `stub_server`. Begin with `local.rt`.
#![tactic(auto)]

mod announced;
mod ending;
mod laws;
mod local;
mod stubs;

pub use laws::steps_are_limited;
pub use local::local_run;
pub use proxy_exit_status::Ending;
