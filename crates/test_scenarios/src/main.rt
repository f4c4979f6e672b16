//! Examples as data: reads a script from standard input, and prints beside each line what the core and the plain program
//! answer.
//!
//! A row's subject is `core`, `plain` or `both`, and its arguments are a setting's. `test_rows` says how a script is
//! written. It stands on `proxy_core`, `proxy_stats`, `test_reference` and `test_rows`. Begin with `proxies.rt`.
#![tactic(auto)]

mod agreement;
mod answers;
mod events;
mod outcome;
mod proxies;
mod proxy;
mod questions;
mod random;
mod random_runs;
mod run;
mod setting;

use anyhow::Result;
use std::io;
use test_rows::script::play;

fn main(rt: HostRuntime) -> Result<()> {
    let text = io::read_to_string(rt.alloc(), rt.reader())?;
    play::<proxies::Proxies>(&rt, rt.alloc(), text.as_str())
}
