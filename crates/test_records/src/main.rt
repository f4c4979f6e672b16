//! Plays a script of events on a core, and prints its journal as the lines of a record: what `tests/record` reads.
//!
//! The first line of the script has the settings and the hosts: `setting.rt` says how. Each line behind it is an event:
//! `script.rt` says how. Events that are refused make no step. The record's first line isn't printed. It stands on
//! `proxy_core` and `proxy_record`. Begin with `script.rt`.
#![tactic(auto)]

mod play;
mod script;
mod setting;
#[cfg(test)]
mod tests;

use anyhow::Result;
use std::io;

fn main(rt: HostRuntime) -> Result<()> {
    let text = io::read_to_string(rt.alloc(), rt.reader())?;
    let record = play::record_of(rt.alloc(), text.as_str())?;
    print!(rt; "{record}")?;
    Ok(())
}
