//! Examples as data: reads a script from standard input, and prints beside each line what a part of the proxy answers.
//!
//! `test_rows` says how a script is written. It stands on the parts below the core, on `proxy_config`, `stub_server`
//! and `test_rows`. Begin with `subject.rt`.
#![tactic(auto)]

mod ejection;
mod files;
mod joins;
mod journal;
mod marks;
mod messages;
mod pieces;
mod pipe;
mod plans;
mod queue;
mod rates;
mod reader;
mod ring;
mod spelling;
mod stub;
mod subject;
mod table;

use anyhow::Result;
use std::io;
use test_rows::script::play;

fn main(rt: HostRuntime) -> Result<()> {
    let text = io::read_to_string(rt.alloc(), rt.reader())?;
    play::<subject::PartSubject>(&rt, rt.alloc(), text.as_str())
}
