//! Measures the gate and the reader, each on its own; `bench/compare` measures the program. It stands on both. Begin
//! with `gate.rt`.
//!
//! `benches gate time` prints the turns a second of 1, 2, 4 and 8 threads, at a ticket gate and under std's `Mutex`,
//! also beside busy loops.
//!
//! `benches reader time` prints the bytes a second of the reader, and of a plain copy.
//!
//! Without words it prints its usage and the lengths of a few journals.
#![tactic(auto)]

mod gate;
mod laden;
mod reader;

use anyhow::Result;
use std::env;

const HELP: &str = "benches gate time: prints turns a second at a gate, and under a mutex
benches reader time: prints bytes a second of a reader, and of a plain copy";

#[derive(Clone, Copy)]
enum Asked {
    Gate,
    Reader,
    Help,
}

impl Asked {
    fn of(part: Option<String>, figure: Option<String>) -> Asked {
        let part = part.as_ref().map_or("", |word| word.as_str());
        let figure = figure.as_ref().map_or("", |word| word.as_str());
        match (part, figure) {
            ("gate", "time") => Asked::Gate,
            ("reader", "time") => Asked::Reader,
            _ => Asked::Help,
        }
    }
}

fn main(rt: HostRuntime) -> Result<()> {
    let alloc = rt.alloc();
    let part = env::args(&rt)?.nth(1);
    match Asked::of(part, env::args(&rt)?.nth(2)) {
        Asked::Gate => gate::print_speeds(&rt, alloc),
        Asked::Reader => reader::print(&rt, alloc),
        Asked::Help => {
            println!(rt; "{HELP}")?;
            gate::print_few(&rt, alloc)
        }
    }
}
