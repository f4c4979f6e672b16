//! Random events.

use anyhow::Result;
use proxy_core::{Event, Kind, Request, Settings};
use resp_core::Value;
use std::alloc::Global;
use test_rows::numbers::Numbers;
use test_rows::values::{as_read, command, value_of};

const COMMANDS: [&str; 10] = [
    "GET a",
    "GET abc",
    "SET a 1",
    "MGET a abc \"\"",
    "DEL a a abc",
    "MSET a 1 abc 2",
    "PING",
    "ECHO hey",
    "nonsense x",
    "QUIT",
];

// The last reply can't be written.
const REPLIES: [&str; 6] = [
    "$-1\\r\\n",
    ":3\\r\\n",
    "-ERR no\\r\\n",
    "+OK\\r\\n",
    "$3\\r\\nhey\\r\\n",
    "simple a\\rb",
];

fn kind(numbers: &mut Numbers) -> Kind {
    match numbers.below(4) {
        0 => Kind::Refused,
        1 => Kind::Dropped,
        2 => Kind::Late,
        _ => Kind::Garbled,
    }
}

fn value(numbers: &mut Numbers, alloc: Global) -> Result<Value> {
    value_of(alloc, numbers.one_of(&REPLIES))
}

fn request(numbers: &mut Numbers, alloc: Global) -> Result<Request> {
    if numbers.chance(40) {
        return Ok(Request::Broken);
    }
    let command = command(alloc, numbers.one_of(&COMMANDS))?;
    // (the state's last bit, so that no number is drawn for it)
    if numbers.0 % 2 == 0 {
        Ok(Request::Read(command))
    } else {
        as_read(alloc, command)
    }
}

// Now and then this is the next epoch.
fn epoch(numbers: &mut Numbers, epochs: [u64; 3], host: usize) -> u64 {
    let now = epochs.get(host).copied().unwrap_or(0);
    if numbers.chance(8) {
        now.saturating_add(1)
    } else {
        now
    }
}

// Now and then this is an unknown host.
fn host(numbers: &mut Numbers) -> usize {
    if numbers.chance(30) {
        3
    } else {
        numbers.below(3) as usize
    }
}

/// An event of a few connections and three hosts with these epochs.
pub(crate) fn event(
    numbers: &mut Numbers,
    alloc: Global,
    epochs: [u64; 3],
    t: u64,
) -> Result<Event> {
    let conn = numbers.below(4);
    let host = host(numbers);
    Ok(match numbers.below(24) {
        0 | 1 => Event::Opened,
        2..=7 => Event::Arrived {
            conn,
            request: request(numbers, alloc)?,
        },
        8..=12 => Event::Taken { host },
        13..=16 => Event::Answered {
            host,
            epoch: epoch(numbers, epochs, host),
            value: value(numbers, alloc)?,
            t,
        },
        17 => Event::Failed {
            host,
            epoch: epoch(numbers, epochs, host),
            kind: kind(numbers),
            t,
        },
        18 => Event::Swept { t },
        19..=22 => Event::Handed { conn },
        _ if numbers.chance(3) => Event::Finished { conn },
        _ => Event::Closed { conn },
    })
}

/// Settings that eject hosts early and let them return soon; three hosts panic when two are
/// out.
pub(crate) fn settings(numbers: &mut Numbers) -> Settings {
    Settings {
        tags: numbers.chance(2),
        base_ms: 5,
        max_ms: 20,
        max_percent: if numbers.chance(2) { 100 } else { 40 },
        consecutive: 2,
        success_hosts: 2,
        request_volume: 1,
        factor: 500,
        panic_percent: if numbers.chance(2) { 50 } else { 0 },
        ..Settings::default()
    }
}
