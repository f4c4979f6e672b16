//! The events of a script.
//!
//! A line has the pass, the moment, `1` where an integer stands in the clear and else `0`, the event's name and its fields,
//! with blanks between. Payloads are the hexadecimal digits of a RESP2 text, or `broken`.

use anyhow::{Result, bail};
use proxy_core::{Event, Kind, Request};
use resp_core::{Limits, Reader, Value};
use std::alloc::Global;

/// An event, with its pass and its moment.
#[derive(Drop)]
pub(crate) struct Told {
    pub(crate) pass: u64,
    pub(crate) at: u64,
    pub(crate) is_sum: bool,
    pub(crate) event: Event,
}

/// The event of a line.
pub(crate) fn told_of(alloc: Global, line: &str) -> Result<Told> {
    let (pass, rest) = first_word(line);
    let (at, rest) = first_word(rest);
    let (sum, rest) = first_word(rest);
    let (name, fields) = first_word(rest);
    let (pass, at) = (number(pass)?, number(at)?);
    let event = event_of(alloc, name, fields)?;
    Ok(Told {
        pass,
        at,
        is_sum: sum == "1",
        event,
    })
}

fn event_of(alloc: Global, name: &str, fields: &str) -> Result<Event> {
    match name {
        "Opened" => Ok(Event::Opened),
        "Arrived" => arrived(alloc, fields),
        "Answered" => answered(alloc, fields),
        "Failed" => failed(fields),
        "Finished" => Ok(Event::Finished {
            conn: number(fields)?,
        }),
        "Taken" => Ok(Event::Taken {
            host: host_of(fields)?,
        }),
        "Swept" => Ok(Event::Swept { t: number(fields)? }),
        "Handed" => Ok(Event::Handed {
            conn: number(fields)?,
        }),
        "Closed" => Ok(Event::Closed {
            conn: number(fields)?,
        }),
        _ => bail!("an unknown event"),
    }
}

fn arrived(alloc: Global, fields: &str) -> Result<Event> {
    let (conn, text) = first_word(fields);
    let conn = number(conn)?;
    let request = match text {
        "broken" => Request::Broken,
        _ => Request::Read(value_of(alloc, Limits::CLIENT, text)?),
    };
    Ok(Event::Arrived { conn, request })
}

fn answered(alloc: Global, fields: &str) -> Result<Event> {
    let (host, rest) = first_word(fields);
    let (epoch, rest) = first_word(rest);
    let (t, text) = first_word(rest);
    let (host, epoch, t) = (host_of(host)?, number(epoch)?, number(t)?);
    let value = value_of(alloc, Limits::HOST, text)?;
    Ok(Event::Answered {
        host,
        epoch,
        value,
        t,
    })
}

fn failed(fields: &str) -> Result<Event> {
    let (host, rest) = first_word(fields);
    let (epoch, rest) = first_word(rest);
    let (kind, t) = first_word(rest);
    let (host, epoch, t) = (host_of(host)?, number(epoch)?, number(t)?);
    let kind = match kind {
        "Refused" => Kind::Refused,
        "Dropped" => Kind::Dropped,
        "Late" => Kind::Late,
        _ => Kind::Garbled,
    };
    Ok(Event::Failed {
        host,
        epoch,
        kind,
        t,
    })
}

/// The first value of a RESP2 text, of which these are the digits.
pub(crate) fn value_of(alloc: Global, limits: Limits, digits: &str) -> Result<Value> {
    let bytes = hex::decode(alloc, digits)?;
    let mut reader = Reader::new(alloc, limits);
    let value = match reader.feed(bytes.as_slice()) {
        Ok(()) => reader.next_value(),
        Err(refusal) => Err(refusal),
    };
    drop(reader);
    match value? {
        Some(value) => Ok(value),
        None => bail!("the value is cut off"),
    }
}

/// The bytes before the first blank, and those behind it.
pub(crate) fn first_word(text: &str) -> (&str, &str) {
    match text.split_once(' ') {
        Some(parts) => parts,
        None => (text, ""),
    }
}

pub(crate) fn number(word: &str) -> Result<u64> {
    Ok(word.parse::<u64>()?)
}

fn host_of(word: &str) -> Result<usize> {
    Ok(word.parse::<usize>()?)
}
