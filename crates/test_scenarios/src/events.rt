use anyhow::Result;
use proxy_core::{Event, Kind};
use std::alloc::Global;
use test_rows::text::{first_word, number, unknown};
use test_rows::values::{request_of, value_of};

/// The event of a line: its name and its fields in their order. An answer's moment stands before its value, a fault's
/// behind its kind.
pub(crate) fn event_of(alloc: Global, line: &str) -> Result<Event> {
    let (name, fields) = first_word(line);
    match name {
        "Opened" => Ok(Event::Opened),
        "Arrived" => arrived(alloc, fields),
        "Answered" => answered(alloc, fields),
        "Failed" => failed(fields),
        "Taken" => taken(fields),
        _ => event_of_number(name, number(fields)?),
    }
}

fn arrived(alloc: Global, fields: &str) -> Result<Event> {
    let (conn, request) = first_word(fields);
    let conn = number(conn)?;
    let request = request_of(alloc, request)?;
    Ok(Event::Arrived { conn, request })
}

fn answered(alloc: Global, fields: &str) -> Result<Event> {
    let (host, rest) = first_word(fields);
    let (epoch, rest) = first_word(rest);
    let (moment, value) = first_word(rest);
    let (host, epoch, t) = (number(host)?, number(epoch)?, number(moment)?);
    let value = value_of(alloc, value)?;
    Ok(Event::Answered {
        host,
        epoch,
        value,
        t,
    })
}

fn failed(fields: &str) -> Result<Event> {
    let (host, rest) = first_word(fields);
    let (epoch, rest) = first_word(rest);
    let (kind, moment) = first_word(rest);
    let (host, epoch, t) = (number(host)?, number(epoch)?, number(moment)?);
    let kind = kind_of(kind)?;
    Ok(Event::Failed {
        host,
        epoch,
        kind,
        t,
    })
}

fn taken(host: &str) -> Result<Event> {
    let host = number(host)?;
    Ok(Event::Taken { host })
}

fn event_of_number(name: &str, field: u64) -> Result<Event> {
    match name {
        "Finished" => Ok(Event::Finished { conn: field }),
        "Handed" => Ok(Event::Handed { conn: field }),
        "Closed" => Ok(Event::Closed { conn: field }),
        "Swept" => Ok(Event::Swept { t: field }),
        _ => unknown("event", name),
    }
}

fn kind_of(name: &str) -> Result<Kind> {
    match name {
        "Refused" => Ok(Kind::Refused),
        "Dropped" => Ok(Kind::Dropped),
        "Late" => Ok(Kind::Late),
        "Garbled" => Ok(Kind::Garbled),
        _ => unknown("fault", name),
    }
}
