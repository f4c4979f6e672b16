//! An event, as a line has it.
ghost use Rattle.std.specs.Prelude.{◌≡◌, ◌++◌, OnOk, codes};
ghost use Rattle.proxy_record.specs.Events.{answered_text, cut_text, event_text, failed_text, numbered};

use crate::names::kind_name;
use crate::payloads::Payloads;
use crate::pieces::{push_all, push_piece};
use crate::request_text::push_request;
use crate::step_line::Beside;
use crate::value_text::push_value;
use itoa::Buffer;
use proxy_history::{Event, Kind};
use std::alloc::{AllocError, Global};

/// Appends the event's name in quotes, and its fields.
pub(crate) fn push_event(
    alloc: Global,
    event: &Event,
    payloads: &Payloads,
    beside: Beside,
    line: &mut Vec<u8>,
) -> Result<(), AllocError>
    ensures { OnOk result (line.new.items
        ≡ line.old.items ++ event_text payloads.now beside.is_sum beside.is_cut event.now) }
{
    match event {
        Event::Opened => push_piece(line, "\"Opened\", \"socket\": null"),
        Event::Arrived { conn, request } => {
            push_numbered(line, "\"Arrived\", \"conn\": ", *conn, ", ")?;
            push_request(alloc, request, payloads, line)
        }
        Event::Finished { conn } => push_numbered(line, "\"Finished\", \"conn\": ", *conn, ""),
        Event::Taken { host } => push_numbered(line, "\"Taken\", \"host\": ", *host as u64, ""),
        Event::Answered {
            host,
            epoch,
            value,
            t,
        } => {
            push_answered(line, *host, *epoch, *t)?;
            push_value(value, payloads, beside.is_sum, line)
        }
        Event::Failed {
            host,
            epoch,
            kind,
            t,
        } => push_failed(line, *host, *epoch, *kind, *t),
        Event::Swept { t } => push_numbered(line, "\"Swept\", \"t\": ", *t, ""),
        Event::Handed { conn } => push_numbered(line, "\"Handed\", \"conn\": ", *conn, ""),
        Event::Closed { conn } => push_closed(line, *conn, beside.is_cut),
    }
}

fn push_numbered<'a>(
    line: &mut Vec<u8>,
    before: &'a str,
    number: u64,
    behind: &'a str,
) -> Result<(), AllocError>
    ensures { OnOk result (line.new.items
        ≡ line.old.items ++ numbered before.now number behind.now) }
{
    push_all(line, &[before, Buffer::new().format(number), behind])
}

fn push_closed(line: &mut Vec<u8>, conn: u64, is_cut: bool) -> Result<(), AllocError>
    ensures { OnOk result (line.new.items
        ≡ line.old.items ++ numbered (codes "\"Closed\", \"conn\": ") conn (cut_text is_cut)) }
{
    push_numbered(
        line,
        "\"Closed\", \"conn\": ",
        conn,
        if is_cut { ", \"cut\": true" } else { "" },
    )
}

fn push_answered(line: &mut Vec<u8>, host: usize, epoch: u64, t: u64) -> Result<(), AllocError>
    ensures { OnOk result (line.new.items ≡ line.old.items ++ answered_text host epoch t) }
{
    let (mut hosts, mut epochs, mut moments) = (Buffer::new(), Buffer::new(), Buffer::new());
    push_all(
        line,
        &[
            "\"Answered\", \"host\": ",
            hosts.format(host),
            ", \"epoch\": ",
            epochs.format(epoch),
            ", \"t\": ",
            moments.format(t),
            ", \"value\": ",
        ],
    )
}

fn push_failed(
    line: &mut Vec<u8>,
    host: usize,
    epoch: u64,
    kind: Kind,
    t: u64,
) -> Result<(), AllocError>
    ensures { OnOk result (line.new.items ≡ line.old.items ++ failed_text host epoch kind t) }
{
    let (mut hosts, mut epochs, mut moments) = (Buffer::new(), Buffer::new(), Buffer::new());
    push_all(
        line,
        &[
            "\"Failed\", \"host\": ",
            hosts.format(host),
            ", \"epoch\": ",
            epochs.format(epoch),
            ", \"kind\": \"",
            kind_name(kind),
            "\", \"t\": ",
            moments.format(t),
        ],
    )
}
