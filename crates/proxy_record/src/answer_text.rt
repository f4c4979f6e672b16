//! An answer, as a line has it.
ghost use Rattle.std.specs.Prelude.{◌≡◌, ◌++◌, OnOk, IfOk};
ghost use Rattle.proxy_record.specs.Answers.{accepted_text, answer_text, handed_text, place_text, raw_text, sent_text, swept_text, trip_text, IsReadBackIn};
ghost use Rattle.proxy_record.specs.ReadBack.{found_in};

use crate::names::{local_name, trip_name};
use crate::payloads::Payloads;
use crate::pieces::{push_all, push_piece};
use crate::read_back::read_back;
use crate::value_text::{push_value, push_words};
use bytes::Bytes;
use itoa::Buffer;
use proxy_history::{Answer, Local, Trip};
use resp_core::Value;
use std::alloc::{AllocError, Global};

/// The value that an answer's text spells, if it has one.
pub(crate) fn value_in(alloc: Global, answer: &Answer) -> Result<Option<Value>, AllocError>
    ensures { IfOk result (λ found. IsReadBackIn answer.now (found_in found)) }
{
    match answer {
        Answer::Sent { text, .. } | Answer::Bytes { text } => read_back(alloc, text),
        _ => Ok(None),
    }
}

/// Appends an answer's fields. `found` is the value that its text spells.
pub(crate) fn push_answer(
    answer: &Answer,
    found: &Option<Value>,
    payloads: &Payloads,
    is_sum: bool,
    line: &mut Vec<u8>,
) -> Result<(), AllocError>
    ensures { OnOk result (line.new.items
        ≡ line.old.items ++ answer_text payloads.now is_sum answer.now (found_in found.now)) }
{
    match answer {
        Answer::Opened { conn } => push_all(line, &["\"conn\": ", Buffer::new().format(*conn)]),
        Answer::Accepted {
            index,
            local,
            parts,
            no_host,
            busy,
        } => push_accepted(line, *index, *local, (*parts, *no_host, *busy)),
        Answer::Finishing | Answer::Closed => Ok(()),
        Answer::Sent { epoch, place, text } => {
            push_place(line, *epoch, *place)?;
            push_sent(text, found, payloads, line)
        }
        Answer::Matched { trip } => push_trip(line, *trip),
        Answer::Lost { parts, trip } => {
            push_all(line, &["\"parts\": ", Buffer::new().format(*parts), ", "])?;
            push_trip(line, *trip)
        }
        Answer::Swept {
            returned,
            ejected,
            kept,
        } => push_swept(line, *returned, *ejected, *kept),
        Answer::Bytes { text } => push_handed(text, found, payloads, is_sum, line),
    }
}

fn push_accepted(
    line: &mut Vec<u8>,
    index: u64,
    local: Option<Local>,
    counts: (u64, u64, u64),
) -> Result<(), AllocError>
    ensures { OnOk result (line.new.items
        ≡ line.old.items ++ accepted_text index local counts.0 counts.1 counts.2) }
{
    let (parts, no_host, busy) = counts;
    let (mut indices, mut planned) = (Buffer::new(), Buffer::new());
    let (mut hostless, mut many) = (Buffer::new(), Buffer::new());
    push_all(
        line,
        &[
            "\"index\": ",
            indices.format(index),
            ", \"local\": ",
            local_name(local),
            ", \"parts\": ",
            planned.format(parts),
            ", \"no_host\": ",
            hostless.format(no_host),
            ", \"busy\": ",
            many.format(busy),
        ],
    )
}

fn push_place(line: &mut Vec<u8>, epoch: u64, place: u64) -> Result<(), AllocError>
    ensures { OnOk result (line.new.items ≡ line.old.items ++ place_text epoch place) }
{
    let (mut epochs, mut places) = (Buffer::new(), Buffer::new());
    push_all(
        line,
        &[
            "\"epoch\": ",
            epochs.format(epoch),
            ", \"place\": ",
            places.format(place),
            ", ",
        ],
    )
}

fn push_trip(line: &mut Vec<u8>, trip: Trip) -> Result<(), AllocError>
    ensures { OnOk result (line.new.items ≡ line.old.items ++ trip_text trip) }
{
    push_all(line, &["\"trip\": \"", trip_name(trip), "\""])
}

fn push_swept(line: &mut Vec<u8>, returned: u32, ejected: u32, kept: u32) -> Result<(), AllocError>
    ensures { OnOk result (line.new.items ≡ line.old.items ++ swept_text returned ejected kept) }
{
    let (mut back, mut out, mut stayed) = (Buffer::new(), Buffer::new(), Buffer::new());
    push_all(
        line,
        &[
            "\"returned\": ",
            back.format(returned),
            ", \"ejected\": ",
            out.format(ejected),
            ", \"kept\": ",
            stayed.format(kept),
        ],
    )
}

// A part's text: the words of the command that it spells, or raw.
fn push_sent(
    text: &Bytes,
    found: &Option<Value>,
    payloads: &Payloads,
    line: &mut Vec<u8>,
) -> Result<(), AllocError>
    ensures { OnOk result (line.new.items
        ≡ line.old.items ++ sent_text payloads.now text.now (found_in found.now)) }
{
    match found {
        Some(value) => match value.words() {
            Some(words) => push_words(words, payloads, line),
            None => push_raw(text, payloads, line),
        },
        None => push_raw(text, payloads, line),
    }
}

// A reply's text: the value that it spells, or raw.
fn push_handed(
    text: &Bytes,
    found: &Option<Value>,
    payloads: &Payloads,
    is_sum: bool,
    line: &mut Vec<u8>,
) -> Result<(), AllocError>
    ensures { OnOk result (line.new.items
        ≡ line.old.items ++ handed_text payloads.now is_sum text.now (found_in found.now)) }
{
    match found {
        Some(value) => {
            push_piece(line, "\"value\": ")?;
            push_value(value, payloads, is_sum, line)
        }
        None => push_raw(text, payloads, line),
    }
}

fn push_raw(text: &Bytes, payloads: &Payloads, line: &mut Vec<u8>) -> Result<(), AllocError>
    ensures { OnOk result (line.new.items
        ≡ line.old.items ++ raw_text payloads.now text.now) }
{
    push_piece(line, "\"raw\": \"")?;
    payloads.push_leaf(text.as_slice(), line)?;
    push_piece(line, "\"")
}
