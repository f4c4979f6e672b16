//! A request, as a line has it.
ghost use Rattle.std.specs.Prelude.{◌≡◌, ◌++◌, OnOk};
ghost use Rattle.resp_core.specs.Value.{tree_of};
ghost use Rattle.splitter.specs.Plan.{plan_of};
ghost use Rattle.splitter.specs.Request.{request_of};
ghost use Rattle.proxy_record.specs.Requests.{asked_by, asked_text, points_of_parts, points_text, request_text};

use crate::payloads::Payloads;
use crate::pieces::push_piece;
use crate::value_text::{push_value, push_words};
use itoa::Buffer;
use ketama::point_of_key;
use proxy_history::Request;
use resp_core::Value;
use splitter::{PartPlans, Plan, plan};
use std::alloc::{AllocError, Global};

/// Appends a request, and where payloads are hashed the ring points of its parts' keys.
pub(crate) fn push_request(
    alloc: Global,
    request: &Request,
    payloads: &Payloads,
    line: &mut Vec<u8>,
) -> Result<(), AllocError>
    ensures { OnOk result (line.new.items
        ≡ line.old.items ++ request_text payloads.now (request_of request.now)) }
{
    push_asked_by(alloc, request, payloads, line)?;
    match payloads {
        Payloads::Clear => Ok(()),
        Payloads::Hashed { tags, .. } => push_points(alloc, request, *tags, line),
    }
}

fn push_asked_by(
    alloc: Global,
    request: &Request,
    payloads: &Payloads,
    line: &mut Vec<u8>,
) -> Result<(), AllocError>
    ensures { OnOk result (line.new.items
        ≡ line.old.items ++ asked_by payloads.now (request_of request.now)) }
{
    match request {
        Request::Read(value) => push_asked(value, payloads, line),
        Request::Spelled(command) => push_asked(&command.value(alloc)?, payloads, line),
        Request::Broken => push_piece(line, "\"broken\": true"),
    }
}

fn push_asked(value: &Value, payloads: &Payloads, line: &mut Vec<u8>) -> Result<(), AllocError>
    ensures { OnOk result (line.new.items
        ≡ line.old.items ++ asked_text payloads.now (tree_of value.now)) }
{
    match value.words() {
        Some(words) => push_words(words, payloads, line),
        None => {
            push_piece(line, "\"value\": ")?;
            push_value(value, payloads, false, line)
        }
    }
}

fn push_points(
    alloc: Global,
    request: &Request,
    tags: bool,
    line: &mut Vec<u8>,
) -> Result<(), AllocError>
    ensures { OnOk result (line.new.items
        ≡ line.old.items ++ points_text tags (plan_of (request_of request.now))) }
{
    let Ok(plan) = plan(alloc, request) else {
        return Err(AllocError);
    };
    match plan {
        Plan::Parts { list, .. } => push_points_of(&list, tags, line),
        _ => Ok(()),
    }
}

fn push_points_of(parts: &PartPlans, tags: bool, line: &mut Vec<u8>) -> Result<(), AllocError>
    ensures { OnOk result (line.new.items
        ≡ line.old.items ++ points_of_parts tags parts.now) }
{
    if parts.0.is_empty() {
        return Ok(());
    }
    let mut before = b", \"points\": [".as_slice();
    for part in &parts.0 {
        let point = point_of_key(part.key.as_slice(), tags);
        line.extend_from_slice(before)?;
        push_piece(line, Buffer::new().format(point))?;
        before = b", ".as_slice();
    }
    push_piece(line, "]")
}
