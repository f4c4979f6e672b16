//! The value of each part and the outcome of each command.
ghost use Rattle.std.specs.Prelude.{◌≡◌, [], IfOk, IfErr, IfSome, map, option_map, length};
ghost use Rattle.std.specs.Option.{option_and_then, option_copied};
ghost use Rattle.resp_core.specs.Text.{text};
ghost use Rattle.resp_core.specs.Value.{tree_of};
ghost use Rattle.splitter.specs.Join.{MayJoin, join_of};
ghost use Rattle.proxy_history.specs.Setting.{Setting};
ghost use Rattle.proxy_history.specs.History.{handed_count};
ghost use Rattle.proxy_history.specs.Value.{reply_to, upstream_failure, value_of};
ghost use Rattle.proxy_history.specs.Outcome.{is_part_of, outcome, parts_of as command_parts, values_of};
ghost use Rattle.test_reference.specs.Scan.{Shows, history_of, part_of, past_of_scan, value_at_once};

use crate::part::{AtOnce, Part};
use crate::pipe::place;
use crate::replay::Replay;
use crate::scan::{Turn, Wanted, reply_at, request_at, times};
use bytes::Bytes;
use resp_core::{RespError, Value, put_text};
use splitter::{Join, Plan, SplitError, join, plan};
use std::alloc::Global;

/// The part's value, once it has one: what it got at its arrival, else the reply in its place, else its host's failure.
/// Payloads share their bytes with the reply. Refused 101 (no memory).
pub(crate) fn value_of(
    alloc: Global,
    steps: &[Turn],
    replay: &Replay,
    part: &Part,
) -> Result<Option<Value>, RespError>
    ensures value { IfOk result
        (λ v. option_map tree_of v
        ≡ value_of (past_of_scan steps.now [] replay.now) (part_of part.now)) }
    ensures err { IfErr result (λ e. e ≡ RespError.NoMemory) }
{
    if let Some(at_once) = part.local {
        return Ok(Some(value_at_once(at_once)));
    }
    let Some(host) = part.host else {
        return Ok(None);
    };
    if let Some(reply) = reply_to(steps, replay, host, part) {
        return Ok(Some(reply.share(alloc)?));
    }
    if part.epoch < times(steps, Wanted::Fault(host)) {
        return Ok(Some(upstream_failure()));
    }
    Ok(None)
}

fn value_at_once(at_once: AtOnce) -> Value
    ensures { tree_of result ≡ value_at_once at_once }
{
    match at_once {
        AtOnce::NoHost => Value::Fault(Bytes::from_static(b"no upstream host")),
        AtOnce::Busy => Value::Fault(Bytes::from_static(b"proxy busy")),
    }
}

fn upstream_failure() -> Value
    ensures { tree_of result ≡ upstream_failure }
{
    Value::Fault(Bytes::from_static(b"upstream failure"))
}

fn reply_to<'a>(steps: &'a [Turn], replay: &Replay, host: usize, part: &Part) -> Option<&'a Value>
    ensures { option_map tree_of (option_copied result) ≡ reply_to (part_of part.now) host
        (past_of_scan steps.now [] replay.now) }
{
    match place(replay, host, part) {
        Some(place) => reply_at(steps, host, part.epoch, place),
        None => None,
    }
}

/// The outcome of command `index` of the connection, once it has one. Refused 701 (no memory).
///
/// The replay must be that of the steps.
pub(crate) fn outcome(
    alloc: Global,
    steps: &[Turn],
    replay: &Replay,
    conn: u64,
    index: u64,
) -> Result<Option<Value>, SplitError>
    requires { (S : Setting) × Shows S (history_of steps.now) replay.now }
    ensures value { IfOk result
        (λ v. option_map tree_of v ≡ outcome conn index (past_of_scan steps.now [] replay.now)) }
    ensures err { IfErr result (λ e. e ≡ SplitError.NoMemory) }
{
    let Some(request) = request_at(steps, conn, index) else {
        return Ok(None);
    };
    match plan(alloc, request)? {
        Plan::Here(_, value) | Plan::Leave(_, value) => Ok(Some(value)),
        Plan::Parts { how, .. } => {
            let values = values_of(alloc, steps, replay, conn, index)?;
            joined(alloc, how, values)
        }
    }
}

fn joined(alloc: Global, how: Join, values: Option<Vec<Value>>) -> Result<Option<Value>, SplitError>
    requires { IfSome values (λ values. MayJoin how (length values.items)) }
    ensures value { IfOk result
        (λ v. option_map tree_of v ≡ option_map
        (λ values. join_of how (map tree_of values.items)) values) }
    ensures err { IfErr result (λ e. e ≡ SplitError.NoMemory) }
{
    let Some(values) = values else {
        return Ok(None);
    };
    Ok(Some(join(alloc, how, &values)?))
}

// `None`: a part has none yet.
fn values_of(
    alloc: Global,
    steps: &[Turn],
    replay: &Replay,
    conn: u64,
    index: u64,
) -> Result<Option<Vec<Value>>, SplitError>
    ensures values { IfOk result (λ values. option_map (λ vs. map tree_of vs.items) values
        ≡ values_of (past_of_scan steps.now [] replay.now)
        (command_parts conn index (past_of_scan steps.now [] replay.now))) }
    ensures err { IfErr result (λ e. e ≡ SplitError.NoMemory) }
{
    let mut values = Vec::new(alloc);
    for part in &replay.parts {
        if is_part_of(part, conn, index) {
            match value_of(alloc, steps, replay, part)? {
                Some(value) => values.push(value)?,
                None => return Ok(None),
            }
        }
    }
    Ok(Some(values))
}

fn is_part_of(part: &Part, conn: u64, index: u64) -> bool
    ensures { result ≡ is_part_of conn index (part_of part.now) }
{
    part.conn == conn && part.command == index
}
