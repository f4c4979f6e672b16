ghost use Rattle.std.specs.Prelude.{◌≡◌, IfOk, IfErr, IfSome, Contains, true, codes, length, map};
ghost use Rattle.std.specs.Str.{str_to_ascii_uppercase};
ghost use Rattle.resp_core.specs.Tree.{simple};
ghost use Rattle.resp_core.specs.Value.{tree_of};
ghost use Rattle.resp_core.specs.Command.{are_words, command_of, payload_of, word, IsArrayOf};
ghost use Rattle.command_table.specs.Entry.{row_of};
ghost use Rattle.command_table.specs.Table.{rows, row_named};
ghost use Rattle.splitter.specs.Request.{read, request_of};
ghost use Rattle.splitter.specs.Plan.{here, plan_of, plan_by, plan_by_row, takes};
ghost use Rattle.splitter.specs.Planned.{IsTakenBy, plan_in, planned_in};

use crate::error::SplitError;
use crate::local::{unsupported, wrong_number};
use crate::parts::{key_parts, pair_parts, whole_part};
use crate::plans::{Join, Local, PartPlan, PartPlans, Plan, Planned};
use crate::request::Request;
use bytes::Bytes;
use command_table::{Entry, Kind, look};
use resp_core::{SpelledCommand, Texts, Value, Values};
use std::alloc::Global;

/// The plan of a request. Refused 701 (no memory).
pub fn plan(alloc: Global, request: &Request) -> Result<Plan, SplitError>
    ensures plan { IfOk result (λ p. plan_in p ≡ plan_of (request_of request.now)) }
    ensures err { IfErr result (λ e. e ≡ SplitError.NoMemory) }
{
    owned(
        alloc,
        plan_with(alloc, &mut Texts::new(alloc), request, request.text_len())?,
    )
}

fn owned(alloc: Global, planned: Planned<'_>) -> Result<Plan, SplitError>
    ensures plan { IfOk result (λ p. plan_in p ≡ planned_in planned.entry) }
    ensures err { IfErr result (λ e. e ≡ SplitError.NoMemory) }
{
    match planned {
        Planned::Whole { key, text } => {
            let part = PartPlan {
                key: Bytes::copy_from_slice(alloc, key)?,
                text,
            };
            Ok(Plan::Parts {
                how: Join::Same,
                list: PartPlans(Vec::from_array(alloc, [part])?),
            })
        }
        Planned::Other(plan) => Ok(plan),
    }
}

/// The same, for one request of many: the parts' texts are written to `texts`, and a command that stays whole lends
/// its key. `text_len` is `Request::text_len`; a wrong number doesn't change the plan. Refused 701 (no memory).
pub fn plan_with<'a>(
    alloc: Global,
    texts: &mut Texts,
    request: &'a Request,
    text_len: u64,
) -> Result<Planned<'a>, SplitError>
    ensures plan { IfOk result (λ p. planned_in p ≡ plan_of (request_of request.now)) }
    ensures err { IfErr result (λ e. e ≡ SplitError.NoMemory) }
{
    match request {
        Request::Broken => Ok(Planned::Other(Plan::Leave(
            Local::Broken,
            Value::Fault(Bytes::from_static(b"downstream protocol error")),
        ))),
        Request::Read(value) => plan_value(alloc, texts, value, text_len),
        Request::Spelled(command) => plan_spelled(alloc, texts, command),
    }
}

#[derive(Clone, Copy)]
struct ReadCommand<'a> {
    value: &'a Value,
    // `Request::text_len`.
    text_len: u64,
    words: &'a Values,
}

fn plan_value<'a>(
    alloc: Global,
    texts: &mut Texts,
    value: &'a Value,
    text_len: u64,
) -> Result<Planned<'a>, SplitError>
    ensures plan { IfOk result (λ p. planned_in p ≡ plan_of (read (tree_of value.now))) }
    ensures err { IfErr result (λ e. e ≡ SplitError.NoMemory) }
{
    match value.words() {
        Some(words) => plan_command(
            alloc,
            texts,
            &ReadCommand {
                value,
                text_len,
                words,
            },
        ),
        None => Ok(Planned::Other(Plan::Here(
            Local::Invalid,
            Value::Fault(Bytes::from_static(b"invalid request")),
        ))),
    }
}

fn plan_spelled<'a>(
    alloc: Global,
    texts: &mut Texts,
    command: &'a SpelledCommand,
) -> Result<Planned<'a>, SplitError>
    ensures plan { IfOk result
        (λ p. planned_in p ≡ plan_of (read (command_of command.now))) }
    ensures err { IfErr result (λ e. e ≡ SplitError.NoMemory) }
{
    if let Some(entry) = taken_entry(command) {
        match entry.kind {
            Kind::One => return Ok(Planned::Whole {
                key: command.word(entry.key_at),
                text: command.text().clone()?,
            }),
            Kind::Ping => return Ok(Planned::Other(pong())),
            _ => {}
        }
    }
    let value = command.value(alloc)?;
    let planned = plan_value(alloc, texts, &value, command.text().len() as u64)?;
    Ok(Planned::Other(owned(alloc, planned)?))
}

fn taken_entry(command: &SpelledCommand) -> Option<Entry>
    ensures { IfSome result (λ entry. IsTakenBy entry command.now) }
{
    let count = command.count();
    let entry = look(command.word(0))?;
    if takes(entry, count) {
        Some(entry)
    } else {
        None
    }
}

fn pong() -> Plan
    ensures { plan_in result ≡ here Local.Pong (simple (codes "PONG")) }
{
    Plan::Here(Local::Pong, Value::Simple(Bytes::from_static(b"PONG")))
}

fn plan_command<'a>(
    alloc: Global,
    texts: &mut Texts,
    command: &ReadCommand<'a>,
) -> Result<Planned<'a>, SplitError>
    requires words { are_words command.now.words.now ≡ true }
    requires array { IsArrayOf command.now.words.now (tree_of command.now.value.now) }
    ensures plan { IfOk result (λ p. planned_in p
        ≡ plan_by_row (row_named (word (map payload_of command.now.words.now) 0))
        (map payload_of command.now.words.now)) }
    ensures err { IfErr result (λ e. e ≡ SplitError.NoMemory) }
{
    let words = command.words;
    let name = words.word(0).as_slice();
    let Some(entry) = look(name) else {
        return Ok(Planned::Other(Plan::Here(
            Local::Unsupported,
            Value::Fault(unsupported(alloc, name)?),
        )));
    };
    if !takes(entry, words.0.len()) {
        return Ok(Planned::Other(Plan::Here(
            Local::WrongNumber,
            Value::Fault(wrong_number(alloc, entry)?),
        )));
    }
    plan_known(alloc, texts, entry, command)
}

fn takes(entry: Entry, words: usize) -> bool
    ensures { result ≡ takes entry.kind entry.least words }
{
    match entry.kind {
        Kind::Ping | Kind::Echo => words == entry.least,
        Kind::Quit | Kind::One | Kind::SplitGet | Kind::SplitSum => words >= entry.least,
        Kind::SplitSet => words >= entry.least && words % 2 == 1,
    }
}

fn plan_known<'a>(
    alloc: Global,
    texts: &mut Texts,
    entry: Entry,
    command: &ReadCommand<'a>,
) -> Result<Planned<'a>, SplitError>
    requires words { are_words command.now.words.now ≡ true }
    requires array { IsArrayOf command.now.words.now (tree_of command.now.value.now) }
    requires known { Contains rows (row_of entry) }
    requires takes { takes entry.kind entry.least (length command.now.words.now) ≡ true }
    ensures plan { IfOk result (λ p. planned_in p
        ≡ plan_by entry.kind (row_of entry) (map payload_of command.now.words.now)) }
    ensures err { IfErr result (λ e. e ≡ SplitError.NoMemory) }
{
    let ReadCommand {
        value,
        text_len,
        words,
    } = *command;
    let (how, list) = match entry.kind {
        Kind::Ping => return Ok(Planned::Other(pong())),
        Kind::Echo => return Ok(Planned::Other(Plan::Here(
            Local::Echoed,
            Value::Bulk(words.word(1).share()?),
        ))),
        Kind::Quit => return Ok(Planned::Other(Plan::Leave(
            Local::Bye,
            Value::Simple(Bytes::from_static(b"OK")),
        ))),
        Kind::One => return whole_part(texts, value, text_len, words, entry.key_at),
        Kind::SplitGet => (
            Join::Get,
            key_parts(alloc, texts, text_len, Bytes::from_static(b"GET"), words)?,
        ),
        Kind::SplitSet => (Join::Set, pair_parts(alloc, texts, words)?),
        Kind::SplitSum => (
            Join::Sum,
            key_parts(alloc, texts, text_len, upper_name(alloc, entry)?, words)?,
        ),
    };
    Ok(Planned::Other(Plan::Parts { how, list }))
}

fn upper_name(alloc: Global, entry: Entry) -> Result<Bytes, SplitError>
    ensures name { IfOk result (λ name. name ≡ str_to_ascii_uppercase entry.name.now) }
    ensures err { IfErr result (λ e. e ≡ SplitError.NoMemory) }
{
    Ok(Bytes::from_vec(entry.name.as_bytes().to_ascii_uppercase(alloc)?)?)
}
