//! Rows of plans and joins.

use crate::joins::{join_of, may_join};
use crate::pieces::repeated;
use crate::spelling::{spelled, spelling, values_of};
use anyhow::{Result, bail};
use resp_core::{Value, Values};
use splitter::{Join, Local, PartPlan, Plan, Request, join, plan};
use std::alloc::Global;
use test_rows::again;
use test_rows::shown::shown;
use test_rows::text::{first_word, put_escaped, unknown};
use test_rows::values::{as_text, bulk, put_copies, request_of};

// Of a command with more parts only the first and the last are printed.
const SHOWN: usize = 8;

/// Makes one action: `plan WORDS`, where `7*a` is seven words `a`; `value VALUE` or `broken`, the plan of that request;
/// or `join HOW VALUES`.
pub(crate) fn act(alloc: Global, line: &str) -> Result<String> {
    again!(told(alloc, line))
}

fn told(alloc: Global, line: &str) -> Result<String> {
    let (verb, rest) = first_word(line);
    match verb {
        "plan" => planned(alloc, command_of(alloc, rest)?),
        "value" | "broken" => planned(alloc, request_of(alloc, line)?),
        "join" => joined(alloc, rest),
        _ => unknown("action", verb),
    }
}

// The plan of a request, and of its text if it is a short command. Both must be the same.
fn planned(alloc: Global, request: Request) -> Result<String> {
    let by_value = planned_as(alloc, &request);
    let short = match &request {
        Request::Read(value) => as_text(alloc, value),
        _ => Ok(None),
    };
    drop(request);
    let by_value = by_value?;
    let Some(short) = short? else {
        return Ok(by_value);
    };
    let by_text = planned_as(alloc, &Request::Spelled(short))?;
    if by_text.as_str() == by_value.as_str() {
        return Ok(by_value);
    }
    shown(
        alloc,
        format_args!("{by_value}, DIFFERS as a text: {by_text}"),
    )
}

fn planned_as(alloc: Global, request: &Request) -> Result<String> {
    let plan = plan(alloc, request)?;
    let text = plan_text(alloc, &plan);
    drop(plan);
    text
}

fn command_of(alloc: Global, words: &str) -> Result<Request> {
    let mut members = Vec::new(alloc);
    for word in words.split(' ') {
        put_words(alloc, &mut members, word)?;
    }
    Ok(Request::Read(Value::List(Values(members))))
}

fn put_words(alloc: Global, members: &mut Vec<Value>, word: &str) -> Result<()> {
    let (count, word) = repeated(word);
    put_copies(alloc, members, count, bulk(alloc, word)?)
}

fn plan_text(alloc: Global, plan: &Plan) -> Result<String> {
    match plan {
        Plan::Here(local, value) => own_answer(alloc, "Here", *local, value),
        Plan::Leave(local, value) => own_answer(alloc, "Leave", *local, value),
        Plan::Parts { how, list } => parts_text(alloc, *how, list.0.as_slice()),
    }
}

fn own_answer(alloc: Global, plan: &str, local: Local, value: &Value) -> Result<String> {
    let text = spelling(alloc, value)?;
    shown(alloc, format_args!("{plan} {local:?} {text}"))
}

fn parts_text(alloc: Global, how: Join, parts: &[PartPlan]) -> Result<String> {
    let mut text = format!(in alloc; "Parts {how:?}")?;
    match parts {
        [first, .., last] if parts.len() > SHOWN => {
            let count = parts.len();
            write!(text, ", {count} parts, the first")?;
            put_part(&mut text, first)?;
            text.push_str(", the last")?;
            put_part(&mut text, last)?;
        }
        _ => put_parts(&mut text, parts)?,
    }
    Ok(text)
}

fn put_parts(text: &mut String, parts: &[PartPlan]) -> Result<()> {
    for part in parts {
        text.push(',')?;
        put_part(text, part)?;
    }
    Ok(())
}

fn put_part(text: &mut String, part: &PartPlan) -> Result<()> {
    text.push_str(" '")?;
    put_escaped(text, part.key.as_slice())?;
    text.push_str("' ")?;
    put_escaped(text, part.text.as_slice())
}

fn joined(alloc: Global, words: &str) -> Result<String> {
    let (how, text) = first_word(words);
    let how = join_of(how)?;
    let values = values_of(alloc, text)?;
    if !may_join(how, values.len()) {
        bail!("no join of so many values");
    }
    spelled(alloc, join(alloc, how, values.as_slice())?)
}
