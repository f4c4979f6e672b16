//! Rows of the host in memory.

use crate::spelling::spelled;
use anyhow::Result;
use resp_core::Value;
use std::alloc::Global;
use stub_server::{Act, Response, Stub};
use test_rows::again;
use test_rows::shown::{refusal_words, shown};
use test_rows::text::{first_word, unknown};
use test_rows::values::{command, value_of};

/// Makes one action: `ask WORDS` or `value VALUE` (a request, and its answer), `script ACTS`, or `serve WORDS`: a
/// request served by the script, and its answer or what stands for none.
pub(crate) fn act(alloc: Global, stub: &mut Stub, line: &str) -> Result<String> {
    let (verb, rest) = first_word(line);
    match verb {
        "ask" => ask(alloc, stub, again!(command(alloc, rest))?),
        "value" => ask(alloc, stub, again!(value_of(alloc, rest))?),
        "script" => script(alloc, stub, rest),
        "serve" => serve(alloc, stub, again!(command(alloc, rest))?),
        _ => unknown("action", verb),
    }
}

fn ask(alloc: Global, stub: &mut Stub, request: Value) -> Result<String> {
    let answer = again!(stub.answer(&request));
    drop(request);
    match answer {
        Ok(answer) => spelled(alloc, answer),
        Err(refusal) => refusal_words(alloc, refusal.number(), &refusal),
    }
}

fn script(alloc: Global, stub: &mut Stub, words: &str) -> Result<String> {
    let acts = again!(acts_of(alloc, words))?;
    let count = acts.len();
    stub.script(acts);
    shown(alloc, format_args!("{count} acts"))
}

fn serve(alloc: Global, stub: &mut Stub, request: Value) -> Result<String> {
    let response = again!(stub.serve(&request));
    drop(request);
    match response {
        Ok(response) => response_text(alloc, response),
        Err(refusal) => refusal_words(alloc, refusal.number(), &refusal),
    }
}

fn response_text(alloc: Global, response: Response) -> Result<String> {
    match response {
        Response::Answer(answer) => spelled(alloc, answer),
        Response::Silence => shown(alloc, "silence"),
        Response::End => shown(alloc, "end"),
        Response::Garbage => shown(alloc, "garbage"),
    }
}

fn acts_of(alloc: Global, words: &str) -> Result<Vec<Act>> {
    let mut acts = Vec::new(alloc);
    if words.is_empty() {
        return Ok(acts);
    }
    for word in words.split(' ') {
        acts.push(act_of(word)?)?;
    }
    Ok(acts)
}

fn act_of(name: &str) -> Result<Act> {
    match name {
        "Reply" => Ok(Act::Reply),
        "Hold" => Ok(Act::Hold),
        "Drop" => Ok(Act::Drop),
        "Garble" => Ok(Act::Garble),
        _ => unknown("act", name),
    }
}
