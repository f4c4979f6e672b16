//! Rows of a connection's queue.

use crate::joins::{join_of, may_join};
use crate::spelling::spelled_or_nothing;
use anyhow::{Result, bail};
use reply_queue::{Queue, QueueRefusal};
use resp_core::Value;
use splitter::Join;
use std::alloc::Global;
use test_rows::again;
use test_rows::shown::{refusal_words, shown};
use test_rows::text::{first_word, number, unknown};
use test_rows::values::value_of;

/// Makes one action: `accept JOIN PARTS`, `is_open COMMAND PART`, `set COMMAND PART VALUE`, `set_all COMMAND PARTS
/// VALUE` (from the last part to the first), `ready`, `left`, `front`, `drop`, `pop`, or `past`, which accepts a
/// command of one part and pops it.
pub(crate) fn act(alloc: Global, queue: &mut Queue, line: &str) -> Result<String> {
    let (verb, rest) = first_word(line);
    match verb {
        "accept" => accept(alloc, queue, rest),
        "is_open" => is_open(alloc, queue, rest),
        "set" => set(alloc, queue, rest),
        "set_all" => set_all(alloc, queue, rest),
        "ready" => shown(alloc, queue.ready()),
        "left" => shown(alloc, queue.left()),
        "front" => front(alloc, queue),
        "pop" => pop(alloc, queue),
        "drop" => drop_front(alloc, queue),
        "past" => past(alloc, queue),
        _ => unknown("action", verb),
    }
}

fn accept(alloc: Global, queue: &mut Queue, words: &str) -> Result<String> {
    let (how, parts) = first_word(words);
    let how = join_of(how)?;
    let parts: u32 = number(parts)?;
    let parts = parts as usize;
    if !may_join(how, parts) {
        bail!("no join of so many parts");
    }
    match again!(queue.accept(how, parts)) {
        Ok(index) => shown(alloc, index),
        Err(refusal) => refusal_words(alloc, refusal.number(), &refusal),
    }
}

fn is_open(alloc: Global, queue: &Queue, words: &str) -> Result<String> {
    let (command, part) = first_word(words);
    shown(alloc, queue.is_open(number(command)?, number(part)?))
}

fn set(alloc: Global, queue: &mut Queue, words: &str) -> Result<String> {
    let (command, rest) = first_word(words);
    let (part, text) = first_word(rest);
    let (command, part) = (number(command)?, number(part)?);
    let value = again!(value_of(alloc, text))?;
    let is_set = give(queue, command, part, value);
    shown(alloc, if is_set { "set" } else { "not open" })
}

fn give(queue: &mut Queue, command: u64, part: u32, value: Value) -> bool {
    if !queue.is_open(command, part) {
        drop(value);
        return false;
    }
    queue.set_part(command, part, value);
    !queue.is_open(command, part)
}

// The queue must not be ready before the last part is set.
fn set_all(alloc: Global, queue: &mut Queue, words: &str) -> Result<String> {
    let (command, rest) = first_word(words);
    let (parts, text) = first_word(rest);
    let (command, parts) = (number(command)?, number(parts)?);
    let value = again!(value_of(alloc, text))?;
    let given = give_all(alloc, queue, command, parts, &value);
    drop(value);
    shown(alloc, format_args!("{} set", given?))
}

fn give_all(
    alloc: Global,
    queue: &mut Queue,
    command: u64,
    parts: u32,
    value: &Value,
) -> Result<u32> {
    let mut given = 0u32;
    for part in (0..parts).rev() {
        if queue.ready() || !give_shared(alloc, queue, command, part, value)? {
            break;
        }
        given = given.saturating_add(1);
    }
    Ok(given)
}

fn give_shared(
    alloc: Global,
    queue: &mut Queue,
    command: u64,
    part: u32,
    value: &Value,
) -> Result<bool> {
    let shared = again!(value.share(alloc))?;
    Ok(give(queue, command, part, shared))
}

fn front(alloc: Global, queue: &Queue) -> Result<String> {
    told(alloc, again!(queue.front()))
}

fn pop(alloc: Global, queue: &mut Queue) -> Result<String> {
    told(alloc, again!(queue.pop()))
}

fn drop_front(alloc: Global, queue: &mut Queue) -> Result<String> {
    if !queue.ready() {
        return shown(alloc, "not ready");
    }
    queue.drop_front();
    shown(alloc, "dropped")
}

fn past(alloc: Global, queue: &mut Queue) -> Result<String> {
    let Ok(index) = again!(queue.accept(Join::Same, 1)) else {
        return shown(alloc, "refused");
    };
    if give(queue, index, 0, Value::NullBulk) && is_popped(queue) {
        shown(alloc, index)
    } else {
        shown(alloc, "not popped")
    }
}

fn is_popped(queue: &mut Queue) -> bool {
    let popped = again!(queue.pop());
    let is_popped = popped.is_ok();
    drop(popped);
    is_popped
}

fn told(alloc: Global, answer: Result<Option<Value>, QueueRefusal>) -> Result<String> {
    match answer {
        Ok(reply) => spelled_or_nothing(alloc, reply),
        Err(refusal) => refusal_words(alloc, refusal.number(), &refusal),
    }
}
