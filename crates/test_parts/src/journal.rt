//! Rows of a journal whose events and answers are numbers.

use anyhow::Result;
use journal_core::{Journal, JournalError, Step};
use std::alloc::Global;
use test_rows::again;
use test_rows::shown::{refusal_words, shown};
use test_rows::text::{first_word, number, unknown};

/// Makes one action: `room BYTES`, `add PASS EVENT ANSWER BYTES` (after making room), `get STEP`, `len`, `bytes`.
pub(crate) fn act(alloc: Global, journal: &mut Journal<u64, u64>, line: &str) -> Result<String> {
    let (verb, rest) = first_word(line);
    match verb {
        "room" => room(alloc, journal, number(rest)?),
        "add" => add(alloc, journal, rest),
        "get" => get(alloc, journal, number(rest)?),
        "len" => shown(alloc, journal.len()),
        "bytes" => shown(alloc, journal.bytes()),
        _ => unknown("action", verb),
    }
}

fn room(alloc: Global, journal: &mut Journal<u64, u64>, bytes: u64) -> Result<String> {
    told(alloc, again!(journal.room(bytes)))
}

fn add(alloc: Global, journal: &mut Journal<u64, u64>, words: &str) -> Result<String> {
    let (pass, rest) = first_word(words);
    let (event, rest) = first_word(rest);
    let (answer, bytes) = first_word(rest);
    let step = Step {
        pass: number(pass)?,
        event: number(event)?,
        answer: number(answer)?,
    };
    let bytes = number(bytes)?;
    let room = again!(journal.room(bytes));
    if room.is_ok() {
        journal.add(step, bytes);
    }
    told(alloc, room)
}

fn get(alloc: Global, journal: &Journal<u64, u64>, at: usize) -> Result<String> {
    match journal.get(at) {
        Some(step) => {
            let (pass, event, answer) = (step.pass, step.event, step.answer);
            shown(
                alloc,
                format_args!("pass {pass}, event {event}, answer {answer}"),
            )
        }
        None => shown(alloc, "None"),
    }
}

fn told(alloc: Global, answer: Result<(), JournalError>) -> Result<String> {
    match answer {
        Ok(()) => shown(alloc, "Ok"),
        Err(error) => refusal_words(alloc, error.number(), &error),
    }
}
