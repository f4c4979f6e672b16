//! Rows of a host's pipe.

use anyhow::Result;
use std::alloc::Global;
use std::fmt::{Display, Formatter, Result as FmtResult, Write};
use test_rows::again;
use test_rows::shown::{refusal_words, shown};
use test_rows::text::{first_word, number, put_escaped, unknown};
use test_rows::values::bytes_of;
use upstream_pipe::{Lost, Owner, Part, Pipe, PipeRefusal};

/// Makes one action: `push CONNECTION COMMAND PART TEXT`, `take`, `answered EPOCH`, `fault EPOCH`, `forget CONNECTION`,
/// `room PARTS`, `epoch`, `waiting`, `flying`, `oldest`. An owner is printed as its three numbers.
pub(crate) fn act(alloc: Global, pipe: &mut Pipe, line: &str) -> Result<String> {
    let (verb, rest) = first_word(line);
    match verb {
        "push" => push(alloc, pipe, rest),
        "take" => take(alloc, pipe),
        "answered" => answered(alloc, pipe, number(rest)?),
        "fault" => fault(alloc, pipe, number(rest)?),
        "forget" => forget(alloc, pipe, number(rest)?),
        "room" => room(alloc, pipe, number(rest)?),
        _ => told(alloc, pipe, verb),
    }
}

fn told(alloc: Global, pipe: &Pipe, verb: &str) -> Result<String> {
    match verb {
        "epoch" => shown(alloc, pipe.epoch()),
        "waiting" => shown(alloc, pipe.waiting()),
        "flying" => shown(alloc, pipe.flying()),
        "oldest" => part_or_none(alloc, pipe.oldest()),
        _ => unknown("action", verb),
    }
}

// A refused part comes back and is printed.
fn push(alloc: Global, pipe: &mut Pipe, words: &str) -> Result<String> {
    let part = again!(part_of(alloc, words))?;
    let pushed = match pipe.push(part) {
        Err((PipeRefusal::NoMemory, part)) => pipe.push(part),
        pushed => pushed,
    };
    match pushed {
        Ok(()) => shown(alloc, "Ok"),
        Err((refusal, part)) => back(alloc, refusal, part),
    }
}

fn take(alloc: Global, pipe: &mut Pipe) -> Result<String> {
    let part = pipe.take();
    let text = part_or_none(alloc, part.as_ref());
    drop(part);
    text
}

fn answered(alloc: Global, pipe: &mut Pipe, epoch: u64) -> Result<String> {
    match pipe.answered(epoch) {
        Ok(owner) => shown(alloc, Shown(owner)),
        Err(refusal) => refusal_words(alloc, refusal.number(), &refusal),
    }
}

fn forget(alloc: Global, pipe: &mut Pipe, connection: u64) -> Result<String> {
    pipe.forget(connection);
    shown(alloc, "Ok")
}

fn room(alloc: Global, pipe: &mut Pipe, more: usize) -> Result<String> {
    match again!(pipe.room(more)) {
        Ok(()) => shown(alloc, "Ok"),
        Err(refusal) => refusal_words(alloc, refusal.number(), &refusal),
    }
}

fn fault(alloc: Global, pipe: &mut Pipe, epoch: u64) -> Result<String> {
    match again!(pipe.fault(epoch)) {
        Ok(lost) => lost_text(alloc, lost),
        Err(refusal) => refusal_words(alloc, refusal.number(), &refusal),
    }
}

fn part_of(alloc: Global, words: &str) -> Result<Part> {
    let (connection, rest) = first_word(words);
    let (command, rest) = first_word(rest);
    let (part, text) = first_word(rest);
    let owner = Owner {
        conn: number(connection)?,
        command: number(command)?,
        part: number(part)?,
    };
    let text = bytes_of(alloc, text)?;
    Ok(Part { owner, text })
}

// `None`: the owner is forgotten.
#[derive(Clone, Copy)]
struct Shown(Option<Owner>);

impl Display for Shown {
    fn fmt<W: Write>(&self, f: &mut Formatter<W>) -> FmtResult {
        match self.0 {
            Some(owner) => write!(f, "{} {} {}", owner.conn, owner.command, owner.part),
            None => write!(f, "forgotten"),
        }
    }
}

fn part_or_none(alloc: Global, part: Option<&Part>) -> Result<String> {
    match part {
        Some(part) => again!(part_text(alloc, part)),
        None => shown(alloc, "None"),
    }
}

fn part_text(alloc: Global, part: &Part) -> Result<String> {
    let mut text = shown(alloc, Shown(Some(part.owner)))?;
    text.push(' ')?;
    put_escaped(&mut text, part.text.as_slice())?;
    Ok(text)
}

fn back(alloc: Global, refusal: PipeRefusal, part: Part) -> Result<String> {
    let text = again!(part_text(alloc, &part));
    drop(part);
    let part = text?;
    let refusal = refusal_words(alloc, refusal.number(), &refusal)?;
    shown(alloc, format_args!("{refusal}, back comes {part}"))
}

fn lost_text(alloc: Global, lost: Lost) -> Result<String> {
    let flying = again!(flying_text(alloc, lost.flying.as_slice()))?;
    let waiting = again!(waiting_text(alloc, lost.waiting.as_slice()))?;
    shown(alloc, format_args!("{flying}; {waiting}"))
}

fn flying_text(alloc: Global, owners: &[Option<Owner>]) -> Result<String> {
    let mut text = String::from_str(alloc, "flying")?;
    for owner in owners {
        write!(text, ", {}", Shown(*owner))?;
    }
    Ok(text)
}

fn waiting_text(alloc: Global, owners: &[Owner]) -> Result<String> {
    let mut text = String::from_str(alloc, "waiting")?;
    for owner in owners {
        write!(text, ", {}", Shown(Some(*owner)))?;
    }
    Ok(text)
}
