//! Rows of refusals: their numbers and texts.

use anyhow::{Result, bail};
use ejector::{EjectError, Field};
use journal_core::JournalError;
use ketama::RingError;
use reply_queue::QueueRefusal;
use resp_core::RespError;
use splitter::SplitError;
use std::alloc::Global;
use std::fmt::Display;
use stub_server::StubError;
use test_rows::again;
use upstream_pipe::PipeRefusal;

macro_rules! messages {
    ($alloc:expr, $($refusal:expr),+) => {
        listed($alloc, &[$(($refusal.number(), $refusal)),+])
    };
}

/// Returns the refusals of one crate: `reader`, `ring`, `ejector`, `pipe`, `splitter`, `queue`, `journal`, `stub`.
pub(crate) fn act(alloc: Global, line: &str) -> Result<String> {
    again!(refusals_of(alloc, line))
}

fn refusals_of(alloc: Global, name: &str) -> Result<String> {
    match name {
        "reader" => of_reader(alloc),
        "ring" => of_ring(alloc),
        "ejector" => of_ejector(alloc),
        "pipe" => of_pipe(alloc),
        "splitter" => of_splitter(alloc),
        "queue" => of_queue(alloc),
        "journal" => of_journal(alloc),
        "stub" => of_stub(alloc),
        _ => bail!("nothing named {name:?} refuses"),
    }
}

fn listed<R: Display>(alloc: Global, refusals: &[(u16, R)]) -> Result<String> {
    let mut text = String::new(alloc);
    for (number, refusal) in refusals {
        if !text.is_empty() {
            text.push_str("; ")?;
        }
        write!(text, "{number} {refusal}")?;
    }
    Ok(text)
}

fn of_reader(alloc: Global) -> Result<String> {
    messages!(
        alloc,
        RespError::NoMemory,
        RespError::BadType { at: 3 },
        RespError::BadLength { at: 0 },
        RespError::BadNumber { at: 1 },
        RespError::BadLineEnd { at: 2 },
        RespError::TooLong { at: 4 },
        RespError::TooDeep { at: 5 }
    )
}

fn of_ring(alloc: Global) -> Result<String> {
    messages!(
        alloc,
        RingError::NoMemory,
        RingError::SameName,
        RingError::TooManyHosts,
        RingError::BadWeights,
        RingError::BadName,
        RingError::BadPoint
    )
}

fn of_ejector(alloc: Global) -> Result<String> {
    messages!(
        alloc,
        EjectError::NoMemory,
        EjectError::BadSettings {
            field: Field::MaxPercent
        }
    )
}

fn of_pipe(alloc: Global) -> Result<String> {
    messages!(
        alloc,
        PipeRefusal::NoMemory,
        PipeRefusal::Full,
        PipeRefusal::Stale { current: 9 },
        PipeRefusal::Unasked,
        PipeRefusal::EpochsSpent
    )
}

fn of_splitter(alloc: Global) -> Result<String> {
    messages!(alloc, SplitError::NoMemory)
}

fn of_queue(alloc: Global) -> Result<String> {
    messages!(
        alloc,
        QueueRefusal::NoMemory,
        QueueRefusal::Crowded,
        QueueRefusal::Spent
    )
}

fn of_journal(alloc: Global) -> Result<String> {
    messages!(alloc, JournalError::NoMemory, JournalError::JournalFull)
}

fn of_stub(alloc: Global) -> Result<String> {
    messages!(alloc, StubError::NoMemory)
}
