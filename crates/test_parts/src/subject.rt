use crate::reader::ReaderSubject;
use crate::{ejection, files, journal, messages, pipe, plans, queue, rates, ring, stub, table};
use anyhow::{Result, bail};
use ejector::Ejector;
use journal_core::Journal;
use ketama::Ring;
use reply_queue::Queue;
use std::alloc::Global;
use stub_server::Stub;
use test_rows::subject::Subject;
use test_rows::text::{first_word, unknown};
use upstream_pipe::Pipe;

/// The part that a row's actions are made on. It is empty at first. One with a state is boxed, so that a subject's size
/// doesn't depend on the largest.
#[derive(Drop)]
pub enum PartSubject {
    /// A reader of a stream, and values.
    Reader(Box<ReaderSubject>),
    /// The table of commands.
    Table,
    /// Plans and joins.
    Plans,
    /// A connection's queue.
    Queue(Box<Queue>),
    /// A host's pipe.
    Pipe(Box<Pipe>),
    /// A journal.
    Journal(Box<Journal<u64, u64>>),
    /// The host in memory.
    Stub(Box<Stub>),
    /// The row's latest ring, and keys.
    Ring(Box<Option<Ring>>),
    /// Success rates.
    Rates,
    /// Outlier detection: the row's latest ejector.
    Ejector(Box<Option<Ejector>>),
    /// Settings files.
    Files,
    /// The texts of refusals.
    Messages,
}

impl Subject for PartSubject {
    fn open(alloc: Global, words: &str) -> Result<PartSubject> {
        let (name, arguments) = first_word(words);
        match name {
            "table" => Ok(PartSubject::Table),
            "plans" => Ok(PartSubject::Plans),
            "rates" => Ok(PartSubject::Rates),
            "settings" => Ok(PartSubject::Files),
            "messages" => Ok(PartSubject::Messages),
            _ => PartSubject::with_state(alloc, name, arguments),
        }
    }

    fn act(&mut self, alloc: Global, line: &str) -> Result<String> {
        match self {
            PartSubject::Reader(reader) => reader.act(alloc, line),
            PartSubject::Table => table::act(alloc, line),
            PartSubject::Plans => plans::act(alloc, line),
            PartSubject::Queue(queue) => queue::act(alloc, queue, line),
            PartSubject::Pipe(pipe) => pipe::act(alloc, pipe, line),
            PartSubject::Journal(journal) => journal::act(alloc, journal, line),
            PartSubject::Stub(stub) => stub::act(alloc, stub, line),
            PartSubject::Ring(ring) => ring::act(alloc, ring, line),
            PartSubject::Rates => rates::act(alloc, line),
            PartSubject::Ejector(ejector) => ejection::act(alloc, ejector, line),
            PartSubject::Files => files::act(alloc, line),
            PartSubject::Messages => messages::act(alloc, line),
        }
    }
}

impl PartSubject {
    fn with_state(alloc: Global, name: &str, arguments: &str) -> Result<PartSubject> {
        Ok(match name {
            "reader" => PartSubject::Reader(boxed(alloc, ReaderSubject::open(alloc, arguments)?)?),
            "queue" => PartSubject::Queue(boxed(alloc, Queue::new(alloc))?),
            "pipe" => PartSubject::Pipe(boxed(alloc, Pipe::new(alloc))?),
            "journal" => PartSubject::Journal(boxed(alloc, Journal::new(alloc))?),
            "stub" => PartSubject::Stub(boxed(alloc, Stub::new(alloc))?),
            "ring" => PartSubject::Ring(boxed(alloc, None)?),
            "ejector" => PartSubject::Ejector(boxed(alloc, None)?),
            _ => return unknown("subject", name),
        })
    }
}

fn boxed<T: Drop>(alloc: Global, value: T) -> Result<Box<T>> {
    match Box::new(alloc, value) {
        Ok(boxed) => Ok(boxed),
        Err(_) => bail!("no memory for a row"),
    }
}
