//! Readers and writers that stop short and pause, and what a writer took.

use std::alloc::Global;
use std::cell::{Cell, RefCell};
use std::io;
use std::io::{ErrorKind, Read, Write};
use stub_server::{StubReader, StubWriter};

#[derive(Clone, Copy)]
pub(crate) enum Feed {
    // A text, and then the end.
    Whole(&'static [u8]),
    // A text, and then pauses.
    Open(&'static [u8]),
    // A text; another one this many times, each after a pause; and then pauses.
    Then(&'static [u8], &'static [u8], u32),
}

impl Feed {
    pub(crate) fn times(self) -> u32 {
        match self {
            Feed::Then(_, _, times) => times,
            _ => 0,
        }
    }

    // The bytes until the next pause; none at the end.
    fn now(self) -> io::Result<&'static [u8]> {
        match self {
            Feed::Whole(text) => Ok(text),
            Feed::Open([]) | Feed::Then([], _, _) => Err(io::Error::from(ErrorKind::WouldBlock)),
            Feed::Open(text) | Feed::Then(text, _, _) => Ok(text),
        }
    }

    fn with(self, left: &'static [u8]) -> Feed {
        match self {
            Feed::Whole(_) => Feed::Whole(left),
            Feed::Open(_) => Feed::Open(left),
            Feed::Then(_, later, times) => Feed::Then(left, later, times),
        }
    }

    fn rested(self) -> Feed {
        match self {
            Feed::Then([], later, times) if times > 0 => Feed::Then(later, later, times - 1),
            feed => feed,
        }
    }
}

#[derive(Drop)]
pub(crate) struct Source<'a> {
    pub(crate) feed: &'a Cell<Feed>,
    pub(crate) most: usize,
}

impl Source<'_> {
    fn give(&self, most: usize) -> io::Result<&'static [u8]> {
        let feed = self.feed.get();
        match feed.now() {
            Ok(now) => {
                let (given, left) = now.split_at(most.min(now.len()));
                self.feed.set(feed.with(left));
                Ok(given)
            }
            Err(pause) => {
                self.feed.set(feed.rested());
                Err(pause)
            }
        }
    }
}

// What a writer must have taken.
#[derive(Clone, Copy)]
pub(crate) enum Text {
    All(&'static [u8]),
    BeginningOf(&'static [u8]),
    // The first text this many times, and then the other.
    Times(&'static [u8], usize, &'static [u8]),
    // This many bytes, with these first and last ones.
    Long(usize, &'static [u8], &'static [u8]),
}

impl Text {
    fn is(self, taken: &[u8]) -> bool {
        match self {
            Text::All(text) => taken == text,
            Text::BeginningOf(text) => text.starts_with(taken),
            Text::Times(text, times, last) => is_repeated(taken, text, times, last),
            Text::Long(len, first, last) => {
                taken.len() == len && taken.starts_with(first) && taken.ends_with(last)
            }
        }
    }
}

fn is_repeated(bytes: &[u8], text: &[u8], times: usize, last: &[u8]) -> bool {
    let (front, behind) = bytes.split_at(text.len().saturating_mul(times).min(bytes.len()));
    front.len() == text.len().saturating_mul(times)
        && front.chunks(text.len().max(1)).all(|piece| piece == text)
        && behind == last
}

// What a writer took, and whether it takes none for now.
#[derive(Drop)]
pub(crate) struct Taken {
    pub(crate) bytes: RefCell<Vec<u8>>,
    pub(crate) is_shut: Cell<bool>,
}

impl Taken {
    pub(crate) fn new(alloc: Global) -> Taken {
        Taken {
            bytes: RefCell::new(Vec::new(alloc)),
            is_shut: Cell::new(false),
        }
    }

    pub(crate) fn is(&self, text: Text) -> bool {
        match self.bytes.try_borrow() {
            Ok(taken) => text.is(taken.as_slice()),
            Err(_) => false,
        }
    }

    pub(crate) fn len(&self) -> usize {
        match self.bytes.try_borrow() {
            Ok(taken) => taken.len(),
            Err(_) => 0,
        }
    }

    pub(crate) fn keep(&self, bytes: &[u8]) -> io::Result<()> {
        match self.bytes.try_borrow_mut() {
            Ok(mut taken) => Ok(taken.extend_from_slice(bytes)?),
            Err(_) => Err(io::Error::from(ErrorKind::WouldBlock)),
        }
    }
}

// The input: a stub's replies, or a text whatever is asked.
pub(crate) enum Reader<'a> {
    Stub(StubReader),
    Text(Source<'a>),
}

impl Drop for Reader<'_> {
    fn drop(self) {
        match self {
            Reader::Stub(stub) => drop(stub),
            Reader::Text(_) => {}
        }
    }
}

impl Read for Reader<'_> {
    fn read(&mut self, buffer: &mut [u8]) -> io::Result<usize> {
        match self {
            Reader::Stub(stub) => stub.read(buffer),
            Reader::Text(source) => {
                let given = source.give(source.most.min(buffer.len()))?;
                let count = given.len().min(buffer.len());
                buffer[..count].copy_from_slice(&given[..count]);
                Ok(count)
            }
        }
    }
}

// The output is kept, at most this many bytes a call, or taken by a stub.
pub(crate) struct Writer<'a> {
    pub(crate) stub: Option<StubWriter>,
    pub(crate) taken: &'a Taken,
    pub(crate) most: usize,
}

impl Drop for Writer<'_> {
    fn drop(self) {
        let Writer {
            stub,
            taken: _,
            most: _,
        } = self;
        drop(stub);
    }
}

impl Write for Writer<'_> {
    fn write(&mut self, bytes: &[u8]) -> io::Result<usize> {
        if self.taken.is_shut.get() {
            return Err(io::Error::from(ErrorKind::WouldBlock));
        }
        let most = match &mut self.stub {
            Some(stub) => stub.write(bytes)?,
            None => self.most.min(bytes.len()),
        };
        self.taken.keep(&bytes[..most])?;
        Ok(most)
    }

    fn flush(&mut self) -> io::Result<()> {
        Ok(())
    }
}
