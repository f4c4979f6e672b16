use crate::text::{first_word, number, unescaped, word_bytes};
use anyhow::{Result, bail};
use bytes::Bytes;
use resp_core::{Limits, Payload, Reader, SpelledCommand, Value, Values, put_text};
use splitter::Request;
use std::alloc::Global;

const BIG_MEMBERS: usize = 1_024;

const BIG_PAYLOAD: usize = 65_526;

// 7 for the count, 1,023 members, and 10 around the first payload, whose length has five digits.
const BIG_REST: usize = 7 + 1_023 * 65_536 + 10;

/// The value of a RESP2 text with escapes; after `simple`, a simple string of any bytes.
pub fn value_of(alloc: Global, text: &str) -> Result<Value> {
    match text.strip_prefix("simple ") {
        Some(line) => Ok(Value::Simple(bytes_of(alloc, line)?)),
        None => read_value(alloc, text),
    }
}

/// The bytes of a text with escapes.
pub fn bytes_of(alloc: Global, text: &str) -> Result<Bytes> {
    Ok(Bytes::from_vec(unescaped(alloc, text)?)?)
}

fn read_value(alloc: Global, text: &str) -> Result<Value> {
    let mut reader = fed_reader(alloc, text)?;
    let value = first_value(&mut reader);
    drop(reader);
    value
}

fn first_value(reader: &mut Reader) -> Result<Value> {
    match reader.next_value()? {
        Some(value) => Ok(value),
        None => bail!("the value is cut off"),
    }
}

/// A reader that was fed a text with escapes.
pub fn fed_reader(alloc: Global, text: &str) -> Result<Reader> {
    let bytes = unescaped(alloc, text)?;
    let mut reader = Reader::new(alloc, Limits::HOST);
    match reader.feed(bytes.as_slice()) {
        Ok(()) => Ok(reader),
        Err(refusal) => {
            drop(reader);
            Err(refusal.into())
        }
    }
}

/// The request in the words behind a connection: `broken`, `value VALUE`, `many NAME KEYS`, `bytes LENGTH`, or the
/// words of a command.
pub fn request_of(alloc: Global, words: &str) -> Result<Request> {
    let (kind, rest) = first_word(words);
    match kind {
        "broken" => Ok(Request::Broken),
        "value" => Ok(Request::Read(value_of(alloc, rest)?)),
        "many" => many(alloc, rest),
        "bytes" => big(alloc, number(rest)?),
        _ => as_read(alloc, command(alloc, words)?),
    }
}

/// The request of a command, as it is read: a short command is its text.
pub fn as_read(alloc: Global, command: Value) -> Result<Request> {
    match as_text(alloc, &command)? {
        Some(text) => {
            drop(command);
            Ok(Request::Spelled(text))
        }
        None => Ok(Request::Read(command)),
    }
}

/// The same command as its text, if it is short.
pub fn as_text(alloc: Global, command: &Value) -> Result<Option<SpelledCommand>> {
    if !command.is_plain() {
        return Ok(None);
    }
    let mut text = Vec::new(alloc);
    put_text(alloc, command, &mut text)?;
    Ok(SpelledCommand::of(Bytes::from_vec(text)?))
}

/// The command of these words.
pub fn command(alloc: Global, line: &str) -> Result<Value> {
    let mut words = Vec::new(alloc);
    for word in line.split(' ') {
        words.push(bulk(alloc, word)?)?;
    }
    Ok(Value::List(Values(words)))
}

/// The bulk string of a word.
pub fn bulk(alloc: Global, word: &str) -> Result<Value> {
    Ok(Value::Bulk(Payload::new(Bytes::from_vec(word_bytes(alloc, word)?)?)))
}

fn many(alloc: Global, words: &str) -> Result<Request> {
    let (name, keys) = first_word(words);
    let mut members = Vec::new(alloc);
    put_copies(alloc, &mut members, 1, bulk(alloc, name)?)?;
    put_copies(alloc, &mut members, number(keys)?, bulk(alloc, "a")?)?;
    Ok(Request::Read(Value::List(Values(members))))
}

// A list of bulk strings of zeros, whose text has this length.
fn big(alloc: Global, length: usize) -> Result<Request> {
    let Some(first) = length.checked_sub(BIG_REST) else {
        bail!("a request of so few bytes");
    };
    if !(10_000..100_000).contains(&first) {
        bail!("a request of so many bytes");
    }
    let mut members = Vec::new(alloc);
    put_copies(alloc, &mut members, 1, zeros(alloc, first)?)?;
    put_copies(
        alloc,
        &mut members,
        BIG_MEMBERS - 1,
        zeros(alloc, BIG_PAYLOAD)?,
    )?;
    Ok(Request::Read(Value::List(Values(members))))
}

/// Appends a value `count` times.
pub fn put_copies(
    alloc: Global,
    members: &mut Vec<Value>,
    count: usize,
    value: Value,
) -> Result<()> {
    let put = put_shared(alloc, members, count, &value);
    drop(value);
    put
}

fn put_shared(alloc: Global, members: &mut Vec<Value>, count: usize, value: &Value) -> Result<()> {
    for _ in 0..count {
        members.push(value.share(alloc)?)?;
    }
    Ok(())
}

fn zeros(alloc: Global, count: usize) -> Result<Value> {
    let bytes = vec![in alloc; 0u8; count]?;
    Ok(Value::Bulk(Payload::new(Bytes::from_vec(bytes)?)))
}
