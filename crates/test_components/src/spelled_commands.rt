//! Which commands a reader gives as their texts.

use resp_core::{Limits, Reader};
use std::alloc::Global;
use std::test::Fail;

// A stream, and how many of its bytes are given as one text.
const STREAMS: &[(&[u8], Option<usize>)] = &[
    (b"*2\r\n$3\r\nGET\r\n$1\r\na\r\n", Some(20)),
    (b"*1\r\n$4\r\nPING\r\n*1\r\n$4\r\nPING\r\n", Some(14)),
    // No command of the table, and an empty name.
    (b"*1\r\n$1\r\n?\r\n", Some(11)),
    (b"*1\r\n$0\r\n\r\n", Some(10)),
    // Nine words and ten.
    (
        b"*9\r\n$4\r\nMGET\r\n$1\r\na\r\n$1\r\na\r\n$1\r\na\r\n$1\r\na\r\n$1\r\na\r\n$1\r\na\r\n$1\r\na\r\n$1\r\na\r\n",
        Some(70),
    ),
    (
        b"*10\r\n$4\r\nMGET\r\n$1\r\na\r\n$1\r\na\r\n$1\r\na\r\n$1\r\na\r\n$1\r\na\r\n$1\r\na\r\n$1\r\na\r\n$1\r\na\r\n$1\r\na\r\n",
        None,
    ),
    // Not all has come.
    (b"*2\r\n$3\r\nGET\r\n$1\r\na\r", None),
    // Another spelling.
    (b"*01\r\n$4\r\nPING\r\n", None),
    (b"*1\r\n$04\r\nPING\r\n", None),
    (b"*0\r\n", None),
    (b"*1\r\n$-1\r\n", None),
    (b"*1\r\n:1\r\n", None),
    (b"+PING\r\n", None),
    (b"*1\r\n$4\r\nPING\n\r", None),
];

fn text_of(alloc: Global, stream: &[u8]) -> Result<Option<usize>, Fail> {
    let mut reader = Reader::new(alloc, Limits::CLIENT);
    if reader.feed(stream).is_err() {
        return Err("refused".into());
    }
    let given = reader.next_spelled()?;
    Ok(match &given {
        Some(command) => Some(command.text().len()),
        None => None,
    })
}

#[test]
fn short_commands_are_given_as_texts(rt: HostRuntime) -> Result<(), Fail> {
    for (place, (stream, expected)) in STREAMS.iter().enumerate() {
        if text_of(rt.alloc(), stream)? != *expected {
            return Err(place.into());
        }
    }
    Ok(())
}

// The length of the key has three digits.
fn get_of(alloc: Global, key: usize) -> Result<Vec<u8>, Fail> {
    let mut text = Vec::new(alloc);
    text.extend_from_slice(b"*2\r\n$3\r\nGET\r\n$")?;
    for unit in [100, 10, 1] {
        text.push(b'0' + (key / unit % 10) as u8)?;
    }
    text.extend_from_slice(b"\r\n")?;
    for _ in 0..key {
        text.push(b'k')?;
    }
    text.extend_from_slice(b"\r\n")?;
    Ok(text)
}

#[test]
fn texts_have_512_bytes_at_most(rt: HostRuntime) -> Result<(), Fail> {
    let (longest, longer) = (get_of(rt.alloc(), 491)?, get_of(rt.alloc(), 492)?);
    assert!(rt; text_of(rt.alloc(), longest.as_slice())? == Some(512));
    assert!(rt; text_of(rt.alloc(), longer.as_slice())?.is_none());
    Ok(())
}
