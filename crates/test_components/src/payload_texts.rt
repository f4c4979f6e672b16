//! Which payloads lie in their text, and what is written of them.

use bytes::Bytes;
use resp_core::{Limits, Reader, Texts, Value};
use std::alloc::Global;
use std::test::Fail;

// The pieces of a bulk string `abc`, and whether its payload lies in its text.
const STREAMS: &[(&[&[u8]], bool)] = &[
    (&[b"$3\r\nabc\r\n"], true),
    // With bytes behind it.
    (&[b"$3\r\nabc\r\n$"], true),
    // Another spelling.
    (&[b"$03\r\nabc\r\n"], false),
    (&[b"$3\r\nab", b"c\r\n"], false),
    (&[b"$", b"3\r\nabc\r\n"], false),
];

// Whether the payload of the stream's first value, and one that shares it, lie in a text; and what is written of it.
fn first_of(alloc: Global, pieces: &[&[u8]]) -> Result<(bool, Bytes), Fail> {
    let mut reader = Reader::new(alloc, Limits::HOST);
    for piece in pieces {
        if reader.feed(piece).is_err() {
            return Err("refused".into());
        }
        let Ok(came) = reader.next_value() else {
            return Err("refused".into());
        };
        if let Some(value) = came {
            return look(alloc, &value);
        }
    }
    Err("no value".into())
}

fn look(alloc: Global, value: &Value) -> Result<(bool, Bytes), Fail> {
    let Value::Bulk(payload) = value else {
        return Err("no bulk string".into());
    };
    if !value.is_plain() {
        return Err("not plain".into());
    }
    let lies = payload.text().is_some();
    let shared = payload.share()?;
    if shared.text().is_some() != lies {
        return Err("a shared payload lies elsewhere".into());
    }
    Ok((lies, Texts::new(alloc).text_of(value, value.text_len())?))
}

#[test]
fn payloads_lie_in_texts_of_one_spelling(rt: HostRuntime) -> Result<(), Fail> {
    for (place, (pieces, expected)) in STREAMS.iter().enumerate() {
        let (lies, text) = first_of(rt.alloc(), pieces)?;
        if lies != *expected || text.as_slice() != b"$3\r\nabc\r\n".as_slice() {
            return Err(place.into());
        }
    }
    Ok(())
}

fn bulk_of(alloc: Global, len: usize) -> Result<Vec<u8>, Fail> {
    let mut text = Vec::new(alloc);
    text.push(b'$')?;
    text.extend_from_slice(len.to_string(alloc)?.as_bytes())?;
    text.extend_from_slice(b"\r\n")?;
    for _ in 0..len {
        text.push(b'v')?;
    }
    text.extend_from_slice(b"\r\n")?;
    Ok(text)
}

#[test]
fn payloads_of_9_999_bytes_lie_in_texts(rt: HostRuntime) -> Result<(), Fail> {
    for (len, expected) in [(9_999, true), (10_000, false)] {
        let stream = bulk_of(rt.alloc(), len)?;
        let (lies, text) = first_of(rt.alloc(), &[stream.as_slice()])?;
        if lies != expected || text.as_slice() != stream.as_slice() {
            return Err(len.into());
        }
    }
    Ok(())
}
