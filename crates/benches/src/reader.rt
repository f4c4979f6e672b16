//! The speed of reading values from a stream.

use anyhow::Result;
use resp_core::{Limits, Reader, RespError};
use std::alloc::Global;
use std::rt::Clock;
use std::time::{Duration, Instant};

const PIECES: [usize; 2] = [16_384, 1];

type Repeated = &'static [(&'static [u8], usize)];

#[derive(Clone, Copy)]
struct Stream {
    name: &'static str,
    head: &'static [u8],
    text: Repeated,
    times: usize,
}

const COMMAND: Repeated = &[
    (b"*3\r\n$3\r\nSET\r\n$64\r\n", 1),
    (b"k", 64),
    (b"\r\n$64\r\n", 1),
    (b"v", 64),
    (b"\r\n", 1),
];

const BULK: Repeated = &[(b"$1048576\r\n", 1), (b"x", 1_048_576), (b"\r\n", 1)];

const INTEGERS: Repeated = &[(b"*1000\r\n", 1), (b":7\r\n", 1_000)];

// Some 4 MB each, except for the third one.
const STREAMS: [Stream; 4] = [
    Stream {
        name: "commands of three words, two of 64 bytes",
        head: b"",
        text: COMMAND,
        times: 25_000,
    },
    Stream {
        name: "bulk strings of 1,048,576 bytes",
        head: b"",
        text: BULK,
        times: 4,
    },
    Stream {
        name: "an array of 250 arrays of 1,000 integers",
        head: b"*250\r\n",
        text: INTEGERS,
        times: 250,
    },
    Stream {
        name: "an array of 1,000 arrays of 1,000 integers",
        head: b"*1000\r\n",
        text: INTEGERS,
        times: 1_000,
    },
];

/// Prints for each stream and length of pieces the bytes a second that are read, and those that are copied.
pub(crate) fn print<R: Clock + Print>(rt: &R, alloc: Global) -> Result<()> {
    for stream in &STREAMS {
        let bytes = stream.bytes(alloc)?;
        print_pieces(rt, alloc, stream.name, bytes.as_slice())?;
    }
    Ok(())
}

fn print_pieces<R: Clock + Print>(rt: &R, alloc: Global, name: &str, bytes: &[u8]) -> Result<()> {
    for piece in PIECES {
        let read = time_read(rt, alloc, bytes, piece)?;
        let copied = time_copied(rt, alloc, bytes, piece)?;
        print_speeds(rt, name, (bytes.len(), piece), (read, copied))?;
    }
    Ok(())
}

fn print_speeds<R: Print>(
    rt: &R,
    name: &str,
    (len, piece): (usize, usize),
    (read, copied): (Duration, Duration),
) -> Result<()> {
    let read = bytes_a_second(len, read);
    let copied = bytes_a_second(len, copied);
    println!(rt;
        "{name}, {len} bytes in pieces of {piece}: {read} bytes a second, a plain copy {copied}"
    )?;
    Ok(())
}

impl Stream {
    fn bytes(&self, alloc: Global) -> Result<Vec<u8>> {
        let mut bytes = Vec::new(alloc);
        bytes.extend_from_slice(self.head)?;
        for _ in 0..self.times {
            put(&mut bytes, self.text)?;
        }
        Ok(bytes)
    }
}

fn put(bytes: &mut Vec<u8>, text: Repeated) -> Result<()> {
    for (part, times) in text {
        for _ in 0..*times {
            bytes.extend_from_slice(part)?;
        }
    }
    Ok(())
}

fn time_read<R: Clock>(rt: &R, alloc: Global, bytes: &[u8], piece: usize) -> Result<Duration> {
    let start = Instant::now(rt)?;
    read(alloc, bytes, piece)?;
    Ok(start.elapsed(rt)?)
}

// In pieces of this length.
fn read(alloc: Global, bytes: &[u8], piece: usize) -> std::result::Result<(), RespError> {
    let mut reader = Reader::new(alloc, Limits::CLIENT);
    let was_read = read_with(&mut reader, bytes, piece);
    drop(reader);
    was_read
}

fn read_with(
    reader: &mut Reader,
    bytes: &[u8],
    piece: usize,
) -> std::result::Result<(), RespError> {
    for piece in bytes.chunks(piece.max(1)) {
        reader.feed(piece)?;
        take_values(reader, piece.len())?;
    }
    Ok(())
}

fn take_values(reader: &mut Reader, most: usize) -> std::result::Result<(), RespError> {
    for _ in 0..=most {
        let value = reader.next_value()?;
        let is_none = value.is_none();
        drop(value);
        if is_none {
            break;
        }
    }
    Ok(())
}

fn time_copied<R: Clock>(rt: &R, alloc: Global, bytes: &[u8], piece: usize) -> Result<Duration> {
    let start = Instant::now(rt)?;
    let mut copy = Vec::new(alloc);
    for piece in bytes.chunks(piece.max(1)) {
        copy.extend_from_slice(piece)?;
    }
    Ok(start.elapsed(rt)?)
}

fn bytes_a_second(bytes: usize, elapsed: Duration) -> u64 {
    (bytes as u64).saturating_mul(1_000_000) / micros(elapsed).max(1)
}

fn micros(elapsed: Duration) -> u64 {
    elapsed
        .as_secs()
        .saturating_mul(1_000_000)
        .saturating_add(u64::from(elapsed.subsec_micros()))
}
