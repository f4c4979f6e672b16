//! The ends of a link to a stub: pieces, pipelines, scripts and unread replies.

use crate::fake_devices::{Taken, Text};
use crate::rig::stub;
use crate::texts::GET;
use proxy_engines::EngineError;
use std::alloc::Global;
use std::io;
use std::io::{ErrorKind, Read, Write};
use std::test::Fail;
use stub_server::{Act, MAX_TAKEN, MAX_UNREAD, StubReader, StubWriter};

// (again if memory was refused)
fn link(alloc: Global, acts: &[Act]) -> Result<(StubReader, StubWriter), EngineError> {
    match stub(alloc, acts) {
        Ok(ends) => Ok(ends),
        Err(_) => stub(alloc, acts),
    }
}

// Reads until nothing came twice. True: the link has ended.
fn listen(reader: &mut StubReader, said: &Taken) -> io::Result<bool> {
    let mut buffer = [0; 64];
    let mut pauses: u8 = 0;
    for _ in 0..u64::MAX {
        match reader.read(&mut buffer) {
            Ok(0) => return Ok(true),
            Ok(count) => keep(said, &buffer[..count])?,
            Err(_) if pauses < 1 => pauses += 1,
            Err(_) => break,
        }
    }
    Ok(false)
}

// (again if memory was refused)
fn keep(said: &Taken, bytes: &[u8]) -> io::Result<()> {
    if said.keep(bytes).is_ok() {
        return Ok(());
    }
    said.keep(bytes)
}

// (again if nothing was taken) Returns the number of bytes taken.
fn say(writer: &mut StubWriter, piece: &[u8]) -> usize {
    for _ in 0..2 {
        if let Ok(count) = writer.write(piece) {
            return count;
        }
    }
    0
}

fn refuses(writer: &mut StubWriter, kind: ErrorKind) -> bool {
    match writer.write(INCR) {
        Ok(_) => false,
        Err(error) => error.kind() == kind,
    }
}

fn is_over(reader: &mut StubReader, writer: &mut StubWriter) -> bool {
    refuses(writer, ErrorKind::BrokenPipe) && matches!(reader.read(&mut [0; 8]), Ok(0))
}

// An empty stub's acts, the requests, the replies, and whether the link has ended then.
type Talk = (&'static [Act], &'static [u8], &'static [u8], bool);

const INCR: &[u8] =
    b"*2\r\n$4\r\nINCR\r\n$1\r\nn\r\n*2\r\n$4\r\nINCR\r\n$1\r\nn\r\n*2\r\n$4\r\nINCR\r\n$1\r\nn\r\n";

const TALKS: &[Talk] = &[
    (
        &[],
        b"*3\r\n$3\r\nSET\r\n$1\r\na\r\n$4\r\n\x00\r\n\xff\r\n*2\r\n$3\r\nGET\r\n$1\r\na\r\n*2\r\n$3\r\nGET\r\n$1\r\nb\r\n",
        b"+OK\r\n$4\r\n\x00\r\n\xff\r\n$-1\r\n",
        false,
    ),
    (&[], INCR, b":1\r\n:2\r\n:3\r\n", false),
    // What isn't answered isn't carried out.
    (&[Act::Garble], INCR, b"?\r\n:1\r\n:2\r\n", false),
    (
        &[Act::Reply, Act::Garble],
        INCR,
        b":1\r\n?\r\n:2\r\n",
        false,
    ),
    (&[Act::Reply, Act::Hold, Act::Reply], INCR, b":1\r\n", false),
    (&[Act::Reply, Act::Drop, Act::Reply], INCR, b":1\r\n", true),
    (&[Act::Drop], INCR, b"", true),
    // A byte that fits no text ends the link after the earlier answers.
    (
        &[],
        b"*2\r\n$4\r\nINCR\r\n$1\r\nn\r\nINCR n\r\n*2\r\n$4\r\nINCR\r\n$1\r\nn\r\n",
        b":1\r\n",
        true,
    ),
    (&[Act::Hold], b"*2\r\n$4\r\nINCR\r\n$1\r\nn\r\n?", b"", true),
];

// Writes the requests in pieces of this length, and reads after each.
fn goes(alloc: Global, talk: &Talk, step: usize) -> Result<bool, Fail> {
    let (acts, asked, answers, ends) = *talk;
    let (mut reader, mut writer) = link(alloc, acts)?;
    let said = Taken::new(alloc);
    let mut has_ended = false;
    for piece in asked.chunks(step.max(1)) {
        say(&mut writer, piece);
        has_ended = listen(&mut reader, &said)?;
    }
    let is_right = said.is(Text::All(answers)) && has_ended == ends;
    let stays = !ends || is_over(&mut reader, &mut writer) && is_over(&mut reader, &mut writer);
    Ok(is_right && stays)
}

// A failure names the index of the talk and the length of the pieces.
#[test]
fn links_serve_by_their_scripts(rt: HostRuntime) -> Result<(), Fail> {
    for (place, talk) in TALKS.iter().enumerate() {
        for step in [1, 7, talk.1.len()] {
            if !goes(rt.alloc(), talk, step)? {
                return Err((place, step).into());
            }
        }
    }
    Ok(())
}

// A SET of 40,000 bytes, and 1,000 times a GET of them.
fn burst(alloc: Global) -> Result<Vec<u8>, Fail> {
    let mut texts = Vec::new(alloc);
    texts.extend_from_slice(b"*3\r\n$3\r\nSET\r\n$1\r\na\r\n$40000\r\n")?;
    texts.extend_from_slice(&[b'v'; 40_000])?;
    texts.extend_from_slice(b"\r\n")?;
    for _ in 0..1_000 {
        texts.extend_from_slice(GET)?;
    }
    Ok(texts)
}

const BURST_ANSWERS: Text = Text::Long(5 + 1_000 * 40_010, b"+OK\r\n$40000\r\nv", b"v\r\n");

// Further requests are taken only as replies are read, and all are answered.
fn holds_back(alloc: Global, asked: &[u8]) -> Result<bool, Fail> {
    let (mut reader, mut writer) = link(alloc, &[])?;
    let said = Taken::new(alloc);
    let is_taken = say(&mut writer, asked) == asked.len().min(MAX_TAKEN);
    let waits = refuses(&mut writer, ErrorKind::WouldBlock);
    let is_open = !listen(&mut reader, &said)?;
    let is_answered = said.is(BURST_ANSWERS) && said.len() > MAX_UNREAD;
    let goes_on = say(&mut writer, INCR) == INCR.len();
    Ok(is_taken && waits && is_open && is_answered && goes_on)
}

#[test]
fn unread_replies_hold_requests_back(rt: HostRuntime) -> Result<(), Fail> {
    let asked = burst(rt.alloc())?;
    if holds_back(rt.alloc(), asked.as_slice())? {
        Ok(())
    } else {
        Err("another talk".into())
    }
}
