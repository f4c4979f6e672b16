//! The owners of all keys that a reader has.
ghost use Rattle.std.specs.Prelude.{◌≡◌, ◌<◌, ◌≤◌, ◌++◌, List, ℕ, length, take, IfOk, IfSome, OnOk};
ghost use Rattle.std.specs.Io.KnownBytes.{Appends, Consumes, IsAtEnd};
ghost use Rattle.key_owners.specs.Lines.{EndsWith, TakesIn, TellsOfAll};

use crate::error::{KeyFault, TellError};
use crate::lines::KeyLines;
use limits::READ_SIZE;
use std::alloc::Global;
use std::io::{Read, Write};

/// Reads lines until the input ends, and writes what is told of each read.
///
/// Refused with `Device` if a stream fails, and with `Key` as [`KeyLines::take`]; what is told before is written.
pub fn tell_owners<R: Read, W: Write>(
    alloc: Global,
    lines: &mut KeyLines,
    reader: &mut R,
    writer: &mut W,
) -> Result<(), TellError>
    ensures { OnOk result (IfSome (R.remaining reader.old) (λ bytes. (text : List ℕ)
        × TellsOfAll lines.old bytes text
        × Appends (W.contents writer.old) (W.contents writer.new) text)) }
{
    let mut buffer = [0; READ_SIZE];
    let mut out = Vec::new(alloc);
    lines.takes_nothing();
    for _ in 0..u64::MAX {
        let n = read(reader, &mut buffer)?;
        if n == 0 {
            return finish(alloc, lines, writer);
        }
        take(alloc, lines, &buffer[..n], &mut out, writer)?;
    }
    Err(TellError::Device)
}

fn read<R: Read>(reader: &mut R, buffer: &mut [u8; READ_SIZE]) -> Result<usize, TellError>
    ensures bytes { IfOk result (λ n. Consumes (R.remaining reader.old) (R.remaining reader.new)
        (take n buffer.new)) }
    ensures end { IfOk result (λ n. n ≡ 0 → IsAtEnd (R.remaining reader.new)) }
    ensures bound { IfOk result (λ n. n ≤ READ_SIZE) }
{
    match reader.read(buffer) {
        Ok(n) => Ok(n),
        Err(_) => Err(TellError::Device),
    }
}

fn take<W: Write>(
    alloc: Global,
    lines: &mut KeyLines,
    bytes: &[u8],
    out: &mut Vec<u8>,
    writer: &mut W,
) -> Result<(), TellError>
    ensures { OnOk result ((text : List ℕ) × TakesIn lines.old bytes.now lines.new text
        × Appends (W.contents writer.old) (W.contents writer.new) text) }
{
    out.clear();
    let taken = lines.take(alloc, bytes, out);
    if taken == Err(KeyFault::NoMemory) {
        return Err(TellError::Key(KeyFault::NoMemory));
    }
    if writer.write_all(out).is_err() {
        return Err(TellError::Device);
    }
    taken?;
    Ok(())
}

// The last line.
fn finish<W: Write>(alloc: Global, lines: &KeyLines, writer: &mut W) -> Result<(), TellError>
    ensures { OnOk result ((text : List ℕ) × EndsWith lines.now text
        × Appends (W.contents writer.old) (W.contents writer.new) text) }
{
    let mut out = Vec::new(alloc);
    lines.finish(alloc, &mut out)?;
    if writer.write_all(&out).is_err() || writer.flush().is_err() {
        return Err(TellError::Device);
    }
    Ok(())
}
