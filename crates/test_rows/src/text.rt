//! Words, numbers and bytes of the script.
//!
//! A byte stands for itself, or is written `\r`, `\n`, `\\` or `\xNN` with two hexadecimal digits.

use anyhow::{Result, bail};
use std::alloc::Global;
use std::str::FromStr;

/// The first word of a line, and the text behind its space.
pub fn first_word(line: &str) -> (&str, &str) {
    line.split_once(' ').unwrap_or((line, ""))
}

/// The error for an unknown word.
pub fn unknown<T>(kind: &str, word: &str) -> Result<T> {
    bail!("no {kind} is named {word:?}")
}

/// The number in a word.
pub fn number<N: FromStr>(word: &str) -> Result<N>
where
    N::Err: Drop,
{
    match word.parse() {
        Ok(number) => Ok(number),
        Err(_) => bail!("{word:?} is no such number"),
    }
}

/// The bytes of a word; `""` is the empty word.
pub fn word_bytes(alloc: Global, word: &str) -> Result<Vec<u8>> {
    if word == "\"\"" {
        return Ok(Vec::new(alloc));
    }
    unescaped(alloc, word)
}

/// The bytes of a text with escapes.
pub fn unescaped(alloc: Global, text: &str) -> Result<Vec<u8>> {
    let mut bytes = Vec::new(alloc);
    let mut escape = Escape::Outside;
    for byte in text.bytes() {
        let (next, found) = escape.read(byte)?;
        escape = next;
        if let Some(found) = found {
            bytes.push(found)?;
        }
    }
    match escape {
        Escape::Outside => Ok(bytes),
        _ => bail!("an escape is cut off"),
    }
}

/// Appends the bytes as a text with escapes.
pub fn put_escaped(text: &mut String, bytes: &[u8]) -> Result<()> {
    for byte in bytes {
        match *byte {
            b'\r' => text.push_str("\\r")?,
            b'\n' => text.push_str("\\n")?,
            b'\\' => text.push_str("\\\\")?,
            0x20..=0x7E => text.push(char::from(*byte))?,
            other => write!(text, "\\x{other:02x}")?,
        }
    }
    Ok(())
}

#[derive(Clone, Copy)]
enum Escape {
    Outside,
    Begun,
    Hex,
    HexDigit(u32),
}

impl Escape {
    fn read(self, byte: u8) -> Result<(Escape, Option<u8>)> {
        match (self, byte) {
            (Escape::Outside, b'\\') => Ok((Escape::Begun, None)),
            (Escape::Outside, _) => Ok((Escape::Outside, Some(byte))),
            (Escape::Begun, b'r') => Ok((Escape::Outside, Some(b'\r'))),
            (Escape::Begun, b'n') => Ok((Escape::Outside, Some(b'\n'))),
            (Escape::Begun, b'\\') => Ok((Escape::Outside, Some(b'\\'))),
            (Escape::Begun, b'x') => Ok((Escape::Hex, None)),
            (Escape::Begun, _) => bail!("no such escape"),
            (Escape::Hex, _) => Ok((Escape::HexDigit(hex_digit(byte)?), None)),
            (Escape::HexDigit(high), _) => {
                let low = hex_digit(byte)?;
                let whole = u8::try_from(high.saturating_mul(16).saturating_add(low))?;
                Ok((Escape::Outside, Some(whole)))
            }
        }
    }
}

fn hex_digit(byte: u8) -> Result<u32> {
    match char::from(byte).to_digit(16) {
        Some(digit) => Ok(digit),
        None => bail!("no hexadecimal digit"),
    }
}
