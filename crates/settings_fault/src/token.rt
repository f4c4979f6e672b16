//! The tokens of JSON that are no sign: texts, numbers and words.

use crate::wanted::Wanted;
use serde_json::Value;
use std::alloc::{AllocError, Global};

/// A piece of the text.
#[derive(Clone, Copy, Drop)]
pub(crate) struct Span {
    pub(crate) start: usize,
    pub(crate) end: usize,
}

impl Span {
    /// Its bytes.
    pub(crate) fn of(self, text: &[u8]) -> &[u8] {
        text.get(self.start..self.end).unwrap_or(&[])
    }
}

/// What is wrong with the text, or that memory was refused.
#[derive(Clone, Copy, Drop)]
pub(crate) enum Refusal {
    Memory,
    /// This stands where JSON wants something else. It is empty at the text's end.
    Syntax { found: Span, wanted: Wanted },
}

impl From<AllocError> for Refusal {
    fn from(_error: AllocError) -> Refusal {
        Refusal::Memory
    }
}

/// The refusal of what stands there.
pub(crate) fn refused(start: usize, end: usize, wanted: Wanted) -> Refusal {
    Refusal::Syntax {
        found: Span { start, end },
        wanted,
    }
}

/// The end of the text that begins with the double quotes there.
pub(crate) fn end_of_text(alloc: Global, text: &[u8], start: usize) -> Result<usize, Refusal> {
    let end = closing_quotes(text, start)?;
    check_escapes(text, start, end)?;
    match value_of(alloc, Span { start, end }.of(text))? {
        Some(_) => Ok(end),
        None => Err(refused(start, end, Wanted::Characters)),
    }
}

// The end behind the closing double quotes.
fn closing_quotes(text: &[u8], start: usize) -> Result<usize, Refusal> {
    let mut escaped = false;
    for at in start..text.len() {
        let byte = text[at];
        if byte < 0x20 {
            return Err(refused(at, at + 1, Wanted::Quotes));
        }
        if byte == b'"' && !escaped && at > start {
            return Ok(at + 1);
        }
        escaped = byte == b'\\' && !escaped;
    }
    Err(refused(text.len(), text.len(), Wanted::Quotes))
}

// Each backslash begins an escape of JSON.
fn check_escapes(text: &[u8], start: usize, end: usize) -> Result<(), Refusal> {
    let mut next = start;
    for at in start..end.min(text.len()) {
        if at < next || text[at] != b'\\' {
            continue;
        }
        let rest = &text[at + 1..];
        match rest.first() {
            Some(b'u') if is_hexadecimal(rest.get(1..5)) => {}
            Some(b'"' | b'\\' | b'/' | b'b' | b'f' | b'n' | b'r' | b't') => {}
            _ => return Err(refused(at, (at + 2).min(end), Wanted::Escape)),
        }
        next = at + 2;
    }
    Ok(())
}

fn is_hexadecimal(digits: Option<&[u8]>) -> bool {
    digits.is_some_and(|digits| digits.iter().all(|digit| digit.is_ascii_hexdigit()))
}

/// The end of the number or word that begins there.
pub(crate) fn end_of_word(
    alloc: Global,
    text: &[u8],
    start: usize,
    wanted: Wanted,
) -> Result<usize, Refusal> {
    let end = word_end(text, start);
    let word = Span { start, end }.of(text);
    match value_of(alloc, word)? {
        Some(_) => Ok(end),
        None if is_number(word) => Err(refused(start, end, Wanted::Number)),
        None => Err(refused(start, end, wanted)),
    }
}

/// The end of what begins there: a text, as far as it goes, a word or a sign.
pub(crate) fn token_end(text: &[u8], start: usize) -> usize {
    match text.get(start) {
        Some(b'"') => closing_quotes(text, start).unwrap_or(word_end(text, start)),
        _ => word_end(text, start),
    }
}

// Where a blank or a sign ends a word. A sign is a word of its own.
fn word_end(text: &[u8], start: usize) -> usize {
    let rest = text.get(start..).unwrap_or(&[]);
    let len = rest
        .iter()
        .position(|byte| is_end(*byte))
        .unwrap_or(rest.len());
    start + len.max(1).min(rest.len())
}

fn is_end(byte: u8) -> bool {
    is_blank(byte) || matches!(byte, b'{' | b'}' | b'[' | b']' | b',' | b':' | b'"')
}

/// Whether JSON skips it between tokens.
pub(crate) fn is_blank(byte: u8) -> bool {
    matches!(byte, b' ' | b'\t' | b'\n' | b'\r')
}

fn is_number(word: &[u8]) -> bool {
    std::str::from_utf8(word).is_ok_and(|text| json::is_number(text))
}

/// The value in the bytes, if they are JSON.
pub(crate) fn value_of(alloc: Global, bytes: &[u8]) -> Result<Option<Value>, AllocError> {
    match Value::from_slice(alloc, bytes) {
        Ok(value) => Ok(Some(value)),
        Err(error) if error.is_memory() => Err(AllocError),
        Err(_) => Ok(None),
    }
}

/// The text that the bytes write in JSON, if they write one.
pub(crate) fn text_of(alloc: Global, bytes: &[u8]) -> Result<Option<String>, AllocError> {
    match value_of(alloc, bytes)? {
        Some(Value::String(text)) => Ok(Some(text)),
        _ => Ok(None),
    }
}
