//! Short notations of long streams.

use anyhow::Result;
use std::alloc::Global;
use test_rows::text::{number, word_bytes};

/// The count and the word of a repetition: `7*a` is `a` seven times.
pub(crate) fn repeated(word: &str) -> (usize, &str) {
    match word.split_once('*') {
        Some((count, piece)) => match count.parse::<usize>() {
            Ok(count) => (count, piece),
            Err(_) => (1, word),
        },
        None => (1, word),
    }
}

/// Concatenates the streams of these words. Each is bytes with escapes or `bulk:LENGTH`, a bulk string of that length,
/// and may be repeated.
pub(crate) fn stream_of(alloc: Global, words: &str) -> Result<Vec<u8>> {
    let mut stream = Vec::new(alloc);
    for word in words.split(' ') {
        put_piece(alloc, &mut stream, word)?;
    }
    Ok(stream)
}

fn put_piece(alloc: Global, stream: &mut Vec<u8>, word: &str) -> Result<()> {
    let (count, word) = repeated(word);
    let piece = match word.strip_prefix("bulk:") {
        Some(length) => bulk_string(alloc, number(length)?)?,
        None => word_bytes(alloc, word)?,
    };
    for _ in 0..count {
        stream.extend_from_slice(piece.as_slice())?;
    }
    Ok(())
}

fn bulk_string(alloc: Global, length: usize) -> Result<Vec<u8>> {
    let mut text = format!(in alloc; "${length}\r\n")?.into_bytes();
    text.resize(text.len().saturating_add(length), 7)?;
    text.extend_from_slice(b"\r\n")?;
    Ok(text)
}
