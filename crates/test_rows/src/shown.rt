use crate::again;
use crate::text::put_escaped;
use anyhow::Result;
use std::alloc::Global;
use std::fmt::{Debug, Display};

/// The printed form of an answer.
pub fn shown(alloc: Global, answer: impl Display + Drop) -> Result<String> {
    Ok(again!(answer.to_string(alloc))?)
}

/// Bytes with escapes.
pub fn escaped(alloc: Global, bytes: &[u8]) -> Result<String> {
    let mut text = String::new(alloc);
    put_escaped(&mut text, bytes)?;
    Ok(text)
}

/// A refusal's number, name and fields.
pub fn refusal_words(alloc: Global, number: u16, refusal: &impl Debug) -> Result<String> {
    let shown = shown(alloc, format_args!("{number} {refusal:?}"))?;
    again!(without_marks(alloc, shown.as_str()))
}

fn without_marks(alloc: Global, words: &str) -> Result<String> {
    let mut text = String::new(alloc);
    for word in words.split_whitespace() {
        put_word(&mut text, word.trim_end_matches(':'))?;
    }
    Ok(text)
}

fn put_word(text: &mut String, word: &str) -> Result<()> {
    if word == "{" || word == "}" {
        return Ok(());
    }
    if !text.is_empty() {
        text.push(' ')?;
    }
    text.push_str(word)?;
    Ok(())
}
