//! Rows of the settings file: a file's text, and the line or error printed for it.

use anyhow::{Result, bail};
use proxy_config::{ConfigError, check_line};
use std::alloc::Global;
use test_rows::again;
use test_rows::series::Series;
use test_rows::shown::{escaped, shown};
use test_rows::text::{first_word, number, unescaped, unknown};

/// Makes one action: `check TEXT`, `values KEY TEXT TEXT ..`, `cuts TEXT`, `nested N` or `long N`. `values` makes for
/// each value a file with one host and the value at this key. `cuts` takes each proper beginning of the text. `nested`
/// has N nested arrays at a key, and `long` a text of N bytes.
pub(crate) fn act(alloc: Global, line: &str) -> Result<String> {
    again!(told(alloc, line))
}

fn told(alloc: Global, line: &str) -> Result<String> {
    let (verb, rest) = first_word(line);
    match verb {
        "check" => told_of(alloc, unescaped(alloc, rest)?.as_slice()),
        "values" => many_values(alloc, rest),
        "cuts" => beginnings(alloc, rest),
        "nested" => nested(alloc, number(rest)?),
        "long" => long(alloc, number(rest)?),
        _ => unknown("action", verb),
    }
}

fn told_of(alloc: Global, bytes: &[u8]) -> Result<String> {
    match checked(alloc, bytes)? {
        Ok(line) => escaped(alloc, line.as_bytes()),
        Err(words) => shown(alloc, format_args!("settings: {words}")),
    }
}

// Turns want of memory into a failure, so that the call is made again.
fn checked(alloc: Global, bytes: &[u8]) -> Result<Result<String, &'static str>> {
    match check_line(alloc, bytes) {
        Ok(line) => Ok(Ok(line)),
        Err(ConfigError::Fault(words)) => Ok(Err(words)),
        Err(ConfigError::Memory) => bail!("out of memory"),
    }
}

fn many_values(alloc: Global, words: &str) -> Result<String> {
    let (key, values) = first_word(words);
    let mut series = Series::new(alloc);
    for value in values.split(' ') {
        series.add(told_with(alloc, key, value)?)?;
    }
    series.text()
}

fn told_with(alloc: Global, key: &str, value: &str) -> Result<String> {
    let file = format!(in alloc; "{{\"hosts\":[\"127.0.0.1:7001\"],\"{key}\":{value}}}")?;
    told_of(alloc, file.as_bytes())
}

fn beginnings(alloc: Global, text: &str) -> Result<String> {
    let bytes = unescaped(alloc, text)?;
    let mut series = Series::new(alloc);
    for end in 0..bytes.len() {
        series.add(told_of(alloc, &bytes.as_slice()[..end])?)?;
    }
    series.text()
}

fn nested(alloc: Global, depth: usize) -> Result<String> {
    let (opening, closing) = (of_one(alloc, '[', depth)?, of_one(alloc, ']', depth)?);
    let value = format!(in alloc; "{opening}{closing}")?;
    told_with(alloc, "workers", value.as_str())
}

fn long(alloc: Global, len: usize) -> Result<String> {
    let letters = of_one(alloc, 'x', len)?;
    let value = format!(in alloc; "\"{letters}\"")?;
    told_with(alloc, "listen", value.as_str())
}

fn of_one(alloc: Global, letter: char, count: usize) -> Result<String> {
    let mut text = String::new(alloc);
    for _ in 0..count {
        text.push(letter)?;
    }
    Ok(text)
}
