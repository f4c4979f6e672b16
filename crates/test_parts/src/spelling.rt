//! Values in their one spelling.

use anyhow::Result;
use resp_core::{Reader, Value, put_text};
use std::alloc::Global;
use test_rows::again;
use test_rows::shown::{escaped, shown};
use test_rows::values::fed_reader;

/// The value's one spelling, with escapes.
pub(crate) fn spelling(alloc: Global, value: &Value) -> Result<String> {
    if !value.is_plain() {
        return shown(alloc, "not plain");
    }
    let mut bytes = Vec::new(alloc);
    put_text(alloc, value, &mut bytes)?;
    escaped(alloc, bytes.as_slice())
}

/// The same, for a value that is then dropped.
pub(crate) fn spelled(alloc: Global, value: Value) -> Result<String> {
    let text = again!(spelling(alloc, &value));
    drop(value);
    text
}

/// The same, or the word for none.
pub(crate) fn spelled_or_nothing(alloc: Global, value: Option<Value>) -> Result<String> {
    match value {
        Some(value) => spelled(alloc, value),
        None => shown(alloc, "nothing"),
    }
}

/// The complete values of a text with escapes.
pub(crate) fn values_of(alloc: Global, text: &str) -> Result<Vec<Value>> {
    let mut reader = fed_reader(alloc, text)?;
    let values = all_values(alloc, &mut reader, text.len());
    drop(reader);
    values
}

// There is at most one value for each byte.
fn all_values(alloc: Global, reader: &mut Reader, most: usize) -> Result<Vec<Value>> {
    let mut values = Vec::new(alloc);
    for _ in 0..most {
        match reader.next_value()? {
            Some(value) => values.push(value)?,
            None => break,
        }
    }
    Ok(values)
}
