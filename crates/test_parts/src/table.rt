//! Rows of the command table: names, and their entries.

use anyhow::Result;
use command_table::look;
use std::alloc::Global;
use test_rows::again;
use test_rows::series::Series;
use test_rows::shown::shown;
use test_rows::text::{first_word, unknown, word_bytes};

/// Makes one action: `look NAME`, or `alike NAMES`, which counts neighbouring names with equal entries.
pub(crate) fn act(alloc: Global, line: &str) -> Result<String> {
    let (verb, rest) = first_word(line);
    match verb {
        "look" => again!(entry_text(alloc, rest)),
        "alike" => again!(runs(alloc, rest)),
        _ => unknown("action", verb),
    }
}

// The kind of a name, its name in the table, and its numbers.
fn entry_text(alloc: Global, word: &str) -> Result<String> {
    let name = word_bytes(alloc, word)?;
    match look(name.as_slice()) {
        None => shown(alloc, "None"),
        Some(entry) => {
            let (kind, name, least, key_at) = (entry.kind, entry.name, entry.least, entry.key_at);
            shown(
                alloc,
                format_args!("{kind:?} {name}, least {least}, key_at {key_at}"),
            )
        }
    }
}

fn runs(alloc: Global, names: &str) -> Result<String> {
    let mut series = Series::new(alloc);
    for name in names.split(' ') {
        series.add(kind_text(alloc, name)?)?;
    }
    series.text()
}

// The same without the name, which must equal the table's but for case.
fn kind_text(alloc: Global, name: &str) -> Result<String> {
    match look(name.as_bytes()) {
        None => shown(alloc, "None"),
        Some(entry) if !entry.name.eq_ignore_ascii_case(name) => entry_text(alloc, name),
        Some(entry) => {
            let (kind, least, key_at) = (entry.kind, entry.least, entry.key_at);
            shown(
                alloc,
                format_args!("{kind:?}, least {least}, key_at {key_at}"),
            )
        }
    }
}
