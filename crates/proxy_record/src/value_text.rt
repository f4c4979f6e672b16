//! Values and words, as a line has them.
ghost use Rattle.std.specs.Prelude.{◌≡◌, ◌++◌, OnOk, [], true, map};
ghost use Rattle.resp_core.specs.Tree.{trees_of};
ghost use Rattle.resp_core.specs.Value.{tree_of};
ghost use Rattle.resp_core.specs.Command.{are_words, payload_of};
ghost use Rattle.proxy_record.specs.Values.{bulk_text, digits_text, is_own, is_own_by_beginning, is_own_text, list_text, members_text, quoted_own, value_text, whole_text, words_text};

use crate::payloads::Payloads;
use crate::pieces::push_piece;
use itoa::Buffer;
use resp_core::{Value, Values};
use std::alloc::AllocError;

/// Appends a value. An integer that isn't within an array stands in the clear where `is_sum`.
#[cycle(value)]
pub(crate) fn push_value(
    value: &Value,
    payloads: &Payloads,
    is_sum: bool,
    line: &mut Vec<u8>,
) -> Result<(), AllocError>
    ensures { OnOk result (line.new.items
        ≡ line.old.items ++ value_text payloads.now is_sum (tree_of value.now)) }
{
    match value {
        Value::Simple(text) => push_own("[\"+\", \"", text.as_slice(), payloads, line),
        Value::Fault(text) => push_own("[\"-\", \"", text.as_slice(), payloads, line),
        Value::Whole(n) => push_whole(Buffer::new().format(*n), payloads, is_sum, line),
        Value::Bulk(payload) => push_bulk(payload.as_slice(), payloads, line),
        Value::NullBulk => push_piece(line, "[\"$\"]"),
        Value::List(values) => push_list(values, payloads, line),
        Value::NullList => push_piece(line, "[\"*\"]"),
    }
}

#[cycle(value)]
fn push_list(values: &Values, payloads: &Payloads, line: &mut Vec<u8>) -> Result<(), AllocError>
    ensures { OnOk result (line.new.items
        ≡ line.old.items ++ list_text payloads.now (trees_of values.now)) }
{
    push_piece(line, "[\"*\", [")?;
    push_members(values, payloads, line)?;
    push_piece(line, "]]")
}

#[cycle(value)]
fn push_members(values: &Values, payloads: &Payloads, line: &mut Vec<u8>) -> Result<(), AllocError>
    ensures { OnOk result (line.new.items
        ≡ line.old.items ++ members_text payloads.now [] (trees_of values.now)) }
{
    let mut before = b"".as_slice();
    for value in &values.0 {
        line.extend_from_slice(before)?;
        push_value(value, payloads, false, line)?;
        before = b", ".as_slice();
    }
    Ok(())
}

fn push_own(
    before: &str,
    bytes: &[u8],
    payloads: &Payloads,
    line: &mut Vec<u8>,
) -> Result<(), AllocError>
    ensures { OnOk result (line.new.items
        ≡ line.old.items ++ quoted_own before.now payloads.now bytes.now) }
{
    push_piece(line, before)?;
    payloads.push_leaf_if(is_own(bytes), bytes, line)?;
    push_piece(line, "\"]")
}

fn push_bulk(bytes: &[u8], payloads: &Payloads, line: &mut Vec<u8>) -> Result<(), AllocError>
    ensures { OnOk result (line.new.items
        ≡ line.old.items ++ bulk_text payloads.now bytes.now) }
{
    push_piece(line, "[\"$\", \"")?;
    payloads.push_leaf(bytes, line)?;
    push_piece(line, "\"]")
}

fn push_whole(
    digits: &str,
    payloads: &Payloads,
    is_sum: bool,
    line: &mut Vec<u8>,
) -> Result<(), AllocError>
    ensures { OnOk result (line.new.items
        ≡ line.old.items ++ whole_text payloads.now is_sum digits.now) }
{
    push_piece(line, "[\":\", \"")?;
    push_digits(digits, payloads, is_sum, line)?;
    push_piece(line, "\"]")
}

fn push_digits(
    digits: &str,
    payloads: &Payloads,
    is_sum: bool,
    line: &mut Vec<u8>,
) -> Result<(), AllocError>
    ensures { OnOk result (line.new.items
        ≡ line.old.items ++ digits_text payloads.now is_sum digits.now) }
{
    match payloads {
        Payloads::Clear => push_piece(line, digits),
        Payloads::Hashed { .. } => {
            if is_sum {
                push_piece(line, digits)
            } else {
                payloads.push_leaf(digits.as_bytes(), line)
            }
        }
    }
}

// Whether a simple string or an error stands in the clear.
fn is_own(bytes: &[u8]) -> bool
    ensures { result ≡ is_own bytes.now }
{
    is_own_text(bytes) || is_own_by_beginning(bytes)
}

fn is_own_text(bytes: &[u8]) -> bool
    ensures { result ≡ is_own_text bytes.now }
{
    bytes == "PONG".as_bytes()
        || bytes == "OK".as_bytes()
        || bytes == "invalid request".as_bytes()
        || bytes == "no upstream host".as_bytes()
        || bytes == "upstream failure".as_bytes()
        || bytes == "upstream protocol error".as_bytes()
        || bytes == "proxy busy".as_bytes()
        || bytes == "downstream protocol error".as_bytes()
}

fn is_own_by_beginning(bytes: &[u8]) -> bool
    ensures { result ≡ is_own_by_beginning bytes.now }
{
    bytes.starts_with("unsupported command '".as_bytes())
        || bytes.starts_with("wrong number of arguments for '".as_bytes())
        || bytes.starts_with("finished with ".as_bytes())
}

/// Appends the words of a command: its name in the clear, and the others' leaves.
pub(crate) fn push_words(
    words: &Values,
    payloads: &Payloads,
    line: &mut Vec<u8>,
) -> Result<(), AllocError>
    requires { are_words words.now ≡ true }
    ensures { OnOk result (line.new.items
        ≡ line.old.items ++ words_text payloads.now (map payload_of words.now)) }
{
    push_piece(line, "\"words\": [\"")?;
    payloads.push_leaf_if(true, words.word(0).as_slice(), line)?;
    for at in 1..words.0.len() {
        push_piece(line, "\", \"")?;
        payloads.push_leaf(words.word(at).as_slice(), line)?;
    }
    push_piece(line, "\"]")
}
