//! The one spelling of a value.
ghost use Rattle.std.specs.Prelude.{◌≡◌, ◌≤◌, ◌^◌, ◌+◌, ◌++◌, ◌∷◌, [], length, OnOk, OnErr, IsTrue, IsErrOf};
ghost use Rattle.std.specs.Fmt.{decimal, signed_decimal};
ghost use Rattle.resp_core.specs.Tree.{bulk, list, is_plain_tree, trees_of};
ghost use Rattle.resp_core.specs.Stream.{told_offset};
ghost use Rattle.resp_core.specs.Text.{text, texts, line, line_end, Extends};
ghost use Rattle.resp_core.specs.Value.{tree_of};

use crate::error::RespError;
use crate::payload::Payload;
use crate::sink::Sink;
use crate::value::{Value, Values};
use itoa::{Buffer, write_digits};
use std::alloc::{AllocError, Global};

const MAX_DIGITS: usize = 20;

const EMPTY_HEAD: [u8; 23] = *b"000000000000000000000\r\n";

/// Appends the one spelling of the value, or nothing.
///
/// Lengths and integers have no plus sign and no leading zeros. The value must be plain (`Value::is_plain`).
/// Refused 101 (no memory): nothing is appended.
pub fn put_text(_alloc: Global, value: &Value, out: &mut Vec<u8>) -> Result<(), RespError>
    requires { IsTrue (is_plain_tree (tree_of value.now)) }
    ensures ok { OnOk result (out.new.items ≡ out.old.items ++ text (tree_of value.now)) }
    ensures err { OnErr result (out.new.items ≡ out.old.items) }
    ensures memory { OnErr result (IsErrOf result RespError.NoMemory) }
{
    let len = out.len();
    out.reserve(value.text_len() as usize)?;
    if append_value(value, out).is_err() {
        out.truncate(len);
        return Err(RespError::NoMemory);
    }
    Ok(())
}

/// Appends the text of a bulk string with this payload, or nothing. Refused only for want of memory.
#[inline(always)]
pub fn put_bulk(payload: &[u8], out: &mut Vec<u8>) -> Result<(), AllocError>
    ensures ok { OnOk result (out.new.items ≡ out.old.items ++ text (bulk payload.now)) }
    ensures err { OnErr result (out.new.items ≡ out.old.items) }
{
    let before = out.len();
    out.reserve(bulk_len(payload.len() as u64) as usize)?;
    if append_bulk(payload, out).is_err() {
        out.truncate(before);
        return Err(AllocError);
    }
    Ok(())
}

/// Appends these bytes, and the text of a bulk string with this payload; or nothing. Refused only for want of
/// memory.
#[inline(always)]
pub fn put_bulk_behind(head: &[u8], payload: &[u8], out: &mut Vec<u8>) -> Result<(), AllocError>
    ensures ok { OnOk result
        (out.new.items ≡ out.old.items ++ head.now ++ text (bulk payload.now)) }
    ensures err { OnErr result (out.new.items ≡ out.old.items) }
{
    let before = out.len();
    if append_behind(head, payload, out).is_err() {
        out.truncate(before);
        return Err(AllocError);
    }
    Ok(())
}

// Where memory is refused, a part may have been appended.
#[inline(always)]
pub(crate) fn append_behind<S: Sink>(
    head: &[u8],
    payload: &[u8],
    out: &mut S,
) -> Result<(), AllocError>
    ensures ok { OnOk result (S.written out.new
        ≡ S.written out.old ++ head.now ++ text (bulk payload.now)) }
    ensures err { OnErr result (Extends (S.written out.old) (S.written out.new)) }
{
    out.reserve(head.len())?;
    out.put_reserved(head);
    append_bulk(payload, out)
}

/// Where memory is refused, a part may have been appended.
#[cycle(text)]
pub(crate) fn append_value<S: Sink>(value: &Value, out: &mut S) -> Result<(), AllocError>
    ensures ok { OnOk result (S.written out.new ≡ S.written out.old ++ text (tree_of value.now)) }
    ensures err { OnErr result (Extends (S.written out.old) (S.written out.new)) }
{
    match value {
        Value::Simple(text) => append_line(b'+', text.as_slice(), out),
        Value::Fault(text) => append_line(b'-', text.as_slice(), out),
        Value::Whole(n) => append_line(b':', Buffer::new().format(*n).as_bytes(), out),
        Value::Bulk(payload) => append_payload(payload, out),
        Value::NullBulk => append_line(b'$', b"-1", out),
        Value::List(values) => append_list(values, out),
        Value::NullList => append_line(b'*', b"-1", out),
    }
}

#[cycle(text)]
#[tactic(auto, using(crate::proofs::TreeLemmas::length_members))]
fn append_list<S: Sink>(values: &Values, out: &mut S) -> Result<(), AllocError>
    ensures ok { OnOk result
        (S.written out.new ≡ S.written out.old ++ text (list (trees_of values.now))) }
    ensures err { OnErr result (Extends (S.written out.old) (S.written out.new)) }
{
    append_count(b'*', values.0.len() as u64, 0, out)?;
    append_values(values, out)?;
    Ok(())
}

#[cycle(text)]
fn append_values<S: Sink>(values: &Values, out: &mut S) -> Result<(), AllocError>
    ensures ok { OnOk result
        (S.written out.new ≡ S.written out.old ++ texts (trees_of values.now)) }
    ensures err { OnErr result (Extends (S.written out.old) (S.written out.new)) }
{
    for value in &values.0 {
        // (most members are bulk strings)
        match value {
            Value::Bulk(payload) => append_payload(payload, out)?,
            _ => append_value(value, out)?,
        }
    }
    Ok(())
}

#[inline(always)]
fn append_payload<S: Sink>(payload: &Payload, out: &mut S) -> Result<(), AllocError>
    ensures ok { OnOk result
        (S.written out.new ≡ S.written out.old ++ text (bulk payload.now)) }
    ensures err { OnErr result (S.written out.new ≡ S.written out.old) }
{
    match payload.text() {
        Some(text) => {
            out.reserve(text.len())?;
            out.put_reserved(text.as_slice());
            Ok(())
        }
        None => append_bulk(payload.as_slice(), out),
    }
}

#[inline(always)]
pub(crate) fn append_bulk<S: Sink>(payload: &[u8], out: &mut S) -> Result<(), AllocError>
    ensures ok { OnOk result
        (S.written out.new ≡ S.written out.old ++ text (bulk payload.now)) }
    ensures err { OnErr result (S.written out.new ≡ S.written out.old) }
{
    append_count(b'$', payload.len() as u64, payload.len() + 2, out)?;
    out.put_reserved(payload);
    out.put_reserved(b"\r\n");
    Ok(())
}

// There is room for `more` bytes behind it.
#[inline(always)]
fn append_count<S: Sink>(kind: u8, count: u64, more: usize, out: &mut S) -> Result<(), AllocError>
    requires more { more ≤ 2 ^ 63 + 1 }
    ensures ok { OnOk result
        (S.written out.new ≡ S.written out.old ++ line kind (decimal count)) }
    ensures room { OnOk result (more ≤ S.room out.new) }
    ensures err { OnErr result (S.written out.new ≡ S.written out.old) }
{
    // (most numbers have at most three digits)
    if count < 10 {
        return append_head(&[kind, b'0' + count as u8, b'\r', b'\n'], more, out);
    }
    if count < 100 {
        let (tens, ones) = ((count / 10) as u8, (count % 10) as u8);
        return append_head(&[kind, b'0' + tens, b'0' + ones, b'\r', b'\n'], more, out);
    }
    if count < 1_000 {
        let (tens, ones) = (count / 10, (count % 10) as u8);
        let (hundreds, tens) = ((tens / 10) as u8, (tens % 10) as u8);
        let head = [
            kind,
            b'0' + hundreds,
            b'0' + tens,
            b'0' + ones,
            b'\r',
            b'\n',
        ];
        return append_head(&head, more, out);
    }
    let mut head = EMPTY_HEAD;
    let digits = write_digits(count, &mut head, MAX_DIGITS + 1);
    head[digits - 1] = kind;
    append_head(&head[digits - 1..], more, out)
}

fn append_line<S: Sink>(kind: u8, bytes: &[u8], out: &mut S) -> Result<(), AllocError>
    ensures ok { OnOk result (S.written out.new ≡ S.written out.old ++ line kind bytes.now) }
    ensures err { OnErr result (S.written out.new ≡ S.written out.old) }
{
    append_head(&[kind], bytes.len() + 2, out)?;
    out.put_reserved(bytes);
    out.put_reserved(b"\r\n");
    Ok(())
}

// There is room for `more` bytes behind it.
#[inline(always)]
fn append_head<S: Sink>(head: &[u8], more: usize, out: &mut S) -> Result<(), AllocError>
    requires short { length head.now ≤ 23 }
    requires more { more ≤ 2 ^ 63 + 1 }
    ensures ok { OnOk result (S.written out.new ≡ S.written out.old ++ head.now) }
    ensures room { OnOk result (more ≤ S.room out.new) }
    ensures err { OnErr result (S.written out.new ≡ S.written out.old) }
{
    out.reserve(head.len() + more)?;
    out.put_reserved(head);
    Ok(())
}

impl Value {
    /// The length of the value's one spelling, or the greatest `u64`. The value needn't be plain.
    #[cycle(length)]
    pub fn text_len(&self) -> u64
        ensures { result ≡ told_offset (length (text (tree_of self.now))) }
    {
        match self {
            Value::Simple(text) | Value::Fault(text) => line_len(text.len() as u64),
            Value::Whole(n) => line_len(signed_digits(*n)),
            Value::Bulk(payload) => payload.text_len(),
            Value::List(values) => list_len(values),
            Value::NullBulk | Value::NullList => line_len(2),
        }
    }
}

#[cycle(length)]
fn list_len(values: &Values) -> u64
    ensures { result ≡ told_offset (length (text (list (trees_of values.now)))) }
{
    line_len(digits(values.0.len() as u64)).saturating_add(members_len(values))
}

#[cycle(length)]
fn members_len(values: &Values) -> u64
    ensures { result ≡ told_offset (length (texts (trees_of values.now))) }
{
    let mut total: u64 = 0;
    for value in &values.0 {
        // (most members are bulk strings)
        let len = match value {
            Value::Bulk(payload) => payload.text_len(),
            _ => value.text_len(),
        };
        total = total.saturating_add(len);
    }
    total
}

/// The length of a bulk string's text, by that of its payload, or the greatest `u64`.
pub fn bulk_len(payload: u64) -> u64
    ensures { result ≡ told_offset (length (decimal payload) + 3 + payload + 2) }
{
    line_len(digits(payload))
        .saturating_add(payload)
        .saturating_add(2)
}

fn line_len(bytes: u64) -> u64
    ensures { result ≡ told_offset (bytes + 3) }
{
    bytes.saturating_add(3)
}

// The minus sign counts.
fn signed_digits(n: i64) -> u64
    ensures { result ≡ length (signed_decimal n) }
{
    let count = digits(n.unsigned_abs());
    if n < 0 { count + 1 } else { count }
}

pub(crate) fn digits(n: u64) -> u64
    ensures { result ≡ length (decimal n) }
{
    if n < 10 {
        return 1;
    }
    if n < 100 {
        return 2;
    }
    match n.checked_ilog10() {
        Some(exponent) => u64::from(exponent) + 1,
        None => 1,
    }
}
