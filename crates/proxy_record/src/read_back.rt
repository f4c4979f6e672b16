//! Texts that the proxy sent or handed out, read back.
//!
//! The reader of sockets has limits of length, and an answer may be longer.
ghost use Rattle.std.specs.Prelude.{◌≡◌, ◌++◌, ◌+◌, ◌≤◌, ◌<◌, ◌^◌, ◌↔◌, ◌==◌, ◌∷◌, [], ℕ, ℤ, pos, neg_ℤ, List, true, slice_index, length, Some, IfOk, IfSome, IsTrue};
ghost use Rattle.std.specs.List.{list_all, position};
ghost use Rattle.std.specs.Fmt.{decimal, signed_decimal};
ghost use Rattle.resp_core.specs.Tree.{is_plain_tree, is_text_byte};
ghost use Rattle.resp_core.specs.Text.{line};
ghost use Rattle.resp_core.specs.Text.{text as spelling};
ghost use Rattle.resp_core.specs.Value.{tree_of};
ghost use Rattle.resp_core.specs.ValueLimits.{IsLong};
ghost use Rattle.proxy_record.specs.ReadBack.{Finds, FindsBulk, FindsList, FindsMembers, FindsNull, IsReadBack, IsTaken, found_in, is_end};
ghost use Rattle.resp_core.specs.Tree.{null_bulk, null_list, whole};

use bytes::Bytes;
use resp_core::{Payload, Value, Values, put_text};
use std::alloc::{AllocError, Global};

/// How deep arrays may nest in a text that is read back: as deep as in a host's answer.
pub const MAX_NESTED: usize = 8;

// What stands on the line of a null.
const NULL: &[u8; 2] = b"-1";

/// The value whose one spelling the text is. `None` where there is none; one may be left unfound only where its arrays
/// nest deeper than 8, or an integer in it isn't of 64 bits. Refused only for want of memory.
pub(crate) fn read_back(alloc: Global, text: &Bytes) -> Result<Option<Value>, AllocError>
    ensures { IfOk result (λ found. IsReadBack text.now (found_in found)) }
{
    let mut rest = text.clone()?;
    let Some(value) = read_value(alloc, MAX_NESTED, &mut rest)? else {
        return Ok(None);
    };
    let is_spelled = spells(alloc, &value, text.as_slice())?;
    if is_spelled {
        Ok(Some(value))
    } else {
        Ok(None)
    }
}

// Whether the value is plain and these bytes are its one spelling.
fn spells(alloc: Global, value: &Value, bytes: &[u8]) -> Result<bool, AllocError>
    ensures { IfOk result (λ is. IsTrue is ↔ ((is_plain_tree (tree_of value.now) ≡ true)
        × (bytes.now ≡ spelling (tree_of value.now)))) }
{
    if !value.is_plain() {
        return Ok(false);
    }
    let mut again = Vec::new(alloc);
    if put_text(alloc, value, &mut again).is_err() {
        return Err(AllocError);
    }
    Ok(bytes == again.as_slice())
}

// What stands there may be another spelling of the value that is found.
#[cycle(read)]
fn read_value(alloc: Global, left: usize, rest: &mut Bytes) -> Result<Option<Value>, AllocError>
    ensures { IfOk result (λ found. Finds left rest.old rest.new (found_in found)) }
{
    // (it bounds the numbers on lines)
    let _ = rest.len();
    let Some((kind, shown)) = take_line(rest)? else {
        return Ok(None);
    };
    match kind {
        b'+' => Ok(Some(Value::Simple(shown))),
        b'-' => Ok(Some(Value::Fault(shown))),
        b':' => Ok(whole_in(shown.as_slice())),
        b'$' => Ok(read_bulk(shown.as_slice(), rest)?),
        b'*' => Ok(read_list(alloc, left, shown.as_slice(), rest)?),
        _ => Ok(None),
    }
}

#[cycle(read)]
fn read_list(
    alloc: Global,
    left: usize,
    shown: &[u8],
    rest: &mut Bytes,
) -> Result<Option<Value>, AllocError>
    ensures list { IfOk result
        (λ found. FindsList left shown.now rest.old rest.new (found_in found)) }
    ensures null { IfOk result
        (λ found. 0 < left → FindsNull null_list shown.now rest.old rest.new (found_in found)) }
{
    let most = rest.len();
    if left == 0 {
        return Ok(None);
    }
    if is_null(shown) {
        return Ok(Some(Value::NullList));
    }
    let Some(count) = count_in(shown, most) else {
        return Ok(None);
    };
    match read_members(alloc, left - 1, count, rest)? {
        Some(values) => Ok(Some(Value::List(values))),
        None => Ok(None),
    }
}

#[cycle(read)]
fn read_members(
    alloc: Global,
    left: usize,
    count: usize,
    rest: &mut Bytes,
) -> Result<Option<Values>, AllocError>
    ensures { IfOk result (λ found. FindsMembers left count rest.old rest.new found) }
{
    let mut values = Vec::new(alloc);
    for _i in 0..count {
        match read_value(alloc, left, rest)? {
            Some(value) => values.push(value)?,
            None => return Ok(None),
        }
    }
    Ok(Some(Values(values)))
}

fn is_null(shown: &[u8]) -> bool
    ensures { IsTrue result ↔ (shown.now ≡ 45 ∷ 49 ∷ []) }
{
    shown == NULL.as_slice()
}

fn read_bulk(shown: &[u8], rest: &mut Bytes) -> Result<Option<Value>, AllocError>
    ensures bulk { IfOk result (λ found. FindsBulk shown.now rest.old rest.new (found_in found)) }
    ensures null { IfOk result
        (λ found. FindsNull null_bulk shown.now rest.old rest.new (found_in found)) }
{
    let most = rest.len();
    if is_null(shown) {
        return Ok(Some(Value::NullBulk));
    }
    let Some(len) = count_in(shown, most) else {
        return Ok(None);
    };
    if most - len < 2 {
        return Ok(None);
    }
    let payload = rest.split_to(len)?;
    rest.advance(2);
    Ok(Some(Value::Bulk(Payload::new(payload))))
}

// The type of the value in front, and what stands on its line behind that; they are taken.
fn take_line(rest: &mut Bytes) -> Result<Option<(u8, Bytes)>, AllocError>
    ensures { IfOk result (λ found. (kind : ℕ) (s behind : List ℕ) → list_all is_text_byte s ≡ true
        → rest.old ≡ line kind s ++ behind → IsTaken kind s found × (rest.new ≡ behind)) }
{
    let Some(len) = line_len(rest.as_slice()) else {
        return Ok(None);
    };
    let kind = rest.as_slice()[0];
    rest.advance(1);
    let shown = rest.split_to(len)?;
    rest.advance(2);
    Ok(Some((kind, shown)))
}

// The bytes between the type in front and the first CR or LF, if two bytes stand there.
fn line_len(bytes: &[u8]) -> Option<usize>
    ensures inside { IfSome result (λ len. len + 3 ≤ length bytes.now) }
    ensures len { (kind : ℕ) (s behind : List ℕ) → list_all is_text_byte s ≡ true
        → bytes.now ≡ line kind s ++ behind → result ≡ Some (length s) }
{
    let [_, behind @ ..] = bytes else {
        return None;
    };
    match first_end(behind) {
        Some(len) if behind.len() - len >= 2 => Some(len),
        _ => None,
    }
}

fn first_end(bytes: &[u8]) -> Option<usize>
    ensures end { result ≡ position is_end bytes.now }
    ensures inside { IfSome result (λ at. at < length bytes.now) }
{
    bytes.iter().position(|b| *b == b'\r' || *b == b'\n')
}

fn whole_in(shown: &[u8]) -> Option<Value>
    ensures { (n : ℤ) → IsLong n → shown.now ≡ signed_decimal n
        → found_in result ≡ Some (whole n) }
{
    match signed_in(shown) {
        Some(n) => Some(Value::Whole(n)),
        None => None,
    }
}

fn signed_in(shown: &[u8]) -> Option<i64>
    ensures { (n : ℤ) → IsLong n → shown.now ≡ signed_decimal n → result ≡ Some n }
{
    if is_negative(shown) {
        negative_in(shown)
    } else {
        positive_in(shown)
    }
}

fn is_negative(shown: &[u8]) -> bool
    ensures { result ≡ (slice_index shown.now 0 == 45) }
{
    match shown {
        [first, ..] => *first == b'-',
        [] => false,
    }
}

fn positive_in(digits: &[u8]) -> Option<i64>
    ensures { (n : ℕ) → n < 2 ^ 63 → digits.now ≡ decimal n → result ≡ Some (pos n) }
{
    match number_in(digits) {
        Some(n) if n < 1 << 63 => Some(n as i64),
        _ => None,
    }
}

fn negative_in(shown: &[u8]) -> Option<i64>
    ensures { (n : ℕ) → n ≤ 2 ^ 63 → shown.now ≡ 45 ∷ decimal n
        → result ≡ Some (neg_ℤ (pos n)) }
{
    let [_, digits @ ..] = shown else {
        return None;
    };
    match number_in(digits) {
        Some(n) => negated(n),
        None => None,
    }
}

// `None` where it isn't of 64 bits.
fn negated(n: u64) -> Option<i64>
    ensures { n ≤ 2 ^ 63 → result ≡ Some (neg_ℤ (pos n)) }
{
    if n == 0 {
        Some(0)
    } else if n <= 1 << 63 {
        Some(-((n - 1) as i64) - 1)
    } else {
        None
    }
}

// The number on a line, if it is at most so great.
fn count_in(shown: &[u8], most: usize) -> Option<usize>
    ensures few { IfSome result (λ n. n ≤ most) }
    ensures count { (n : ℕ) → n ≤ most → shown.now ≡ decimal n → result ≡ Some n }
{
    match number_in(shown) {
        Some(n) if n <= most as u64 => Some(n as usize),
        _ => None,
    }
}

fn number_in(digits: &[u8]) -> Option<u64>
    ensures { (n : ℕ) → n < 2 ^ 64 → digits.now ≡ decimal n → result ≡ Some n }
{
    match str::from_utf8(digits) {
        Ok(text) => text.parse::<u64>().ok(),
        Err(_) => None,
    }
}
