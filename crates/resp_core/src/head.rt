//! The head of a value, read a byte at a time: everything before its text, payload or members.
ghost use Rattle.std.specs.Prelude.{◌≡◌, ◌≤◌, ◌<◌, ℕ, length, take, drop, IfOk, IfErr, IfSome};
ghost use Rattle.resp_core.specs.ResumedReading.{Steps, DigitSteps, IsNullOf, GoesOn, IsHead, head_at, IsGoodFound, IsGoodHead, IsGoodNext, IsGoodSized, found_of, limit_of, limit_signed, line_tree, signed_value};
ghost use Rattle.resp_core.specs.Reading.{of_length, of_integer, refused};
ghost use Rattle.resp_core.specs.Grammar.{max_line};
ghost use Rattle.resp_core.specs.Value.{tree_of};

use crate::digits::{negated, of_integer, of_length, short_length, step_digits};
use crate::error::Refusal;
use crate::value::Value;
use bytes::Bytes;
use limits::{MAX_BULK, MAX_LINE};

#[derive(Clone, Copy, Drop)]
pub(crate) enum Sized {
    Bulk,
    List,
}

impl Sized {
    fn limit(self, most: u64) -> u64
        ensures { result ≡ limit_of most self }
    {
        match self {
            Sized::Bulk => MAX_BULK,
            Sized::List => most,
        }
    }

    fn found(self, n: u64) -> Found
        ensures { result ≡ found_of self n }
    {
        match self {
            Sized::Bulk => Found::Payload(n),
            Sized::List => Found::Members(n),
        }
    }
}

#[derive(Clone, Copy, Drop)]
pub(crate) enum Line {
    Simple,
    Fault,
}

impl Line {
    pub(crate) fn value(self, text: Bytes) -> Value
        ensures { tree_of result ≡ line_tree self text }
    {
        match self {
            Line::Simple => Value::Simple(text),
            Line::Fault => Value::Fault(text),
        }
    }
}

#[derive(Clone, Copy, Drop)]
pub(crate) enum Found {
    // A text, and its end.
    Line(Line),
    Payload(u64),
    Members(u64),
    NullBulk,
    NullList,
    Whole(i64),
}

// The place in a head where the next byte stands.
#[derive(Clone, Copy, Drop)]
pub(crate) enum Head {
    Type,
    Length(Sized),
    // Behind the minus sign of a null: 1, then CR.
    One(Sized),
    Return(Sized),
    Digits {
        sized: Sized,
        count: usize,
        n: u64,
    },
    Sign,
    Number {
        is_negative: bool,
        most: usize,
        count: usize,
        n: u64,
    },
    Feed(Found),
}

#[derive(Clone, Copy, Drop)]
pub(crate) enum Next {
    Head(Head),
    Found(Found),
}

#[tactic(auto, unfolding(crate::specs::Reading::value_at, crate::specs::Reading::leaf_at, crate::specs::Reading::byte_at, crate::specs::Reading::list_at, crate::specs::Reading::bulk_at))]
fn step_type(byte: u8, most: u64, left: u32) -> Result<Next, Refusal>
    ensures steps { Steps most left Head.Type byte result }
    ensures good { IfOk result (λ next. IsGoodNext most left next) }
{
    match byte {
        b'*' if left > 0 => Ok(Next::Head(Head::Length(Sized::List))),
        b'$' => Ok(Next::Head(Head::Length(Sized::Bulk))),
        b'+' => Ok(Next::Found(Found::Line(Line::Simple))),
        b'-' => Ok(Next::Found(Found::Line(Line::Fault))),
        b':' => Ok(Next::Head(Head::Sign)),
        b'*' => Err(Refusal::TooDeep),
        _ => Err(Refusal::BadType),
    }
}

fn step_length(sized: Sized, count: usize, n: u64, byte: u8, most: u64) -> Result<Next, Refusal>
    requires good { (count ≤ 10) × (n ≤ limit_of most sized) }
    ensures steps { (left : ℕ) → Steps most left (Head.Digits sized count n) byte result }
    ensures good { (left : ℕ) → IsGoodSized left sized
        → IfOk result (λ next. IsGoodNext most left next) }
{
    match step_digits(of_length(sized.limit(most)), count, n, byte)? {
        Some(n) => Ok(Next::Head(Head::Digits {
            sized,
            count: count + 1,
            n,
        })),
        None => Ok(Next::Head(Head::Feed(sized.found(n)))),
    }
}

fn step_number(
    is_negative: bool,
    most: usize,
    count: usize,
    n: u64,
    byte: u8,
) -> Result<Next, Refusal>
    requires good { (most ≤ max_line) × (count ≤ most) × (n ≤ limit_signed is_negative) }
    ensures steps { (members left : ℕ)
        → Steps members left (Head.Number is_negative most count n) byte result }
    ensures good { (members left : ℕ) → IfOk result (λ next. IsGoodNext members left next) }
{
    let limit = if is_negative {
        i64::MAX as u64 + 1
    } else {
        i64::MAX as u64
    };
    match step_digits(of_integer(limit, most), count, n, byte)? {
        Some(n) => Ok(Next::Head(Head::Number {
            is_negative,
            most,
            count: count + 1,
            n,
        })),
        None => Ok(Next::Head(Head::Feed(Found::Whole(if is_negative {
            negated(n)
        } else {
            n as i64
        })))),
    }
}

#[tactic(auto, unfolding(crate::specs::Reading::integer_at))]
fn step_sign(byte: u8, most: u64, left: u32) -> Result<Next, Refusal>
    ensures steps { Steps most left Head.Sign byte result }
    ensures good { IfOk result (λ next. IsGoodNext most left next) }
{
    match byte {
        b'+' => Ok(Next::Head(Head::Number {
            is_negative: false,
            most: MAX_LINE - 1,
            count: 0,
            n: 0,
        })),
        b'-' => Ok(Next::Head(Head::Number {
            is_negative: true,
            most: MAX_LINE - 1,
            count: 0,
            n: 0,
        })),
        _ => step_number(false, MAX_LINE, 0, 0, byte),
    }
}

#[tactic(auto, unfolding(crate::specs::Reading::payload_at, crate::specs::Reading::members_at))]
fn null_of(sized: Sized) -> Found
    ensures { IsNullOf sized result }
{
    match sized {
        Sized::Bulk => Found::NullBulk,
        Sized::List => Found::NullList,
    }
}

#[tactic(auto, unfolding(crate::specs::Reading::byte_at, crate::specs::Reading::null_end_at, crate::specs::Reading::count_at))]
pub(crate) fn step(head: Head, byte: u8, most: u64, left: u32) -> Result<Next, Refusal>
    requires good { IsGoodHead most left head }
    ensures steps { Steps most left head byte result }
    ensures good { IfOk result (λ next. IsGoodNext most left next) }
{
    match head {
        Head::Type => step_type(byte, most, left),
        Head::Length(sized) => {
            if byte == b'-' {
                Ok(Next::Head(Head::One(sized)))
            } else {
                step_length(sized, 0, 0, byte, most)
            }
        }
        Head::One(sized) => {
            if byte == b'1' {
                Ok(Next::Head(Head::Return(sized)))
            } else {
                Err(Refusal::BadLength)
            }
        }
        Head::Return(sized) => {
            if byte == b'\r' {
                Ok(Next::Head(Head::Feed(null_of(sized))))
            } else {
                Err(Refusal::BadLength)
            }
        }
        Head::Digits { sized, count, n } => step_length(sized, count, n, byte, most),
        Head::Sign => step_sign(byte, most, left),
        Head::Number {
            is_negative,
            most: digits,
            count,
            n,
        } => step_number(is_negative, digits, count, n, byte),
        Head::Feed(found) => {
            if byte == b'\n' {
                Ok(Next::Found(found))
            } else {
                Err(Refusal::BadLineEnd)
            }
        }
    }
}

// What a whole head with a length of up to three digits announces, and its bytes. Most heads are such. `None`: it
// is read a byte at a time.
#[inline(always)]
fn short_found(bytes: &[u8], most: u64, left: u32) -> Option<(Found, usize)>
    ensures inside { IfSome result (λ x. (0 < x.1) × (x.1 ≤ length bytes.now)) }
    ensures gives { IfSome result
        (λ x. GoesOn most left Head.Type (take x.1 bytes.now) (Next.Found x.0)) }
    ensures good { IfSome result (λ x. IsGoodFound most left x.0) }
{
    let (first, rest) = bytes.split_first()?;
    if *first == b'$' {
        let (n, len) = short_bulk(bytes, most, left)?;
        return Some((Found::Payload(n), len));
    }
    if *first == b'*' && left > 0 {
        let (found, len) = short_sized(Sized::List, rest, most, left)?;
        return Some((found, len + 1));
    }
    None
}

#[inline(always)]
pub(crate) fn short_bulk(bytes: &[u8], most: u64, left: u32) -> Option<(u64, usize)>
    ensures inside { IfSome result (λ x. (0 < x.1) × (x.1 ≤ length bytes.now)) }
    ensures gives { IfSome result
        (λ x. GoesOn most left Head.Type (take x.1 bytes.now) (Next.Found (Found.Payload x.0))) }
    ensures good { IfSome result (λ x. IsGoodFound most left (Found.Payload x.0)) }
{
    let (first, rest) = bytes.split_first()?;
    if *first != b'$' {
        return None;
    }
    let (found, len) = short_sized(Sized::Bulk, rest, most, left)?;
    match found {
        Found::Payload(n) => Some((n, len + 1)),
        _ => None,
    }
}

#[inline(always)]
fn short_sized(sized: Sized, bytes: &[u8], most: u64, left: u32) -> Option<(Found, usize)>
    requires good { IsGoodSized left sized }
    ensures inside { IfSome result (λ x. (0 < x.1) × (x.1 ≤ length bytes.now)) }
    ensures gives { IfSome result
        (λ x. GoesOn most left (Head.Length sized) (take x.1 bytes.now) (Next.Found x.0)) }
    ensures good { IfSome result (λ x. IsGoodFound most left x.0) }
{
    let (n, len) = short_length(bytes, sized.limit(most))?;
    Some((sized.found(n), len))
}

pub(crate) struct RefusedByte(pub(crate) Refusal, pub(crate) usize);

// Reads a head as far as it has come. Returns what it came to, and the number of bytes read.
pub(crate) fn read_head(
    head: Head,
    bytes: &[u8],
    most: u64,
    left: u32,
) -> Result<(Next, usize), RefusedByte>
    requires good { IsGoodHead most left head }
    ensures inside { IfOk result (λ x. x.1 ≤ length bytes.now) }
    ensures gives { IfOk result (λ x. GoesOn most left head (take x.1 bytes.now) x.0) }
    ensures all { IfOk result (λ x. IsHead x.0 → x.1 ≡ length bytes.now) }
    ensures some { IfOk result (λ x. (IsHead x.0 → ⊥) → 0 < x.1) }
    ensures refused { IfErr result (λ e. (e.1 ≤ length bytes.now)
        × (head_at most left head bytes.now ≡ refused e.0 (drop e.1 bytes.now))) }
    ensures good { IfOk result (λ x. IsGoodNext most left x.0) }
{
    if let Head::Type = head {
        if let Some((found, len)) = short_found(bytes, most, left) {
            return Ok((Next::Found(found), len));
        }
    }
    let mut head = head;
    for i in 0..bytes.len() {
        match step(head, bytes[i], most, left) {
            Ok(Next::Head(next)) => head = next,
            Ok(Next::Found(found)) => return Ok((Next::Found(found), i + 1)),
            Err(refusal) => return Err(RefusedByte(refusal, i)),
        }
    }
    Ok((Next::Head(head), bytes.len()))
}
