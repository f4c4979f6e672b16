//! The digits of a length or an integer, read a byte at a time.
ghost use Rattle.std.specs.Prelude.{◌≡◌, ◌≤◌, ◌<◌, ◌-◌, ◌^◌, ◌++◌, pos, neg_ℤ, ℕ, List, length, take, Some, IfSome};
ghost use Rattle.resp_core.specs.ResumedReading.{DigitSteps};
ghost use Rattle.resp_core.specs.Reading.{of_length, of_integer, digits_at, count_at, found};

use crate::error::Refusal;

// The refusals are those of a byte that is no digit, of a digit too many, of one that makes the number too great,
// and of one that does both.
#[derive(Clone, Copy, Drop)]
pub(crate) struct Digits {
    pub(crate) limit: u64,
    pub(crate) most: usize,
    pub(crate) bad: Refusal,
    pub(crate) full: Refusal,
    pub(crate) over: Refusal,
    pub(crate) both: Refusal,
}

pub(crate) fn of_length(limit: u64) -> Digits
    ensures { result ≡ of_length limit }
{
    Digits {
        limit,
        most: 10,
        bad: Refusal::BadLength,
        full: Refusal::BadLength,
        over: Refusal::TooLong,
        both: Refusal::BadLength,
    }
}

pub(crate) fn of_integer(limit: u64, most: usize) -> Digits
    ensures { result ≡ of_integer limit most }
{
    Digits {
        limit,
        most,
        bad: Refusal::BadNumber,
        full: Refusal::TooLong,
        over: Refusal::BadNumber,
        both: Refusal::BadNumber,
    }
}

pub(crate) fn negated(n: u64) -> i64
    requires { n ≤ 2 ^ 63 }
    ensures { result ≡ neg_ℤ (pos n) }
{
    if n == 0 { 0 } else { -((n - 1) as i64) - 1 }
}

pub(crate) fn digit_of(byte: u8) -> Option<u64>
    ensures { IfSome result (λ n. (48 ≤ byte) × (byte ≤ 57) × (n ≡ byte - 48)) }
{
    if byte.is_ascii_digit() {
        Some((byte - b'0') as u64)
    } else {
        None
    }
}

// The length of at most four digits at the front with its line end, and how many bytes these have. Most lengths are
// such. `None`: it is read a byte at a time.
#[tactic(auto, unfolding(crate::specs::Reading::digits_at, crate::specs::Reading::count_at, crate::specs::Reading::byte_at))]
#[inline(always)]
pub(crate) fn short_length(bytes: &[u8], limit: u64) -> Option<(u64, usize)>
    ensures inside { IfSome result (λ x. (0 < x.1) × (x.1 ≤ length bytes.now) × (x.0 ≤ limit)) }
    ensures reads { IfSome result (λ x. (rest : List ℕ)
        → count_at limit (take x.1 bytes.now ++ rest) ≡ found (Some x.0) rest) }
{
    let (n, len) = match bytes {
        [a, b'\r', b'\n', ..] => (digit_of(*a)?, 3),
        [a, b, b'\r', b'\n', ..] => (digit_of(*a)? * 10 + digit_of(*b)?, 4),
        [a, b, c, b'\r', b'\n', ..] => (
            digit_of(*a)? * 100 + digit_of(*b)? * 10 + digit_of(*c)?,
            5,
        ),
        _ => return four_digit_length(bytes, limit),
    };
    if n <= limit { Some((n, len)) } else { None }
}

#[tactic(auto, unfolding(crate::specs::Reading::digits_at, crate::specs::Reading::count_at, crate::specs::Reading::byte_at))]
fn four_digit_length(bytes: &[u8], limit: u64) -> Option<(u64, usize)>
    ensures inside { IfSome result (λ x. (0 < x.1) × (x.1 ≤ length bytes.now) × (x.0 ≤ limit)) }
    ensures reads { IfSome result (λ x. (rest : List ℕ)
        → count_at limit (take x.1 bytes.now ++ rest) ≡ found (Some x.0) rest) }
{
    let [a, b, c, d, b'\r', b'\n', ..] = bytes else {
        return None;
    };
    let n = digit_of(*a)? * 1_000 + digit_of(*b)? * 100 + digit_of(*c)? * 10 + digit_of(*d)?;
    if n <= limit { Some((n, 6)) } else { None }
}

#[tactic(auto, unfolding(crate::specs::Reading::digits_at))]
pub(crate) fn step_digits(
    digits: Digits,
    count: usize,
    n: u64,
    byte: u8,
) -> Result<Option<u64>, Refusal>
    requires few { count ≤ digits.most }
    requires within { n ≤ digits.limit }
    ensures { DigitSteps digits count n byte result }
{
    if byte == b'\r' {
        return if count == 0 {
            Err(digits.bad)
        } else {
            Ok(None)
        };
    }
    if byte < b'0' || byte > b'9' {
        return Err(digits.bad);
    }
    let next = n as u128 * 10 + (byte - b'0') as u128;
    let is_over = next > digits.limit as u128;
    if count == digits.most {
        return Err(if is_over { digits.both } else { digits.full });
    }
    if is_over {
        return Err(digits.over);
    }
    Ok(Some(next as u64))
}
