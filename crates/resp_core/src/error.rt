ghost use Rattle.std.specs.Prelude.{◌≡◌, ◌≢◌};
ghost use Rattle.resp_core.specs.declared.error.RespError.TheVariants.{NoMemory};

use std::alloc::{AllocError, AllocFailed};
use thiserror::Error;

#[derive(Clone, Copy, Drop)]
pub(crate) enum Refusal {
    BadType,
    BadLength,
    BadNumber,
    BadLineEnd,
    TooLong,
    TooDeep,
}

impl Refusal {
    ghost use Rattle.resp_core.specs.Offset.{offset_of, number_of, refusal_number};

    pub(crate) fn at(self, at: u64) -> RespError
        ensures offset { offset_of result ≡ at }
        ensures number { number_of result ≡ refusal_number self }
        ensures refusal { result ≢ RespError.NoMemory }
    {
        match self {
            Refusal::BadType => RespError::BadType { at },
            Refusal::BadLength => RespError::BadLength { at },
            Refusal::BadNumber => RespError::BadNumber { at },
            Refusal::BadLineEnd => RespError::BadLineEnd { at },
            Refusal::TooLong => RespError::TooLong { at },
            Refusal::TooDeep => RespError::TooDeep { at },
        }
    }
}

/// Why a call is refused.
///
/// `at` is the offset of the refused byte in the stream, from 0; the greatest `u64` stands for any more.
#[derive(Clone, Copy, Debug, PartialEq, Eq, Drop, Error)]
pub enum RespError {
    /// 101: memory was refused. Nothing has changed.
    #[error("out of memory")]
    NoMemory,
    /// 102: a value is due, and the byte is none of `+`, `-`, `:`, `$` and `*`.
    #[error("byte {at}: no type byte")]
    BadType { at: u64 },
    /// 103: in a length, a byte that is no digit, `-` or CR in its place, a CR without a digit, a `-` without `1`
    /// and CR, or an eleventh digit.
    #[error("byte {at}: no length")]
    BadLength { at: u64 },
    /// 104: in an integer, a byte that is no sign, digit or CR in its place, a CR without a digit, or a digit that
    /// leaves the signed 64-bit range.
    #[error("byte {at}: no integer")]
    BadNumber { at: u64 },
    /// 105: an LF in a simple string or an error, a byte other than LF after CR, or a byte other than CR after a
    /// bulk string.
    #[error("byte {at}: a line that does not end with CR and LF")]
    BadLineEnd { at: u64 },
    /// 106: a digit with which a length passes its limit, a byte too many in a line, or byte 8,388,609 of a value.
    #[error("byte {at}: longer than the limit")]
    TooLong { at: u64 },
    /// 107: the `*` of a ninth nested array.
    #[error("byte {at}: an array nested too deep")]
    TooDeep { at: u64 },
}

impl RespError {
    ghost use Rattle.resp_core.specs.Offset.{number_of};

    /// 101 to 107.
    pub fn number(self) -> u16
        ensures { result ≡ number_of self }
    {
        match self {
            RespError::NoMemory => 101,
            RespError::BadType { .. } => 102,
            RespError::BadLength { .. } => 103,
            RespError::BadNumber { .. } => 104,
            RespError::BadLineEnd { .. } => 105,
            RespError::TooLong { .. } => 106,
            RespError::TooDeep { .. } => 107,
        }
    }
}

impl From<AllocError> for RespError {
    ghost from_gives = { λ _ e. e ≡ NoMemory };

    fn from(_error: AllocError) -> RespError {
        RespError::NoMemory
    }
}

impl<T: Drop> From<AllocFailed<T>> for RespError {
    ghost from_gives = { λ _ e. e ≡ NoMemory };

    fn from(_error: AllocFailed<T>) -> RespError {
        RespError::NoMemory
    }
}
