ghost use Rattle.std.specs.Prelude.{◌≡◌, Option, Some};
ghost use Rattle.resp_core.specs.declared.error.RespError.{RespError};
ghost use Rattle.proxy_engines.specs.LinkFaults.{IsFaultOf, TellsLimit};

use limits::MAX_TEXT;
use proxy_core::Kind;
use resp_core::RespError;

// The most bytes of a length's head.
const MAX_LENGTH_HEAD: usize = 11;

/// A limit that a host's reply has passed.
#[derive(Clone, Copy, Debug, PartialEq, Eq, Drop)]
pub enum PassedLimit {
    /// `MAX_BULK` bytes of a bulk string.
    Bulk,
    /// `MAX_HOST_MEMBERS` members of an array.
    Members,
    /// `MAX_TEXT` bytes of a reply in all.
    Text,
    /// Another, or it isn't known.
    Other,
}

impl PassedLimit {
    fn of_head(type_byte: Option<u8>) -> PassedLimit {
        match type_byte {
            Some(b'$') => PassedLimit::Bulk,
            Some(b'*') => PassedLimit::Members,
            Some(_) | None => PassedLimit::Other,
        }
    }
}

/// Why a link to a host ended.
#[derive(Clone, Copy, Debug, PartialEq, Eq, Drop)]
pub enum LinkFault {
    /// No link could be made.
    Refused,
    /// A reply didn't come in time.
    Late,
    /// The input ended, or a device failed.
    Closed,
    /// A byte was refused, or a value came that nobody asked for.
    Garbled,
    /// A reply passed a limit.
    TooLong(PassedLimit),
    /// The caller gave the link up.
    GivenUp,
}

impl LinkFault {
    /// By the limit that a reply passed, if one did.
    pub(crate) fn of(kind: Kind, passed: Option<PassedLimit>) -> LinkFault
        ensures { (refusal : Option RespError) → TellsLimit refusal passed
            → IsFaultOf kind refusal result }
    {
        match kind {
            Kind::Refused => LinkFault::Refused,
            Kind::Late => LinkFault::Late,
            Kind::Dropped => LinkFault::Closed,
            Kind::Garbled => match passed {
                Some(limit) => LinkFault::TooLong(limit),
                None => LinkFault::Garbled,
            },
        }
    }
}

/// The bytes that a reader of values was fed last.
#[derive(Clone, Copy, Drop)]
pub(crate) struct LastPiece<'a> {
    /// The offset behind it in the stream.
    pub(crate) end: u64,
    /// Its length.
    pub(crate) length: usize,
    /// They begin with the piece.
    pub(crate) bytes: &'a [u8],
}

impl<'a> LastPiece<'a> {
    // The byte in front of the digits that end here.
    fn type_byte(self, at: u64) -> Option<u8> {
        let behind = self.end.saturating_sub(at).min(self.length as u64);
        let mut place = self.length - behind as usize;
        for _ in 0..MAX_LENGTH_HEAD {
            place = place.checked_sub(1)?;
            let byte = *self.bytes.get(place)?;
            if !byte.is_ascii_digit() {
                return Some(byte);
            }
        }
        None
    }
}

/// The limit that the value which begins at this offset has passed, if one.
pub(crate) fn passed_limit(
    refusal: RespError,
    begin: u64,
    piece: LastPiece<'_>,
) -> Option<PassedLimit>
    ensures { TellsLimit (Some refusal) result }
{
    let RespError::TooLong { at } = refusal else {
        return None;
    };
    if at.saturating_sub(begin) == MAX_TEXT as u64 {
        return Some(PassedLimit::Text);
    }
    Some(PassedLimit::of_head(piece.type_byte(at)))
}
