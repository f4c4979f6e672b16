//! Pieces of a line.
ghost use Rattle.std.specs.Prelude.{◌≡◌, ◌++◌, OnOk, OnErr, map};
ghost use Rattle.std.specs.List.{concat};
ghost use Rattle.proxy_record.specs.Leaves.{hex};
ghost use Rattle.proxy_record.specs.Moments.{moment};

use itoa::Buffer;
use std::alloc::AllocError;

const DIGITS: &[u8; 16] = b"0123456789abcdef";

/// Appends a whole line, or nothing.
pub(crate) fn append(out: &mut Vec<u8>, line: &Vec<u8>) -> Result<(), AllocError>
    ensures ok { OnOk result (out.new.items ≡ out.old.items ++ line.now.items) }
    ensures err { OnErr result (out.new.items ≡ out.old.items) }
{
    out.extend_from_slice(line.as_slice())
}

/// Appends these pieces.
pub(crate) fn push_all(line: &mut Vec<u8>, pieces: &[&str]) -> Result<(), AllocError>
    ensures { OnOk result (line.new.items
        ≡ line.old.items ++ concat (map (λ piece. piece.now) pieces.now)) }
{
    for piece in pieces {
        line.extend_from_slice(piece.as_bytes())?;
    }
    Ok(())
}

/// Appends one piece.
pub(crate) fn push_piece(line: &mut Vec<u8>, piece: &str) -> Result<(), AllocError>
    ensures { OnOk result (line.new.items ≡ line.old.items ++ piece.now) }
{
    line.extend_from_slice(piece.as_bytes())
}

/// Appends two lower-case hexadecimal digits for each byte.
pub(crate) fn push_hex(line: &mut Vec<u8>, bytes: &[u8]) -> Result<(), AllocError>
    ensures { OnOk result (line.new.items ≡ line.old.items ++ hex bytes.now) }
{
    for byte in bytes {
        line.push(DIGITS[(*byte / 16) as usize])?;
        line.push(DIGITS[(*byte % 16) as usize])?;
    }
    Ok(())
}

/// Appends a moment, or `null`.
pub(crate) fn push_moment(line: &mut Vec<u8>, at: Option<u64>) -> Result<(), AllocError>
    ensures { OnOk result (line.new.items ≡ line.old.items ++ moment at) }
{
    match at {
        Some(t) => push_piece(line, Buffer::new().format(t)),
        None => push_piece(line, "null"),
    }
}
