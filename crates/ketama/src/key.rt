ghost use Rattle.std.specs.Prelude.{◌≡◌, ◌==◌, List, ℕ, IsTrue, IfSome, IfNone, Contains, position};
ghost use Rattle.ketama.specs.Key.{IsSplitAt, IsTagOf, tag_or_key, hashed_part, point_of, point_of_bytes};

use crate::point::point_at;
use crate::short::{MAX_SHORT, point_of_short};
use md5::{Digest, Md5};

/// The point of a key on the ring: bytes 0 to 3 of its MD5, the least significant first.
///
/// With `tags`, only the text between the key's first `{` and the first `}` after it is hashed, if there is any
/// (the rule of the Redis Cluster specification).
pub fn point_of_key(key: &[u8], tags: bool) -> u32
    ensures value { result ≡ point_of key.now tags }

    ensures tag { IsTrue tags → (tag : List ℕ) → IsTagOf key.now tag → result ≡ point_of_bytes tag }
    ensures whole { (IsTrue tags → (tag : List ℕ) → ¬ IsTagOf key.now tag)
        → result ≡ point_of_bytes key.now }
{
    let part = hashed_part(key, tags);
    if part.len() <= MAX_SHORT {
        return point_of_short(part);
    }
    point_at(&Md5::digest(part), 0)
}

fn hashed_part(key: &[u8], tags: bool) -> &[u8]
    ensures value { result.now ≡ hashed_part key.now tags }
    ensures whole { (IsTrue tags → (tag : List ℕ) → ¬ IsTagOf key.now tag) → result.now ≡ key.now }
{
    if tags {
        tag_of(key).unwrap_or(key)
    } else {
        key
    }
}

fn tag_of(key: &[u8]) -> Option<&[u8]>
    ensures found { IfSome result (λ tag. IsTagOf key.now tag.now) }
    ensures tag { IfSome result (λ tag. tag_or_key key.now ≡ tag.now) }
    ensures none { IfNone result ((tag : List ℕ) → ¬ IsTagOf key.now tag) }
    ensures whole { IfNone result (tag_or_key key.now ≡ key.now) }
{
    let (_, rest) = split_once(key, b'{')?;
    let (tag, _) = split_once(rest, b'}')?;
    if tag.is_empty() { None } else { Some(tag) }
}

fn split_once(bytes: &[u8], byte: u8) -> Option<(&[u8], &[u8])>
    ensures split { IfSome result (λ parts. IsSplitAt byte bytes.now parts.0.now parts.1.now) }
    ensures absent { IfNone result (¬ Contains bytes.now byte) }
{
    let at = find(bytes, byte)?;
    Some((&bytes[..at], &bytes[at + 1..]))
}

fn find(bytes: &[u8], byte: u8) -> Option<usize>
    ensures { result ≡ position (λ b. b == byte) bytes.now }
{
    bytes.iter().position(|&b| b == byte)
}
