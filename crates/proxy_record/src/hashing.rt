//! HMAC-MD5 (RFC 2104).
ghost use Rattle.std.specs.Prelude.{◌≡◌, ◌++◌, OnOk};
ghost use Rattle.proxy_record.specs.Hashing.{hmac_md5, key_block};
ghost use Rattle.proxy_record.specs.Leaves.{hashed};

use crate::pieces::{push_all, push_hex};
use itoa::Buffer;
use md5::{Digest, Md5};
use std::alloc::AllocError;

const BLOCK_LEN: usize = 64;

const KEY_LEN: usize = 16;

const INNER: u8 = 0x36;

const OUTER: u8 = 0x5C;

/// Appends the length of the bytes, a colon, and the digits of their hash.
pub(crate) fn push_hash(key: &[u8; 16], bytes: &[u8], line: &mut Vec<u8>) -> Result<(), AllocError>
    ensures { OnOk result (line.new.items ≡ line.old.items ++ hashed key.now bytes.now) }
{
    push_all(line, &[Buffer::new().format(bytes.len()), ":"])?;
    push_hex(line, &hmac_md5(key, bytes))
}

fn hmac_md5(key: &[u8; 16], message: &[u8]) -> [u8; 16]
    ensures { result ≡ hmac_md5 key.now message.now }
{
    let mut inner = Md5::new();
    inner.update(&key_block(key, INNER));
    inner.update(message);
    let digest = inner.finalize();
    let mut outer = Md5::new();
    outer.update(&key_block(key, OUTER));
    outer.update(&digest);
    outer.finalize()
}

fn key_block(key: &[u8; 16], mask: u8) -> [u8; 64]
    ensures { result ≡ key_block key.now mask }
{
    let mut block = [0u8; BLOCK_LEN];
    block[..KEY_LEN].copy_from_slice(key);
    for byte in block.iter_mut() {
        *byte ^= mask;
    }
    block
}
