ghost use Rattle.std.specs.Prelude.{◌≡◌, ◌↔◌, ◌^◌, ◌++◌, ◌<◌, ℕ, IfOk, OnOk, AllPairs, Contains, length, sum};
ghost use Rattle.md5.specs.Md5.{md5};
ghost use Rattle.ketama.specs.Point.{point_in};
ghost use Rattle.ketama.specs.Continuum.{IsBefore};
ghost use Rattle.ketama.specs.Ketama.{IsKetamaPair, label_of, digest_pairs, host_pairs, ring_pairs};

use crate::name::HostName;
use crate::owner::Pair;
use crate::share::sum;
use itoa::Buffer;
use md5::{DIGEST_LEN, Digest, Md5};
use std::alloc::{AllocError, Global};

const POINTS_OF_DIGEST: usize = 4;

/// The least significant byte comes first.
pub(crate) fn point_at(digest: &[u8; DIGEST_LEN], index: usize) -> u32
    requires { index < 4 }
    ensures { result ≡ point_in digest.now index }
{
    let from = 4 * index;
    u32::from_le_bytes([
        digest[from],
        digest[from + 1],
        digest[from + 2],
        digest[from + 3],
    ])
}

pub(crate) fn pairs_of(
    alloc: Global,
    names: &[HostName],
    counts: &[u32],
) -> Result<Vec<Pair>, AllocError>
    requires each { length counts.now ≡ length names.now }
    requires few { sum counts.now < 2 ^ 32 }
    ensures in_order { IfOk result (λ pairs. AllPairs IsBefore pairs.items) }
    ensures members { IfOk result (λ pairs. (pair : ℕ × ℕ) → Contains pairs.items pair
        ↔ IsKetamaPair names.now counts.now pair) }
{
    let mut pairs = unordered_pairs(alloc, names, counts)?;
    put_in_order(&mut pairs);
    Ok(pairs)
}

/// Sorts by point and then by host, each once.
pub(crate) fn put_in_order(pairs: &mut Vec<Pair>)
    ensures in_order { AllPairs IsBefore pairs.new.items }
    ensures members { (pair : ℕ × ℕ) → Contains pairs.new.items pair
        ↔ Contains pairs.old.items pair }
{
    pairs.sort_unstable();
    pairs.dedup();
}

fn unordered_pairs(
    alloc: Global,
    names: &[HostName],
    counts: &[u32],
) -> Result<Vec<Pair>, AllocError>
    requires each { length counts.now ≡ length names.now }
    requires few { sum counts.now < 2 ^ 32 }
    ensures { IfOk result
        (λ pairs. pairs.items ≡ ring_pairs names.now counts.now (length names.now)) }
{
    let points = sum(counts) as usize * POINTS_OF_DIGEST;
    let mut pairs = Vec::with_capacity(alloc, points)?;
    for (host, name) in names.iter().enumerate() {
        push_host(&mut pairs, name.as_bytes(), host, counts[host])?;
    }
    Ok(pairs)
}

fn push_host(
    pairs: &mut Vec<Pair>,
    name: &[u8],
    host: usize,
    digests: u32,
) -> Result<(), AllocError>
    ensures { OnOk result (pairs.new.items ≡ pairs.old.items ++ host_pairs name.now host digests) }
{
    for k in 0..digests {
        push_digest(pairs, &digest_of(name, k), host)?;
    }
    Ok(())
}

fn push_digest(
    pairs: &mut Vec<Pair>,
    digest: &[u8; DIGEST_LEN],
    host: usize,
) -> Result<(), AllocError>
    ensures { OnOk result (pairs.new.items ≡ pairs.old.items ++ digest_pairs digest.now host) }
{
    pairs.extend_from_slice(&[
        (point_at(digest, 0), host),
        (point_at(digest, 1), host),
        (point_at(digest, 2), host),
        (point_at(digest, 3), host),
    ])
}

// The MD5 of the host's name, a dash, and k in decimal.
fn digest_of(name: &[u8], k: u32) -> [u8; DIGEST_LEN]
    ensures { result ≡ md5 (label_of name.now k) }
{
    let mut number = Buffer::new();
    let mut hasher = Md5::new();
    hasher.update(name);
    hasher.update(b"-");
    hasher.update(number.format(k));
    hasher.finalize()
}
