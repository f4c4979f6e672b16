//! Rows of the ring: hosts' names, keys' points, and owners.

use anyhow::{Result, bail};
use ketama::{HostName, Ring, RingError, point_of_key};
use std::alloc::Global;
use test_rows::again;
use test_rows::rings::{numbered_ring, points_of, weights_of};
use test_rows::shown::{escaped, refusal_words, shown};
use test_rows::text::{first_word, number, unknown, word_bytes};

/// Makes one action on the row's latest ring: `name BYTES`, `point KEY`, `tagged KEY` (its point by its tag),
/// `of_points HOSTS POINT:HOST,..`, `build NAME,.. WEIGHT,..`, `many HOSTS WEIGHT`, `owner POINT`, `owner POINT out
/// HOST ..`, or `key KEY`: the key's point and owner, and whether it stays when host 1 is out.
pub(crate) fn act(alloc: Global, ring: &mut Option<Ring>, line: &str) -> Result<String> {
    again!(told(alloc, ring, line))
}

// Making an action twice leaves the same state as making it once.
fn told(alloc: Global, ring: &mut Option<Ring>, line: &str) -> Result<String> {
    let (verb, rest) = first_word(line);
    match verb {
        "name" => name_text(alloc, rest),
        "point" => point_text(alloc, rest, false),
        "tagged" => point_text(alloc, rest, true),
        "of_points" => keep(alloc, ring, ring_of_points(alloc, rest)),
        "build" => keep(alloc, ring, built_ring(alloc, rest)),
        "many" => keep(alloc, ring, equal_ring(alloc, rest)),
        "owner" => owner(alloc, ring, rest),
        "key" => key(alloc, ring, rest),
        _ => unknown("action", verb),
    }
}

// Returns its hosts and digests, or why there is no ring.
fn keep(
    alloc: Global,
    kept: &mut Option<Ring>,
    made: Result<Result<Ring, RingError>>,
) -> Result<String> {
    match made? {
        Ok(ring) => {
            let (hosts, digests) = (ring.hosts(), ring.digests());
            drop(kept.replace(ring));
            shown(alloc, format_args!("{hosts} hosts, {digests} digests"))
        }
        Err(error) => refusal_words(alloc, error.number(), &error),
    }
}

fn owner(alloc: Global, ring: &Option<Ring>, words: &str) -> Result<String> {
    let (point, out) = first_word(words);
    let owner = owner_without(alloc, ring, number(point)?, out)?;
    owner_text(alloc, owner)
}

fn key(alloc: Global, ring: &Option<Ring>, word: &str) -> Result<String> {
    let key = word_bytes(alloc, word)?;
    let point = point_of_key(key.as_slice(), false);
    let owner = owner_without(alloc, ring, point, "")?;
    let left = owner_without(alloc, ring, point, "out 1")?;
    let stays = if owner == left { "stays" } else { "moves" };
    let host = owner_text(alloc, owner)?;
    shown(
        alloc,
        format_args!("{point}, host {host}, {stays} when host 1 goes out"),
    )
}

fn owner_without(
    alloc: Global,
    ring: &Option<Ring>,
    point: u32,
    out: &str,
) -> Result<Option<usize>> {
    let Some(ring) = ring else {
        bail!("no ring is made");
    };
    let mut usable = vec![in alloc; true; ring.hosts()]?;
    put_out(usable.as_mut_slice(), out)?;
    Ok(ring.owner(point, usable.as_slice()))
}

fn put_out(usable: &mut [bool], words: &str) -> Result<()> {
    for word in words.split_whitespace().skip(1) {
        let host: usize = number(word)?;
        if host < usable.len() {
            usable[host] = false;
        }
    }
    Ok(())
}

fn owner_text(alloc: Global, owner: Option<usize>) -> Result<String> {
    match owner {
        Some(host) => shown(alloc, host),
        None => shown(alloc, "None"),
    }
}

fn name_text(alloc: Global, word: &str) -> Result<String> {
    let bytes = word_bytes(alloc, word)?;
    match again!(HostName::read(alloc, bytes.as_slice())) {
        Ok(name) => escaped(alloc, name.as_bytes()),
        Err(error) => refusal_words(alloc, error.number(), &error),
    }
}

fn point_text(alloc: Global, word: &str, tags: bool) -> Result<String> {
    let key = word_bytes(alloc, word)?;
    let point = point_of_key(key.as_slice(), tags);
    shown(alloc, point)
}

fn ring_of_points(alloc: Global, words: &str) -> Result<Result<Ring, RingError>> {
    let (hosts, points) = first_word(words);
    let points = points_of(alloc, points)?;
    with_memory(Ring::of_points(alloc, number(hosts)?, points.as_slice()))
}

fn built_ring(alloc: Global, words: &str) -> Result<Result<Ring, RingError>> {
    let (names, weights) = first_word(words);
    let names = names_of(alloc, names)?;
    let weights = weights_of(alloc, weights)?;
    with_memory(Ring::build(alloc, names.as_slice(), weights.as_slice()))
}

// The text is a list `NAME,..`, or `none`.
fn names_of(alloc: Global, text: &str) -> Result<Vec<HostName>> {
    let mut names = Vec::new(alloc);
    if text == "none" {
        return Ok(names);
    }
    for name in text.split(',') {
        names.push(HostName::read(alloc, name.as_bytes())?)?;
    }
    Ok(names)
}

// The hosts are `host-0`, `host-1` and so on, all of one weight.
fn equal_ring(alloc: Global, words: &str) -> Result<Result<Ring, RingError>> {
    let (hosts, weight) = first_word(words);
    let weights = vec![in alloc; number(weight)?; number(hosts)?]?;
    with_memory(numbered_ring(alloc, weights.as_slice()))
}

// Turns want of memory into a failure, so that the call is made again.
fn with_memory(made: Result<Ring, RingError>) -> Result<Result<Ring, RingError>> {
    match made {
        Err(RingError::NoMemory) => bail!("out of memory"),
        made => Ok(made),
    }
}
