//! The setting of a script, its first line.
//!
//! It has `clear` or the digits of a key of hashes; `1` where only tags of keys are hashed, and else `0`; the nine numbers of
//! outlier detection in the order of `Settings`; and each host as `NAME=WEIGHT`.

use crate::script::{first_word, number};
use anyhow::{Result, bail};
use ketama::{HostName, Ring};
use proxy_core::{Core, Settings};
use proxy_record::Payloads;
use std::alloc::Global;

/// A core on the setting, and how payloads stand.
pub(crate) fn core_of(alloc: Global, line: &str) -> Result<(Core, Payloads)> {
    let (key, rest) = first_word(line);
    let (tags, rest) = first_word(rest);
    let payloads = payloads_of(key, tags == "1")?;
    let (settings, hosts) = settings_of(rest, tags == "1")?;
    let ring = ring_of(alloc, hosts)?;
    Ok((Core::new(alloc, ring, settings)?, payloads))
}

fn payloads_of(key: &str, tags: bool) -> Result<Payloads> {
    if key == "clear" {
        return Ok(Payloads::Clear);
    }
    let mut bytes = [0u8; 16];
    hex::decode_to_slice(key, &mut bytes)?;
    Ok(Payloads::Hashed { key: bytes, tags })
}

fn settings_of(line: &str, tags: bool) -> Result<(Settings, &str)> {
    let mut numbers = [0u32; 9];
    let mut rest = line;
    for n in numbers.iter_mut() {
        let (word, behind) = first_word(rest);
        match u32::try_from(number(word)?) {
            Ok(read) => *n = read,
            Err(_) => bail!("a number is too great"),
        }
        rest = behind;
    }
    let [
        interval_ms,
        base_ms,
        max_ms,
        max_percent,
        consecutive,
        success_hosts,
        request_volume,
        factor,
        panic_percent,
    ] = numbers;
    let settings = Settings {
        tags,
        interval_ms,
        base_ms,
        max_ms,
        max_percent,
        consecutive,
        success_hosts,
        request_volume,
        factor,
        panic_percent,
    };
    Ok((settings, rest))
}

fn ring_of(alloc: Global, words: &str) -> Result<Ring> {
    let mut hosts = Vec::new(alloc);
    let mut weights = Vec::new(alloc);
    for word in words.split_whitespace() {
        let (name, weight) = match word.split_once('=') {
            Some(parts) => parts,
            None => (word, "1"),
        };
        hosts.push(HostName::read(alloc, name.as_bytes())?)?;
        weights.push(weight.parse::<u32>()?)?;
    }
    Ok(Ring::build(alloc, hosts.as_slice(), weights.as_slice())?)
}
