ghost use Rattle.std.specs.Prelude.{◌≡◌, IfSome, IfNone, Some, None, OnOk, OnErr, IfErr, map};
ghost use Rattle.std.specs.List.{position};
ghost use Rattle.resp_core.specs.Value.{tree_of};
ghost use Rattle.resp_core.specs.Command.{payload_of};
ghost use Rattle.stub_server.specs.Map.{value_at, is_of, is_key, with_value, count_among, count_keys, map_without, names_key};

use crate::error::StubError;
use crate::words::payload;
use bytes::Bytes;
use resp_core::Value;

/// A key and its value.
#[derive(Drop)]
pub struct Entry {
    /// The key.
    pub key: Bytes,
    /// The value at the key.
    pub value: Bytes,
}

pub(crate) fn value_at<'a>(entries: &'a [Entry], key: &[u8]) -> Option<&'a Bytes>
    ensures found { IfSome result (λ value. value_at key.now entries.now ≡ Some value.now) }
    ensures missing { IfNone result (value_at key.now entries.now ≡ None) }
{
    for entry in entries {
        if entry.key.as_slice() == key {
            return Some(&entry.value);
        }
    }
    None
}

/// Replaces the key's value in its place, or adds it behind all others.
///
/// Refused 1501 (no memory): the map is unchanged.
pub(crate) fn put(entries: &mut Vec<Entry>, key: Bytes, value: Bytes) -> Result<(), StubError>
    ensures ok { OnOk result (entries.new.items ≡ with_value key value entries.old.items) }
    ensures err { OnErr result (entries.new.items ≡ entries.old.items) }
    ensures memory { IfErr result (λ e. e ≡ StubError.NoMemory) }
{
    match place_of(entries, key.as_slice()) {
        Some(at) => entries[at].value = value,
        None => entries.push(Entry { key, value })?,
    }
    Ok(())
}

pub(crate) fn count_among(entries: &[Entry], keys: &[Value]) -> usize
    ensures { result ≡ count_among (map payload_of (map tree_of keys.now)) entries.now }
{
    entries
        .iter()
        .filter(|entry| is_among(keys, entry.key.as_slice()))
        .count()
}

/// Takes no memory.
pub(crate) fn take_out(entries: &mut Vec<Entry>, keys: &[Value])
    ensures { entries.new.items ≡ map_without
        (map payload_of (map tree_of keys.now)) entries.old.items }
{
    entries.retain(|entry| !is_among(keys, entry.key.as_slice()));
}

/// A repeated word counts again.
#[tactic(auto, using(crate::proofs::MapLemmas::count_by_map))]
pub(crate) fn count_keys(entries: &[Entry], words: &[Value]) -> usize
    ensures { result ≡ count_keys entries.now (map payload_of (map tree_of words.now)) }
{
    words
        .iter()
        .filter(|word| is_key(entries, payload(word)))
        .count()
}

fn is_among(words: &[Value], key: &[u8]) -> bool
    ensures { result ≡ names_key (map payload_of (map tree_of words.now)) key.now }
{
    for word in words {
        if payload(word) == key {
            return true;
        }
    }
    false
}

fn place_of(entries: &[Entry], key: &[u8]) -> Option<usize>
    ensures { result ≡ position (is_of key.now) entries.now }
{
    entries.iter().position(|entry| entry.key.as_slice() == key)
}

fn is_key(entries: &[Entry], key: &[u8]) -> bool
    ensures { result ≡ is_key entries.now key.now }
{
    entries.iter().any(|entry| entry.key.as_slice() == key)
}
