ghost use Rattle.std.specs.Prelude.{◌≡◌, ◌<◌, ◌++◌, ◌∷◌, [], IfOk, IfErr, IfSome, OnOk, true, codes, drop, length, map};
ghost use Rattle.resp_core.specs.Tree.{bulk, is_plain_tree};
ghost use Rattle.resp_core.specs.Value.{tree_of};
ghost use Rattle.resp_core.specs.Text.{text};
ghost use Rattle.resp_core.specs.Command.{are_words, payload_of, IsArrayOf};
ghost use Rattle.splitter.specs.Split.{pairs, part_at};
ghost use Rattle.splitter.specs.Part.{head_of, key_parts_of, key_texts, part_of};
ghost use Rattle.splitter.specs.Plan.{parts};
ghost use Rattle.splitter.specs.Planned.{planned_in};
ghost use Rattle.splitter.specs.declared.plans.Join.TheVariants.{Same};

use crate::error::SplitError;
use crate::plans::{PartPlan, PartPlans, Planned};
use bytes::Bytes;
use itoa::Buffer;
use resp_core::{Payload, Texts, Value, Values, bulk_len, put_bulk, put_bulk_behind};
use std::alloc::Global;

// The most bytes of the texts of parts that share a block.
const MAX_JOINED: usize = 16_384;

// Most heads are shorter.
const MAX_HEAD: usize = 32;

pub(crate) fn whole_part<'a>(
    texts: &mut Texts,
    command: &Value,
    text_len: u64,
    words: &'a Values,
    key_at: usize,
) -> Result<Planned<'a>, SplitError>
    requires words { are_words words.now ≡ true }
    requires array { IsArrayOf words.now (tree_of command.now) }
    requires inside { key_at < length words.now }
    ensures parts { IfOk result
        (λ p. planned_in p ≡ parts Same (part_at key_at (map payload_of words.now) ∷ [])) }
    ensures err { IfErr result (λ e. e ≡ SplitError.NoMemory) }
{
    Ok(Planned::Whole {
        key: words.word(key_at).as_slice(),
        text: texts.text_of(command, text_len)?,
    })
}

pub(crate) fn key_parts(
    alloc: Global,
    texts: &mut Texts,
    text_len: u64,
    name: Bytes,
    words: &Values,
) -> Result<PartPlans, SplitError>
    requires { are_words words.now ≡ true }
    ensures parts { IfOk result
        (λ ps. ps ≡ map (λ key. part_at 1 (name ∷ key ∷ [])) (drop 1 (map payload_of words.now))) }
    ensures err { IfErr result (λ e. e ≡ SplitError.NoMemory) }
{
    let head = head(alloc, 2, name)?;
    match joined_texts(alloc, text_len, head.as_slice(), words)? {
        Some(joined) => joined_parts(alloc, head.as_slice(), joined, words),
        None => single_parts(alloc, texts, head.as_slice(), words),
    }
}

// `None` if the texts have more bytes than may share a block.
fn joined_texts(
    alloc: Global,
    text_len: u64,
    head: &[u8],
    words: &Values,
) -> Result<Option<Bytes>, SplitError>
    requires { are_words words.now ≡ true }
    ensures texts { IfOk result (λ o. IfSome o
        (λ bytes. bytes ≡ key_texts head.now (drop 1 (map payload_of words.now)))) }
    ensures err { IfErr result (λ e. e ≡ SplitError.NoMemory) }
{
    let heads = words.0.len().saturating_mul(head.len());
    let room = heads.saturating_add(text_len as usize).min(MAX_JOINED);
    let mut joined = Vec::with_capacity(alloc, room)?;
    for at in 1..words.0.len() {
        put_bulk_behind(head, words.word(at).as_slice(), &mut joined)?;
        if joined.len() > MAX_JOINED {
            return Ok(None);
        }
    }
    Ok(Some(Bytes::from_vec(joined)?))
}

fn joined_parts(
    alloc: Global,
    head: &[u8],
    joined: Bytes,
    words: &Values,
) -> Result<PartPlans, SplitError>
    requires words { are_words words.now ≡ true }
    requires texts { joined ≡ key_texts head.now (drop 1 (map payload_of words.now)) }
    ensures parts { IfOk result
        (λ ps. ps ≡ key_parts_of head.now (drop 1 (map payload_of words.now))) }
    ensures err { IfErr result (λ e. e ≡ SplitError.NoMemory) }
{
    let mut rest = joined;
    let mut parts = Vec::with_capacity(alloc, words.0.len() - 1)?;
    for at in 1..words.0.len() {
        let key = words.word(at);
        let len = bulk_len(key.len() as u64).saturating_add(head.len() as u64);
        let text = rest.split_to(len.min(rest.len() as u64) as usize)?;
        parts.push(PartPlan {
            key: key.bytes()?,
            text,
        })?;
    }
    Ok(PartPlans(parts))
}

fn single_parts(
    alloc: Global,
    texts: &mut Texts,
    head: &[u8],
    words: &Values,
) -> Result<PartPlans, SplitError>
    requires { are_words words.now ≡ true }
    ensures parts { IfOk result
        (λ ps. ps ≡ key_parts_of head.now (drop 1 (map payload_of words.now))) }
    ensures err { IfErr result (λ e. e ≡ SplitError.NoMemory) }
{
    let mut parts = Vec::with_capacity(alloc, words.0.len() - 1)?;
    for at in 1..words.0.len() {
        parts.push(key_part(texts, head, words.word(at))?)?;
    }
    Ok(PartPlans(parts))
}

pub(crate) fn pair_parts(
    alloc: Global,
    texts: &mut Texts,
    words: &Values,
) -> Result<PartPlans, SplitError>
    requires { are_words words.now ≡ true }
    ensures parts { IfOk result (λ ps. ps
        ≡ map (λ pair. part_at 1 (codes "SET" ∷ pair.0 ∷ pair.1 ∷ []))
        (pairs (drop 1 (map payload_of words.now)))) }
    ensures err { IfErr result (λ e. e ≡ SplitError.NoMemory) }
{
    let head = head(alloc, 3, Bytes::from_static(b"SET"))?;
    let count = (words.0.len() - 1) / 2;
    let mut parts = Vec::with_capacity(alloc, count)?;
    for pair in 0..count {
        let (key, value) = (words.word(2 * pair + 1), words.word(2 * pair + 2));
        parts.push(pair_part(texts, head.as_slice(), key, value)?)?;
    }
    Ok(PartPlans(parts))
}

fn head(alloc: Global, words: usize, name: Bytes) -> Result<Vec<u8>, SplitError>
    ensures text { IfOk result (λ head. head.items ≡ head_of words name) }
    ensures err { IfErr result (λ e. e ≡ SplitError.NoMemory) }
{
    let mut head = Vec::with_capacity(alloc, MAX_HEAD)?;
    head.push(b'*')?;
    head.extend_from_slice(Buffer::new().format(words).as_bytes())?;
    head.extend_from_slice(b"\r\n")?;
    put_bulk(name.as_slice(), &mut head)?;
    Ok(head)
}

fn key_part(texts: &mut Texts, head: &[u8], key: &Payload) -> Result<PartPlan, SplitError>
    ensures part { IfOk result (λ p. p ≡ part_of key.now (head.now ++ text (bulk key.now))) }
    ensures err { IfErr result (λ e. e ≡ SplitError.NoMemory) }
{
    Ok(PartPlan {
        key: key.bytes()?,
        text: texts.bulk_behind(head, key.as_slice())?,
    })
}

fn pair_part(
    texts: &mut Texts,
    head: &[u8],
    key: &Payload,
    value: &Payload,
) -> Result<PartPlan, SplitError>
    ensures part { IfOk result
        (λ p. p ≡ part_of key.now (head.now ++ text (bulk key.now) ++ text (bulk value.now))) }
    ensures err { IfErr result (λ e. e ≡ SplitError.NoMemory) }
{
    Ok(PartPlan {
        key: key.bytes()?,
        text: texts.bulks_behind(head, key.as_slice(), value.as_slice())?,
    })
}
