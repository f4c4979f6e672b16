ghost use Rattle.std.specs.Prelude.{◌≡◌, ◌<◌, ◌≤◌, ◌++◌, ℕ, List, length, map, take, IfOk, IfSome};
ghost use Rattle.std.specs.Fmt.{decimal};
ghost use Rattle.resp_core.specs.Tree.{bulk, trees_of};
ghost use Rattle.resp_core.specs.Text.{line, text, texts};
ghost use Rattle.resp_core.specs.Text.{text as spelling};
ghost use Rattle.resp_core.specs.Grammar.{max_bulk};
ghost use Rattle.resp_core.specs.Command.{word, command_of};
ghost use Rattle.resp_core.specs.Value.{tree_of};
ghost use Rattle.resp_core.specs.SpelledCommand.{IsPlace, IsSpelled};

use crate::digits::{digit_of, short_length};
use crate::head::{Found, Head, Next, RefusedByte, read_head, short_bulk};
use crate::parse::take_payload;
use crate::payload::Payload;
use crate::pending::MAX_COPY_BLOCK;
use crate::text::digits;
use crate::value::{Value, Values};
use bytes::Bytes;
use limits::MAX_BULK;
use std::alloc::{AllocError, Global};
use std::marker::Model;

const HEAD_LEN: usize = 4;

pub(crate) const MAX_WORDS: u64 = 9;

/// A command as its text, where that is the one spelling of at most nine words in at most 512 bytes.
pub struct SpelledCommand {
    text: Bytes,
}

impl Drop for SpelledCommand {
    fn drop(self) {
        let SpelledCommand { text: _ } = self;
    }
}

impl Model for SpelledCommand {
    ghost use Rattle.std.specs.Prelude.{List, ℕ};
    ghost use Rattle.resp_core.specs.SpelledCommand.{IsSpelled, words_in};

    ghost Value = { List (List ℕ) };

    ghost view = { λ c. words_in c.text };

    ghost invariant = { λ c. IsSpelled c.text (words_in c.text) };
}

// The number has at most three digits and no leading zeros. Most have one or two.
#[inline(always)]
fn short_line(bytes: &[u8], kind: u8, limit: u64) -> Option<(u64, &[u8])>
    ensures line { IfSome result (λ x. bytes.now ≡ line kind (decimal x.0) ++ x.1.now) }
    ensures limit { IfSome result (λ x. x.0 ≤ limit) }
{
    if let Some(found) = one_digit_line(bytes, kind, limit) {
        return Some(found);
    }
    if let Some(found) = two_digit_line(bytes, kind, limit) {
        return Some(found);
    }
    long_line(bytes, kind, limit)
}

#[inline(always)]
fn one_digit_line(bytes: &[u8], kind: u8, limit: u64) -> Option<(u64, &[u8])>
    ensures line { IfSome result (λ x. bytes.now ≡ line kind (decimal x.0) ++ x.1.now) }
    ensures limit { IfSome result (λ x. x.0 ≤ limit) }
{
    let [first, ones, b'\r', b'\n', rest @ ..] = bytes else {
        return None;
    };
    let n = digit_of(*ones)?;
    if *first == kind && n <= limit {
        Some((n, rest))
    } else {
        None
    }
}

#[inline(always)]
fn two_digit_line(bytes: &[u8], kind: u8, limit: u64) -> Option<(u64, &[u8])>
    ensures line { IfSome result (λ x. bytes.now ≡ line kind (decimal x.0) ++ x.1.now) }
    ensures limit { IfSome result (λ x. x.0 ≤ limit) }
{
    let [first, tens, ones, b'\r', b'\n', rest @ ..] = bytes else {
        return None;
    };
    let n = digit_of(*tens)? * 10 + digit_of(*ones)?;
    if *first == kind && n >= 10 && n <= limit {
        Some((n, rest))
    } else {
        None
    }
}

#[inline(never)]
fn long_line(bytes: &[u8], kind: u8, limit: u64) -> Option<(u64, &[u8])>
    ensures line { IfSome result (λ x. bytes.now ≡ line kind (decimal x.0) ++ x.1.now) }
    ensures limit { IfSome result (λ x. x.0 ≤ limit) }
{
    let (first, rest) = bytes.split_first()?;
    if *first != kind {
        return None;
    }
    let (n, len) = short_length(rest, limit)?;
    if len as u64 != digits(n).saturating_add(2) {
        return None;
    }
    Some((n, &rest[len..]))
}

fn behind_bulk(bytes: &[u8]) -> Option<&[u8]>
    ensures { IfSome result (λ rest. (s : List ℕ) × (bytes.now ≡ text (bulk s) ++ rest.now)) }
{
    let (len, rest) = short_line(bytes, b'$', MAX_BULK)?;
    match take_payload(rest, len) {
        Ok((_, rest)) => Some(rest),
        Err(_) => None,
    }
}

pub(crate) fn spelled_len(bytes: &[u8]) -> Option<usize>
    ensures inside { IfSome result (λ len. (0 < len) × (len ≤ length bytes.now)) }
    ensures spelled { IfSome result
        (λ len. (ws : List (List ℕ)) × IsSpelled (take len bytes.now) ws) }
{
    let (count, behind) = short_line(bytes, b'*', MAX_WORDS)?;
    if count == 0 {
        return None;
    }
    let mut rest = behind;
    for _ in 0..count {
        rest = behind_bulk(rest)?;
    }
    let len = bytes.len() - rest.len();
    if len <= MAX_COPY_BLOCK {
        Some(len)
    } else {
        None
    }
}

#[derive(Clone, Copy, Drop)]
pub(crate) struct Place {
    pub(crate) head: usize,
    pub(crate) len: usize,
}

fn place_of(bytes: &[u8]) -> Place
    requires { (s rest : List ℕ) × (bytes.now ≡ text (bulk s) ++ rest) × (length s ≤ max_bulk) }
    ensures { (s rest : List ℕ) → bytes.now ≡ text (bulk s) ++ rest → length s ≤ max_bulk
        → IsPlace result.head result.len s rest bytes.now }
{
    if let Some((n, head)) = short_bulk(bytes, 0, 0) {
        return Place {
            head,
            len: n as usize,
        };
    }
    let (next, head) = match read_head(Head::Type, bytes, 0, 0) {
        Ok(read) => read,
        Err(RefusedByte(_, _)) => unreachable!(),
    };
    let Next::Found(found) = next else {
        unreachable!()
    };
    let Found::Payload(n) = found else {
        unreachable!()
    };
    Place {
        head,
        len: n as usize,
    }
}

#[inline(always)]
fn split_bulk(bytes: &[u8]) -> (&[u8], &[u8])
    requires { (s rest : List ℕ) × (bytes.now ≡ text (bulk s) ++ rest) × (length s ≤ max_bulk) }
    ensures { (s rest : List ℕ) → bytes.now ≡ text (bulk s) ++ rest → length s ≤ max_bulk
        → (result.0.now ≡ s) × (result.1.now ≡ rest) }
{
    match short_line(bytes, b'$', MAX_BULK) {
        Some((len, behind)) => {
            let (word, end) = behind.split_at(len as usize);
            (word, &end[2..])
        }
        None => split_long_bulk(bytes),
    }
}

#[inline(never)]
fn split_long_bulk(bytes: &[u8]) -> (&[u8], &[u8])
    requires { (s rest : List ℕ) × (bytes.now ≡ text (bulk s) ++ rest) × (length s ≤ max_bulk) }
    ensures { (s rest : List ℕ) → bytes.now ≡ text (bulk s) ++ rest → length s ≤ max_bulk
        → (result.0.now ≡ s) × (result.1.now ≡ rest) }
{
    let Place { head, len } = place_of(bytes);
    let (word, behind) = bytes[head..].split_at(len);
    (word, &behind[2..])
}

fn take_bulk(bytes: &mut Bytes) -> Result<Payload, AllocError>
    requires { (s rest : List ℕ) × (bytes.old ≡ text (bulk s) ++ rest) × (length s ≤ max_bulk) }
    ensures { IfOk result (λ word. (s rest : List ℕ) → bytes.old ≡ text (bulk s) ++ rest
        → length s ≤ max_bulk → (word ≡ s) × (bytes.new ≡ rest)) }
{
    let Place { head, len } = place_of(bytes.as_slice());
    let text = bytes.split_to(head + len + 2)?;
    Ok(Payload::in_text(head as u8, text))
}

impl SpelledCommand {
    /// Its text.
    pub fn text(&self) -> &Bytes
        ensures { result.now ≡ text (command_of self.now) }
    {
        &self.text
    }

    /// The number of its words, from 1 to 9.
    pub fn count(&self) -> usize
        ensures count { result ≡ length self.now }
        ensures some { 0 < result }
    {
        (self.text.as_slice()[1] - b'0') as usize
    }

    fn words(&self) -> &[u8]
        ensures texts { result.now ≡ texts (trees_of (map bulk self.now)) }
        ensures few { (at : ℕ) → at < length self.now → length (word self.now at) ≤ max_bulk }
    {
        self.text.as_slice().split_at(HEAD_LEN).1
    }

    /// The bytes of word `at`; word 0 is the command's name.
    pub fn word(&self, at: usize) -> &[u8]
        requires { at < length self.now }
        ensures { result.now ≡ word self.now at }
    {
        let mut rest = self.words();
        for _ in 0..at {
            rest = split_bulk(rest).1;
        }
        split_bulk(rest).0
    }

    pub(crate) fn from_text(text: Bytes) -> SpelledCommand
        requires { (ws : List (List ℕ)) × IsSpelled text ws }
        ensures { (ws : List (List ℕ)) → IsSpelled text ws → result ≡ ws }
    {
        SpelledCommand { text }
    }

    /// The command of this text, if that is the one spelling of one with at most nine words in at most 512 bytes.
    /// Words of 1,000 bytes aren't taken.
    pub fn of(text: Bytes) -> Option<SpelledCommand>
        ensures { IfSome result (λ c. text ≡ spelling (command_of c)) }
    {
        match spelled_len(text.as_slice()) {
            Some(len) if len == text.len() => Some(SpelledCommand::from_text(text)),
            _ => None,
        }
    }

    /// The same command, with the same text. Refused only for want of memory.
    pub fn share(&self) -> Result<SpelledCommand, AllocError>
        ensures { IfOk result (λ c. c ≡ self.now) }
    {
        Ok(SpelledCommand {
            text: self.text.clone()?,
        })
    }

    fn shared_words(&self) -> Result<Bytes, AllocError>
        ensures texts { IfOk result (λ b. b ≡ texts (trees_of (map bulk self.now))) }
        ensures few { (at : ℕ) → at < length self.now → length (word self.now at) ≤ max_bulk }
    {
        let mut words = self.text.clone()?;
        words.advance(HEAD_LEN);
        Ok(words)
    }

    /// The same command as a value, whose words share the text. Refused only for want of memory.
    pub fn value(&self, alloc: Global) -> Result<Value, AllocError>
        ensures { IfOk result (λ v. tree_of v ≡ command_of self.now) }
    {
        let count = self.count();
        let mut words = Vec::with_capacity(alloc, count)?;
        let mut rest = self.shared_words()?;
        for _ in 0..count {
            words.push(Value::Bulk(take_bulk(&mut rest)?))?;
        }
        Ok(Value::List(Values(words)))
    }
}
