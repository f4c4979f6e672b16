ghost use Rattle.std.specs.Prelude.{◌≡◌, ◌↔◌, ◌<◌, ◌≤◌, ◌+◌, ◌*◌, ℕ, length, max, IsTrue, IfSome, IfNone, OnOk, OnErr};
ghost use Rattle.std.specs.Bool.{OnTrue, OnFalse};
ghost use Rattle.proxy_serve_core.specs.KeySet.{AddsKey, AddsKeysBelow, AddsKeysOfWord, DropsKey, Has, HasNone, IsNext, JoinsKeys, SameKeys, capacity_of, whole_words};

use std::alloc::{AllocError, Global};
use std::marker::Model;

const BITS: usize = 64;

/// A set of keys below its capacity, which only `reserve` raises.
#[derive(Drop)]
pub(crate) struct KeySet {
    // Bit `k % 64` of word `k / 64` is set exactly if the set has key `k`.
    words: Vec<u64>,
}

impl Model for KeySet {
    ghost use Rattle.std.specs.Prelude.{◌≤◌, ◌^◌, ℕ, List, length};

    ghost Value = { List ℕ };

    ghost view = { λ s. s.words.items };

    ghost invariant = { λ s. length s.words.items ≤ 2 ^ 58 };
}

impl KeySet {
    pub(crate) fn new(alloc: Global) -> KeySet
        ensures none { HasNone result 0 }
        ensures capacity { capacity_of result ≡ 0 }
    {
        KeySet {
            words: Vec::new(alloc),
        }
    }

    /// Makes room in whole words. Without memory nothing changes.
    pub(crate) fn reserve(&mut self, capacity: usize) -> Result<(), AllocError>
        ensures room { OnOk result (capacity_of self.new
            ≡ max (capacity_of self.old) (whole_words capacity)) }
        ensures same { SameKeys self.old self.new }
        ensures err { OnErr result (self.new ≡ self.old) }
    {
        let count = capacity.div_ceil(BITS);
        if count > self.words.len() {
            self.words.resize(count, 0)?;
        }
        Ok(())
    }

    /// False: the key is past the capacity, and nothing changes.
    pub(crate) fn insert(&mut self, key: usize) -> bool
        ensures fits { IsTrue result ↔ (key < capacity_of self.old) }
        ensures adds { OnTrue result (AddsKey key self.old self.new) }
        ensures same { OnFalse result (self.new ≡ self.old) }
        ensures capacity { capacity_of self.new ≡ capacity_of self.old }
    {
        let index = key / BITS;
        if index >= self.words.len() {
            return false;
        }
        self.words[index] |= 1 << (key % BITS);
        true
    }

    pub(crate) fn remove(&mut self, key: usize)
        ensures drops { DropsKey key self.old self.new }
        ensures capacity { capacity_of self.new ≡ capacity_of self.old }
    {
        let index = key / BITS;
        if index < self.words.len() {
            self.words[index] &= !(1 << (key % BITS));
        }
    }

    /// False: the keys are past the capacity, and nothing changes.
    pub(crate) fn insert_word(&mut self, index: usize, bits: u64) -> bool
        ensures fits { IsTrue result ↔ (index < length self.old) }
        ensures adds { OnTrue result (AddsKeysOfWord index bits self.old self.new) }
        ensures same { OnFalse result (self.new ≡ self.old) }
        ensures capacity { capacity_of self.new ≡ capacity_of self.old }
    {
        if index >= self.words.len() {
            return false;
        }
        self.words[index] |= bits;
        true
    }

    /// False: the other's capacity is greater; nothing changes.
    pub(crate) fn insert_all_of(&mut self, other: &KeySet) -> bool
        ensures fits { IsTrue result ↔ (capacity_of other.now ≤ capacity_of self.old) }
        ensures joins { OnTrue result (JoinsKeys self.old other.now self.new) }
        ensures same { OnFalse result (self.new ≡ self.old) }
        ensures capacity { capacity_of self.new ≡ capacity_of self.old }
    {
        if other.words.len() > self.words.len() {
            return false;
        }
        join(&mut self.words, &other.words);
        true
    }

    /// As far as they are below the capacity.
    pub(crate) fn insert_all_below(&mut self, count: usize)
        ensures adds { AddsKeysBelow count self.old self.new }
        ensures capacity { capacity_of self.new ≡ capacity_of self.old }
    {
        for key in 0..count {
            self.insert(key);
        }
    }

    pub(crate) fn next(&self, from: usize) -> Option<usize>
        ensures found { IfSome result (IsNext self.now from) }
        ensures none { IfNone result (HasNone self.now from) }
    {
        let index = from / BITS;
        if index >= self.words.len() {
            return None;
        }
        let rest = self.words[index] >> (from % BITS);
        if rest != 0 {
            return Some(from + rest.trailing_zeros() as usize);
        }
        first_behind(&self.words, index)
    }
}

fn join(words: &mut [u64], others: &[u64])
    requires { length others.now ≤ length words.old }
    ensures { JoinsKeys words.old others.now words.new }
{
    for index in 0..others.len() {
        words[index] |= others[index];
    }
}

fn first_behind(words: &[u64], index: usize) -> Option<usize>
    requires within { index < length words.now }
    requires few { capacity_of words.now ≤ usize.MAX + 1 }
    ensures found { IfSome result (IsNext words.now (64 * index + 64)) }
    ensures none { IfNone result (HasNone words.now (64 * index + 64)) }
{
    for next in index + 1..words.len() {
        let word = words[next];
        if word != 0 {
            return Some(next * BITS + word.trailing_zeros() as usize);
        }
    }
    None
}
