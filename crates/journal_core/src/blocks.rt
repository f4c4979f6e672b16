ghost use Rattle.std.specs.Prelude.{◌≡◌, ◌<◌, ◌-◌, ◌^◌, true, [], ◌∷◌, ◌++◌, length, slice_get, OnOk, OnErr, IsOk};
ghost use Rattle.std.specs.Option.{option_copied};

use std::alloc::{AllocError, Global};
use std::marker::Model;
use std::mem;

pub(crate) const BLOCK: usize = 64;

/// A list that grows in blocks of 64 elements, so that no element is ever moved.
#[derive(Drop)]
pub(crate) struct Blocks<T> {
    alloc: Global,
    full: Vec<Vec<T>>,
    last: Vec<T>,
    len: usize,
}

impl<T> Model for Blocks<T> {
    ghost use Rattle.std.specs.Prelude.{◌≡◌, ◌≤◌, ◌++◌, ◌&&◌, nat_lt, vec_items, vec_len, vec_capacity, flat_map, length};
    ghost use Rattle.journal_core.specs.Blocks.{BlocksState, AreFull};
    ghost use Rattle.journal_core.specs.declared.blocks.TheConstants.{BLOCK};

    ghost Value = { BlocksState T };

    ghost view = { λ b. record {
      items = flat_map vec_items b.full.items ++ b.last.items;
      has_room = nat_lt (vec_len b.last) (vec_capacity b.last) && nat_lt (vec_len b.last) BLOCK;
    } };

    ghost invariant = { λ b. AreFull vec_items BLOCK b.full.items × (vec_len b.last ≤ BLOCK)
        × (b.len ≡ length (flat_map vec_items b.full.items ++ b.last.items)) };
}

impl<T> Blocks<T> {
    pub(crate) fn new(alloc: Global) -> Blocks<T>
        ensures { result.items ≡ [] }
    {
        Blocks {
            alloc,
            full: Vec::new(alloc),
            last: Vec::new(alloc),
            len: 0,
        }
    }

    /// Makes room for one more element, if there is none. Refused for want of memory; nothing changes then.
    #[inline(always)]
    pub(crate) fn reserve_one(&mut self) -> Result<(), AllocError>
        ensures items { self.new.items ≡ self.old.items }
        ensures room { OnOk result (self.new.has_room ≡ true) }
        ensures had { self.old.has_room ≡ true → IsOk result }
        ensures err { OnErr result (self.new ≡ self.old) }
    {
        if self.last.len() < BLOCK {
            let more = if self.last.capacity() == 0 { BLOCK } else { 1 };
            return self.last.reserve(more);
        }
        self.full.reserve(1)?;
        let next = Vec::with_capacity(self.alloc, BLOCK)?;
        self.full.push_reserved(mem::replace(&mut self.last, next));
        Ok(())
    }

    pub(crate) fn push_reserved(&mut self, value: T)
        requires room { self.old.has_room ≡ true }
        requires few { length self.old.items < 2 ^ 64 - 1 }
        ensures { self.new.items ≡ self.old.items ++ value ∷ [] }
    {
        self.last.push_reserved(value);
        self.len += 1;
    }

    pub(crate) fn get(&self, i: usize) -> Option<&T>
        ensures { option_copied result ≡ slice_get self.now.items i }
    {
        match element(&self.full, i / BLOCK) {
            Some(block) => element(block, i % BLOCK),
            None if i / BLOCK == self.full.len() => element(&self.last, i % BLOCK),
            None => None,
        }
    }

    pub(crate) fn len(&self) -> usize
        ensures { result ≡ length self.now.items }
    {
        self.len
    }
}

fn element<T>(all: &Vec<T>, i: usize) -> Option<&T>
    ensures { option_copied result ≡ slice_get all.now.items i }
{
    all.get(i)
}
