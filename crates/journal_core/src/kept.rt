ghost use Rattle.std.specs.Prelude.{◌≡◌, ◌<◌, ◌-◌, ◌^◌, true, false, [], ◌∷◌, ◌++◌, Some, length, slice_get, OnOk, OnErr, IfSome, IsOk};
ghost use Rattle.std.specs.Option.{option_copied};

use crate::blocks::Blocks;
use crate::list::Listed;
use std::alloc::{AllocError, Global};
use std::marker::Model;

/// A list of which all elements are kept, or only the newest. Contracts see all.
pub(crate) struct Kept<T> {
    // None where only the newest is kept.
    all: Option<Blocks<T>>,
    newest: Option<T>,
    len: usize,
    // For contracts alone.
    list: Listed<T>,
}

impl<T: Drop> Drop for Kept<T> {
    fn drop(self) {
        let Kept {
            all: _,
            newest: _,
            len: _,
            list: _,
        } = self;
    }
}

impl<T> Model for Kept<T> {
    ghost use Rattle.std.specs.Prelude.{◌≡◌, length, is_some};
    ghost use Rattle.journal_core.specs.Kept.{KeptState, AreKept, room_in};

    ghost Value = { KeptState T };

    ghost view = { λ k. record {
      items = k.list.items;
      has_room = room_in k.all;
      is_whole = is_some k.all;
    } };

    ghost invariant = { λ k. AreKept k.all k.newest k.list.items × (k.len ≡ length k.list.items) };
}

impl<T> Kept<T> {
    pub(crate) fn whole(alloc: Global) -> Kept<T>
        ensures items { result.items ≡ [] }
        ensures whole { result.is_whole ≡ true }
    {
        Kept {
            all: Some(Blocks::new(alloc)),
            newest: None,
            len: 0,
            list: Listed::new(),
        }
    }

    /// No element. Only the newest that is added is kept, and there is always room.
    pub(crate) fn newest() -> Kept<T>
        ensures items { result.items ≡ [] }
        ensures whole { result.is_whole ≡ false }
    {
        Kept {
            all: None,
            newest: None,
            len: 0,
            list: Listed::new(),
        }
    }

    #[inline(always)]
    pub(crate) fn reserve_one(&mut self) -> Result<(), AllocError>
        ensures items { self.new.items ≡ self.old.items }
        ensures whole { self.new.is_whole ≡ self.old.is_whole }
        ensures room { OnOk result (self.new.has_room ≡ true) }
        ensures had { self.old.has_room ≡ true → IsOk result }
        ensures err { OnErr result (self.new ≡ self.old) }
    {
        match &mut self.all {
            Some(all) => all.reserve_one(),
            None => Ok(()),
        }
    }

    pub(crate) fn get(&self, i: usize) -> Option<&T>
        ensures item { IfSome result (λ e. slice_get self.now.items i ≡ Some e.now) }
        ensures whole { self.now.is_whole ≡ true
            → option_copied result ≡ slice_get self.now.items i }
    {
        match &self.all {
            Some(all) => all.get(i),
            None if i == self.len.saturating_sub(1) => self.newest.as_ref(),
            None => None,
        }
    }

    pub(crate) fn last(&self) -> Option<&T>
        ensures { option_copied result ≡ slice_get self.now.items (length self.now.items - 1) }
    {
        match &self.all {
            Some(all) => all.get(self.len.saturating_sub(1)),
            None => self.newest.as_ref(),
        }
    }

    pub(crate) fn is_whole(&self) -> bool
        ensures { result ≡ self.now.is_whole }
    {
        self.all.is_some()
    }

    pub(crate) fn len(&self) -> usize
        ensures { result ≡ length self.now.items }
    {
        self.len
    }
}

impl<T: Drop> Kept<T> {
    #[inline(always)]
    pub(crate) fn push_reserved(&mut self, value: T)
        requires room { self.old.has_room ≡ true }
        requires few { length self.old.items < 2 ^ 64 - 1 }
        ensures items { self.new.items ≡ self.old.items ++ value ∷ [] }
        ensures whole { self.new.is_whole ≡ self.old.is_whole }
    {
        self.list = self.list.and(&value);
        self.len += 1;
        match &mut self.all {
            Some(all) => all.push_reserved(value),
            None => match &mut self.newest {
                Some(newest) => *newest = value,
                None => self.newest = Some(value),
            },
        }
    }
}
