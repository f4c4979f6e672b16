ghost use Rattle.std.specs.Prelude.{◌≡◌, ◌↔◌, ◌<◌, [], ◌++◌, not, ◌==◌, length, filter, map, slice_get, Contains, option_to_list, IsTrue, IfSome, IsNone};

use crate::opened::Open;
use arrayvec::ArrayVec;
use limits::MAX_GENERATIONS;

pub(crate) const MAX_DRAINING: usize = MAX_GENERATIONS - 1;

/// Those before the newest one that have connections, the oldest first.
#[derive(Drop)]
pub(crate) struct Older {
    kept: ArrayVec<Open, MAX_DRAINING>,
}

impl Older {
    ghost use Rattle.proxy_generations.specs.Older.{numbers_of, swept_at, first_if_full};

    pub(crate) fn new() -> Older
        ensures { result.kept.items ≡ [] }
    {
        Older {
            kept: ArrayVec::new(),
        }
    }

    pub(crate) fn has_room(&self) -> bool
        ensures { IsTrue result ↔ (length self.now.kept.items < MAX_DRAINING) }
    {
        !self.kept.is_full()
    }

    pub(crate) fn len(&self) -> usize
        ensures { result ≡ length self.now.kept.items }
    {
        self.kept.len()
    }

    pub(crate) fn number_at(&self, index: usize) -> Option<u64>
        ensures { result ≡ slice_get (numbers_of self.now.kept.items) index }
    {
        match self.kept.as_slice().get(index) {
            None => None,
            Some(one) => Some(one.number),
        }
    }

    /// The oldest one's number, if no further one may drain.
    pub(crate) fn in_the_way(&self) -> Option<u64>
        ensures { result ≡ first_if_full (numbers_of self.now.kept.items) }
    {
        if self.has_room() {
            None
        } else {
            self.number_at(0)
        }
    }

    pub(crate) fn has(&self, number: u64) -> bool
        ensures { IsTrue result ↔ Contains (numbers_of self.now.kept.items) number }
    {
        for one in self.kept.as_slice() {
            if one.number == number {
                return true;
            }
        }
        false
    }

    pub(crate) fn sweep_of(&self, number: u64) -> Option<u64>
        ensures some { IfSome result
            (λ t. Contains self.now.kept.items (record { number = number; swept = t })) }
        ensures none { IsNone result ↔ ¬ Contains (numbers_of self.now.kept.items) number }
    {
        for one in self.kept.as_slice() {
            if one.number == number {
                return Some(one.swept);
            }
        }
        None
    }

    pub(crate) fn add(&mut self, one: Option<Open>)
        ensures { length self.old.kept.items < MAX_DRAINING
            → self.new.kept.items ≡ self.old.kept.items ++ option_to_list one }
    {
        if let Some(one) = one {
            let _ = self.kept.try_push(one);
        }
    }

    pub(crate) fn remove(&mut self, number: u64)
        ensures { self.new.kept.items
            ≡ filter (λ o. not (number == o.number)) self.old.kept.items }
    {
        let mut after = ArrayVec::new();
        for one in self.kept.as_slice() {
            if number != one.number {
                after.push(*one);
            }
        }
        self.kept = after;
    }

    pub(crate) fn sweep(&mut self, number: u64, now: u64)
        ensures { self.new.kept.items ≡ map (swept_at number now) self.old.kept.items }
    {
        let mut after = ArrayVec::new();
        for one in self.kept.as_slice() {
            after.push(one.swept_at(number, now));
        }
        self.kept = after;
    }
}
