ghost use Rattle.std.specs.Prelude.{◌≡◌, ◌+◌, ◌-◌, ◌≤◌, ◌<◌, ◌↔◌, true, false, [], ◌∷◌, ◌++◌, Some, None, length, slice_get, OnOk, OnErr, IfErr, IfSome, IsErrOf, IsSome};
ghost use Rattle.std.specs.Option.{option_copied};
ghost use Rattle.journal_core.specs.Journal.{IsFull};

use crate::error::JournalError;
use crate::kept::Kept;
use crate::step::Step;
use limits::{MAX_BYTES, MAX_STEPS};
use std::alloc::Global;
use std::marker::Model;

/// Steps in the order in which they were made, with their bytes of payload.
///
/// A journal that records keeps all steps. One that only counts keeps the newest, in the same limits. Contracts see
/// all steps of either. Only `room` takes memory.
pub struct Journal<E, A> {
    steps: Kept<Step<E, A>>,
    bytes: u64,
    // From `room` to `add`.
    room: Option<u64>,
}

impl<E: Drop, A: Drop> Drop for Journal<E, A> {
    fn drop(self) {
        let Journal {
            steps: _,
            bytes: _,
            room: _,
        } = self;
    }
}

impl<E, A> Model for Journal<E, A> {
    ghost use Rattle.std.specs.Prelude.{length};
    ghost use Rattle.journal_core.specs.Journal.{JournalState, IsWithinLimits, HasRoom};

    ghost Value = { JournalState E A };

    ghost view = { λ j. record {
      steps = j.steps.items;
      bytes = j.bytes;
      room = j.room;
      records = j.steps.is_whole;
    } };

    ghost invariant = { λ j. IsWithinLimits (length j.steps.items) j.bytes
        × HasRoom j.steps j.bytes j.room };
}

impl<E, A> Journal<E, A> {
    /// An empty journal, which keeps all steps.
    pub fn new(alloc: Global) -> Journal<E, A>
        ensures steps { result.steps ≡ [] }
        ensures bytes { result.bytes ≡ 0 }
        ensures room { result.room ≡ None }
        ensures records { result.records ≡ true }
    {
        Journal {
            steps: Kept::whole(alloc),
            bytes: 0,
            room: None,
        }
    }

    /// An empty journal, which keeps the newest step alone. It never takes memory.
    pub fn counting() -> Journal<E, A>
        ensures steps { result.steps ≡ [] }
        ensures bytes { result.bytes ≡ 0 }
        ensures room { result.room ≡ None }
        ensures records { result.records ≡ false }
    {
        Journal {
            steps: Kept::newest(),
            bytes: 0,
            room: None,
        }
    }

    /// Makes room for one step with this many bytes of payload; the next call may be `add` with the same number. It
    /// replaces room that wasn't used.
    ///
    /// Refused 902 (journal full) exactly if there are 262,144 steps or the bytes would pass 67,108,864, else 901 (no
    /// memory). After a refusal the journal and its earlier room are unchanged.
    #[inline(always)]
    pub fn room(&mut self, bytes: u64) -> Result<(), JournalError>
        ensures room { OnOk result (self.new.room ≡ Some bytes) }
        ensures full { IsErrOf result JournalError.JournalFull ↔ IsFull self.old bytes }
        ensures accepted { OnOk result ((length self.old.steps < MAX_STEPS)
            × (self.old.bytes + bytes ≤ MAX_BYTES)) }
        // If there is room already, no memory is taken.
        ensures reserved { IsSome self.old.room → IfErr result (λ e. e ≡ JournalError.JournalFull) }
        ensures steps { self.new.steps ≡ self.old.steps }
        ensures bytes { self.new.bytes ≡ self.old.bytes }
        ensures records { self.new.records ≡ self.old.records }
        ensures err { OnErr result (self.new ≡ self.old) }
    {
        if self.steps.len() >= MAX_STEPS || bytes > MAX_BYTES - self.bytes {
            return Err(JournalError::JournalFull);
        }
        self.steps.reserve_one()?;
        self.room = Some(bytes);
        Ok(())
    }

    /// The number of steps, at most 262,144.
    pub fn len(&self) -> usize
        ensures steps { result ≡ length self.now.steps }
        ensures limit { result ≤ MAX_STEPS }
    {
        self.steps.len()
    }

    /// The bytes of payload, at most 67,108,864.
    pub fn bytes(&self) -> u64
        ensures bytes { result ≡ self.now.bytes }
        ensures limit { result ≤ MAX_BYTES }
    {
        self.bytes
    }

    /// Step `i`, counted from 0 at the oldest, if it is kept. A journal that records has each of its steps. It takes no
    /// memory.
    pub fn get(&self, i: usize) -> Option<&Step<E, A>>
        ensures step { IfSome result (λ s. slice_get self.now.steps i ≡ Some s.now) }
        ensures recorded { self.now.records ≡ true
            → option_copied result ≡ slice_get self.now.steps i }
    {
        self.steps.get(i)
    }

    /// The newest step, which each journal keeps.
    pub fn last(&self) -> Option<&Step<E, A>>
        ensures { option_copied result ≡ slice_get self.now.steps (length self.now.steps - 1) }
    {
        self.steps.last()
    }

    /// Whether all steps are kept.
    pub fn records(&self) -> bool
        ensures { result ≡ self.now.records }
    {
        self.steps.is_whole()
    }
}

impl<E: Drop, A: Drop> Journal<E, A> {
    /// Adds a step with this many bytes of payload, for which room was made.
    #[inline(always)]
    pub fn add(&mut self, step: Step<E, A>, bytes: u64)
        requires { self.old.room ≡ Some bytes }
        ensures steps { self.new.steps ≡ self.old.steps ++ step ∷ [] }
        ensures bytes { self.new.bytes ≡ self.old.bytes + bytes }
        ensures room { self.new.room ≡ None }
        ensures records { self.new.records ≡ self.old.records }
    {
        self.steps.push_reserved(step);
        self.bytes += bytes;
        self.room = None;
    }
}
