ghost use Rattle.std.specs.Prelude.{◌≡◌, ◌≤◌, ◌+◌, ◌^◌, ◌-◌, ◌∷◌, ◌++◌, [], List, ℕ, Option, Some, length, map, min, filter, slice_get, IsOk, IfOk, IfErr, IfSome, IfNone};
ghost use Rattle.std.specs.Option.{option_copied, option_and_then};
ghost use Rattle.std.specs.VecDeque.{deque_len, deque_capacity};
ghost use Rattle.upstream_pipe.specs.declared.part.Owner.{Owner};
ghost use Rattle.upstream_pipe.specs.Pipe.{EndsEpoch, HasSent, IsAsBefore, MakesRoom, Pushes, TakesReply, owner_in, is_kept, forgotten_owner};

use crate::lost::Lost;
use crate::part::{Owner, Part};
use crate::refusal::PipeRefusal;
use limits::MAX_WAITING;
use std::alloc::Global;
use std::collections::VecDeque;
use std::marker::Model;

/// The pipe to one host: the parts that wait, and the owners of the parts that fly, sent in this epoch without a reply.
/// Only `room`, `push` and `fault` take memory.
///
/// Contracts see these, the epoch, the number of parts taken in it, and the number of further parts that there is
/// memory for.
pub struct Pipe {
    alloc: Global,
    waiting: VecDeque<Part>,
    // Its capacity has a place for each waiting part.
    flying: VecDeque<Option<Owner>>,
    epoch: u64,
    taken: u64,
}

impl Drop for Pipe {
    fn drop(self) {
        let Pipe {
            alloc: _,
            waiting: _,
            flying: _,
            epoch: _,
            taken: _,
        } = self;
    }
}

impl Model for Pipe {
    ghost use Rattle.std.specs.Prelude.{◌+◌, ◌-◌, ◌≤◌, min};
    ghost use Rattle.std.specs.VecDeque.{deque_len, deque_capacity};
    ghost use Rattle.upstream_pipe.specs.Pipe.{PipeState};
    ghost use Rattle.limits.specs.declared.queues.TheConstants.{MAX_WAITING};

    ghost Value = { PipeState };

    ghost view = { λ p. record {
      waiting = p.waiting.items;
      flying = p.flying.items;
      epoch = p.epoch;
      taken = p.taken;
      room = min (deque_capacity p.waiting - deque_len p.waiting)
          (deque_capacity p.flying - (deque_len p.flying + deque_len p.waiting));
    } };

    ghost invariant = { λ p. (deque_len p.waiting ≤ MAX_WAITING)
        × (deque_len p.flying + deque_len p.waiting ≤ deque_capacity p.flying) };
}

impl Pipe {
    /// An empty pipe, in epoch 0.
    pub fn new(alloc: Global) -> Pipe
        ensures waiting { result.waiting ≡ [] }
        ensures flying { result.flying ≡ [] }
        ensures epoch { result.epoch ≡ 0 }
        ensures taken { result.taken ≡ 0 }
    {
        Pipe {
            alloc,
            waiting: VecDeque::new(alloc),
            flying: VecDeque::new(alloc),
            epoch: 0,
            taken: 0,
        }
    }

    /// The number of faults so far.
    pub fn epoch(&self) -> u64
        ensures { result ≡ self.now.epoch }
    {
        self.epoch
    }

    /// The number of parts taken in this epoch, or the greatest `u64` if there were more.
    pub fn taken(&self) -> u64
        ensures { result ≡ self.now.taken }
    {
        self.taken
    }

    /// The number of parts that wait, at most 1,024.
    pub fn waiting(&self) -> usize
        ensures parts { result ≡ length self.now.waiting }
        ensures limit { result ≤ MAX_WAITING }
    {
        self.waiting.len()
    }

    /// The number of parts that fly, with forgotten ones.
    pub fn flying(&self) -> usize
        ensures { result ≡ length self.now.flying }
    {
        self.flying.len()
    }

    /// The owner of the part to which the next reply of this epoch belongs. `None`: no part flies, or that part was
    /// forgotten.
    pub fn next_owner(&self) -> Option<Owner>
        ensures { result ≡ option_and_then (λ place. place) (slice_get self.now.flying 0) }
    {
        match self.flying.front() {
            Some(place) => *place,
            None => None,
        }
    }

    /// The part that `take` would return.
    pub fn oldest(&self) -> Option<&Part>
        ensures { option_copied result ≡ slice_get self.now.waiting 0 }
    {
        self.waiting.front()
    }

    /// Makes room for this many more parts, so that the next calls of `push` take no memory. It takes none if there is
    /// room already.
    ///
    /// Refused 601 (no memory): the parts are unchanged, and there is no less room.
    pub fn room(&mut self, more: usize) -> Result<(), PipeRefusal>
        ensures { MakesRoom self.old self.new more result }
    {
        self.waiting.reserve(more)?;
        self.flying.reserve(self.waiting.len() + more)?;
        Ok(())
    }

    /// Queues a part, and reserves its place for flying.
    ///
    /// Refused 602 (full) if 1,024 parts wait, or 601 (no memory), which can't come if there is room. The part comes back.
    pub fn push(&mut self, part: Part) -> Result<(), (PipeRefusal, Part)>
        ensures { Pushes self.old self.new part result }
    {
        if self.waiting.len() >= MAX_WAITING {
            return Err((PipeRefusal::Full, part));
        }
        if self.flying.reserve(self.waiting.len() + 1).is_err() {
            return Err((PipeRefusal::NoMemory, part));
        }
        match self.waiting.push_back(part) {
            Ok(()) => Ok(()),
            Err(refused) => Err((PipeRefusal::NoMemory, refused.value)),
        }
    }

    /// Takes the oldest waiting part, which flies from now on; `None` if none waits.
    pub fn take(&mut self) -> Option<Part>
        ensures none { IfNone result ((self.old.waiting ≡ []) × IsAsBefore self.old self.new) }
        ensures waiting { IfSome result (λ part. self.old.waiting ≡ part ∷ self.new.waiting) }
        ensures flying { IfSome result
            (λ part. self.new.flying ≡ self.old.flying ++ Some part.owner ∷ []) }
        ensures sent { IfSome result (λ part. (sent : List (Option Owner)) (count : ℕ)
            → HasSent self.old sent count
            → HasSent self.new (sent ++ Some part.owner ∷ []) count) }
        ensures epoch { self.new.epoch ≡ self.old.epoch }
        ensures taken { IfSome result
            (λ part. self.new.taken ≡ min (self.old.taken + 1) (2 ^ 64 - 1)) }
        ensures room { self.old.room ≤ self.new.room }
    {
        let part = self.waiting.pop_front()?;
        self.flying.push_back_reserved(Some(part.owner));
        self.taken = self.taken.saturating_add(1);
        Some(part)
    }

    /// Takes a reply of this epoch, and returns the owner of its part: the one sent `count`-th in the epoch, where
    /// `count` replies came before. `None` if that part was forgotten.
    ///
    /// Refused 603 (stale) exactly if the epoch isn't the pipe's, and 604 (unasked) exactly if it is and no part flies.
    pub fn answered(&mut self, epoch: u64) -> Result<Option<Owner>, PipeRefusal>
        ensures { TakesReply self.old self.new epoch result }
    {
        if epoch != self.epoch {
            return Err(PipeRefusal::Stale {
                current: self.epoch,
            });
        }
        let Some(owner) = self.flying.pop_front() else {
            return Err(PipeRefusal::Unasked);
        };
        Ok(owner)
    }

    /// Ends the epoch by a fault of the host: all parts that fly or wait are lost and returned, and the epoch rises by one.
    ///
    /// Refused 603 (stale) exactly if the epoch isn't the pipe's, else 605 (epochs spent) exactly if it is the greatest
    /// `u64`, else 601 (no memory). If no part flies or waits it takes no memory, and 601 doesn't come.
    pub fn fault(&mut self, epoch: u64) -> Result<Lost, PipeRefusal>
        ensures { EndsEpoch self.old self.new epoch result }
    {
        if self.epoch != epoch {
            return Err(PipeRefusal::Stale {
                current: self.epoch,
            });
        }
        let Some(next) = self.epoch.checked_add(1) else {
            return Err(PipeRefusal::EpochsSpent);
        };
        let waiting = owners(self.alloc, &self.waiting)?;
        let flying = places(self.alloc, &self.flying)?;
        self.waiting.clear();
        self.flying.clear();
        self.epoch = next;
        self.taken = 0;
        Ok(Lost { flying, waiting })
    }

    /// Forgets a connection: its waiting parts are dropped, and its flying ones keep their places without an owner, so
    /// that their replies are discarded.
    pub fn forget(&mut self, conn: u64)
        ensures waiting { self.new.waiting ≡ filter (is_kept conn) self.old.waiting }
        ensures flying { self.new.flying ≡ map (forgotten_owner conn) self.old.flying }
        ensures places { (sent : List (Option Owner)) (count : ℕ) → HasSent self.old sent count
            → HasSent self.new (map (forgotten_owner conn) sent) count }
        ensures epoch { self.new.epoch ≡ self.old.epoch }
        ensures taken { self.new.taken ≡ self.old.taken }
        ensures room { self.old.room ≤ self.new.room }
    {
        forget_waiting(&mut self.waiting, conn);
        forget_flying(&mut self.flying, conn);
    }
}

fn forget_waiting(waiting: &mut VecDeque<Part>, conn: u64)
    ensures items { waiting.new.items ≡ filter (is_kept conn) waiting.old.items }
    ensures len { deque_len waiting.new ≤ deque_len waiting.old }
    ensures capacity { deque_capacity waiting.new ≡ deque_capacity waiting.old }
{
    waiting.retain(|part| part.owner.conn != conn);
}

fn forget_flying(flying: &mut VecDeque<Option<Owner>>, conn: u64)
    ensures items { flying.new.items ≡ map (forgotten_owner conn) flying.old.items }
    ensures len { deque_len flying.new ≡ deque_len flying.old }
    ensures capacity { deque_capacity flying.new ≡ deque_capacity flying.old }
{
    for _ in 0..flying.len() {
        if let Some(place) = flying.pop_front() {
            flying.push_back_reserved(forgotten(conn, place));
        }
    }
}

fn forgotten(conn: u64, place: Option<Owner>) -> Option<Owner>
    ensures { result ≡ forgotten_owner conn place }
{
    match place {
        Some(owner) if owner.conn == conn => None,
        kept => kept,
    }
}

fn owners(alloc: Global, parts: &VecDeque<Part>) -> Result<Vec<Owner>, PipeRefusal>
    ensures ok { IfOk result (λ owners. owners.items ≡ map owner_in parts.now.items) }
    ensures none { parts.now.items ≡ [] → IsOk result }
    ensures err { IfErr result (λ e. e ≡ PipeRefusal.NoMemory) }
{
    if parts.is_empty() {
        return Ok(Vec::new(alloc));
    }
    let owners = parts.iter().map(|part| part.owner).collect(alloc)?;
    Ok(owners)
}

fn places(
    alloc: Global,
    flying: &VecDeque<Option<Owner>>,
) -> Result<Vec<Option<Owner>>, PipeRefusal>
    ensures ok { IfOk result (λ places. places.items ≡ flying.now.items) }
    ensures none { flying.now.items ≡ [] → IsOk result }
    ensures err { IfErr result (λ e. e ≡ PipeRefusal.NoMemory) }
{
    if flying.is_empty() {
        return Ok(Vec::new(alloc));
    }
    let places = flying.iter().copied().collect(alloc)?;
    Ok(places)
}
