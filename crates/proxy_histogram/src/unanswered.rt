ghost use Rattle.std.specs.Prelude.{◌≡◌, ◌≢◌, ◌≤◌, ◌<◌, ◌+◌, ◌-◌, ◌^◌, ◌⊎◌, ◌++◌, [], Some, drop, length, replicate, slice_get, take};
ghost use Rattle.std.specs.Bool.{OnTrue, OnFalse};
ghost use Rattle.proxy_histogram.specs.Unanswered.{AnswersOldest, JoinsLast};

use crate::histogram::Histogram;
use std::alloc::Global;
use std::collections::VecDeque;
use std::marker::Model;

// Commands accepted at one moment.
#[derive(Clone, Copy, Drop)]
struct Run {
    since: u64,
    count: u64,
}

const NONE: Run = Run { since: 0, count: 0 };

/// When a connection's unanswered commands were accepted, in microseconds. Answers leave in the order of the
/// commands. A host's parts without a reply are such commands too, accepted when they were sent.
#[derive(Drop)]
pub struct Unanswered {
    first: Run,
    later: VecDeque<Run>,
}

impl Model for Unanswered {
    ghost use Rattle.std.specs.Prelude.{ℕ, List};
    ghost use Rattle.proxy_histogram.specs.Unanswered.{HasNoEmptyRun, moments_of};

    ghost Value = { List ℕ };

    ghost view = { λ u. moments_of u.first u.later.items };

    ghost invariant = { λ u. HasNoEmptyRun u.first u.later.items };
}

impl Unanswered {
    /// No command is unanswered.
    pub fn new(alloc: Global) -> Unanswered
        ensures { result ≡ [] }
    {
        Unanswered {
            first: NONE,
            later: VecDeque::new(alloc),
        }
    }

    /// Adds commands accepted at this moment. False: there is no memory, and they count as accepted with the last ones
    /// before them.
    pub fn accepted(&mut self, now: u64, count: u64) -> bool
        ensures added { length self.old + count < 2 ^ 64
            → OnTrue result (self.new ≡ self.old ++ replicate count now) }
        ensures joined { length self.old + count < 2 ^ 64
            → OnFalse result (JoinsLast self.old self.new count) }
    {
        if count == 0 {
            return true;
        }
        if self.first.count == 0 {
            self.first = Run { since: now, count };
            return true;
        }
        if self.last_since() == now {
            self.join_last(count);
            return true;
        }
        if self.later.push_back(Run { since: now, count }).is_ok() {
            return true;
        }
        self.join_last(count);
        false
    }

    // Some command must be unanswered.
    fn last_since(&self) -> u64
        requires { self.now ≢ [] }
        ensures { slice_get self.now (length self.now - 1) ≡ Some result }
    {
        match self.later.back() {
            Some(last) => last.since,
            None => self.first.since,
        }
    }

    // Some command must be unanswered.
    fn join_last(&mut self, count: u64)
        requires { self.old ≢ [] }
        ensures { length self.old + count < 2 ^ 64 → JoinsLast self.old self.new count }
    {
        let Some(last) = self.later.pop_back() else {
            self.first.count = self.first.count.saturating_add(count);
            return;
        };
        self.later.push_back_reserved(Run {
            since: last.since,
            count: last.count.saturating_add(count),
        });
    }

    /// Records the durations of this many commands, answered at this moment; of all where fewer are unanswered.
    pub fn answered(&mut self, now: u64, count: u64, durations: &mut Histogram)
        ensures { AnswersOldest self.old self.new now count durations.old durations.new }
    {
        let mut left = count;
        for _run in 0..count {
            let run = self.take_first(left);
            if run.count == 0 {
                return;
            }
            durations.record_times(now.saturating_sub(run.since), run.count);
            left -= run.count;
        }
    }

    /// Moves this many of the oldest behind others, or all there are. False: there was no memory, and some count as
    /// accepted with those before them.
    pub fn move_oldest(&mut self, count: u64, others: &mut Unanswered) -> bool
        ensures left { self.new ≡ drop count self.old }
        ensures moved { length others.old + count < 2 ^ 64
            → OnTrue result (others.new ≡ others.old ++ take count self.old) }
        ensures joined { length others.old + count < 2 ^ 64
            → length others.new ≡ length others.old + length (take count self.old) }
    {
        let mut left = count;
        let mut had_memory = true;
        for _run in 0..count {
            let run = self.take_first(left);
            if run.count == 0 {
                return had_memory;
            }
            had_memory &= others.accepted(run.since, run.count);
            left -= run.count;
        }
        had_memory
    }

    /// Forgets all unanswered commands: they get no answer.
    pub fn forget_all(&mut self)
        ensures { self.new ≡ [] }
    {
        self.first = NONE;
        self.later.clear();
    }

    // At most this many of the oldest ones, accepted at one moment.
    fn take_first(&mut self, most: u64) -> Run
        ensures taken { self.old ≡ replicate result.count result.since ++ self.new }
        ensures few { result.count ≤ most }
        ensures none { result.count ≡ 0 → (most ≡ 0) ⊎ (self.old ≡ []) }
    {
        let taken = Run {
            since: self.first.since,
            count: most.min(self.first.count),
        };
        self.first.count -= taken.count;
        if self.first.count == 0 {
            self.first = self.later.pop_front().unwrap_or(NONE);
        }
        taken
    }
}
