//! What becomes of each generation.
//!
//! ```text
//!  Unasked ── full ──> Wanted ── take_due ──> being opened ── opened ──> Serving
//!     ▲                                            │ failed                 │ the next one: opened
//!     └────────────────────────────────────────────┘                        ▼
//!                                                             drained <── Draining, till it has no connection
//!  the oldest alone, where as many drain as may:                            │ near, and no host answers it
//!                                                                           ▼
//!                                                             drained <── GivingUp, till the next one is Wanted
//!                                                             drained <── Stopped
//! ```
ghost use Rattle.std.specs.Prelude.{◌≡◌, ◌↔◌, true, [], List, IsTrue, Contains, slice_get, Some, IsNone, IfSome, length};
ghost use Rattle.std.specs.Option.{SomeIff};
ghost use Rattle.proxy_generations.specs.Events.{Event, Opened, Failed, Near, Full, Renewed, Progressed, Drained, Swept, newest, draining, has_connections, last_sweep};
ghost use Rattle.proxy_generations.specs.History.{IsHistory, MayHappen};
ghost use Rattle.proxy_generations.specs.Moments.{HavePassed};

use crate::older::Older;
use crate::opened::Open;
use crate::phase::Phase;
use limits::{GIVING_UP_MS, MAX_DRAINING_MS, STILL_MS};
use std::mem;

/// A generation, and the moment of what is told of it.
#[derive(Clone, Copy, Debug, PartialEq, Eq)]
pub struct At {
    /// The generation's number.
    pub number: u64,
    /// The moment, in milliseconds.
    pub now: u64,
}

/// A generation to open.
#[derive(Debug, Drop)]
pub struct Due<H> {
    /// Its number, which no other one has.
    pub number: u64,
    /// The handover that it starts from; `None` for the first one.
    pub from: Option<H>,
}

#[derive(Drop)]
enum NextGeneration<H> {
    Unasked,
    Wanted(Option<H>),
    Opening,
}

/// The generations of one run. `H` is the handover from one to the next. Moments are milliseconds of one clock.
pub struct Generations<H> {
    interval_ms: u64,
    max_failures: u32,
    tries_left: u32,
    newest: Option<Open>,
    older: Older,
    near_since: Option<u64>,
    // When a host last answered the one in the way, or the newest one opened.
    still_since: Option<u64>,
    // When the newest one opened.
    drains_since: Option<u64>,
    next: NextGeneration<H>,
    // The next one's number.
    asked: u64,
    // The newest one's last sweep at its handover.
    handed_sweep: Option<u64>,
}

impl<H: Drop> Drop for Generations<H> {
    fn drop(self) {
        let Generations {
            interval_ms: _,
            max_failures: _,
            tries_left: _,
            newest: _,
            older: _,
            near_since: _,
            still_since: _,
            drains_since: _,
            next: _,
            asked: _,
            handed_sweep: _,
        } = self;
    }
}

impl<H: Drop> Generations<H> {
    ghost use Rattle.proxy_generations.specs.Phase.{IsPhase, IsTask};
    ghost use Rattle.proxy_generations.specs.OpenGenerations.{HadTime, MayBeLeft};
    ghost use Rattle.proxy_generations.specs.Older.{first_if_full, numbers_of};
    ghost use Rattle.proxy_generations.specs.GenerationsState.{Settings, Stands, Tells, Gives, EndsServing, IsSweepDue};

    /// No generation is open, and number 0 is due. A sweep is due every `interval_ms` milliseconds; `max_failures`
    /// failures in a row end the server.
    pub fn new(interval_ms: u64, max_failures: u32) -> Generations<H>
        ensures { Stands result
            (record { interval_ms = interval_ms; max_failures = max_failures }) [] }
    {
        Generations {
            interval_ms,
            max_failures,
            tries_left: max_failures,
            newest: None,
            older: Older::new(),
            near_since: None,
            still_since: None,
            drains_since: None,
            next: NextGeneration::Wanted(None),
            asked: 0,
            handed_sweep: None,
        }
    }

    /// The generation to open, once: one is wanted, and one more may drain.
    pub fn take_due(&mut self) -> Option<Due<H>>
        ensures { Gives result self.old self.new }
    {
        if !self.older.has_room() {
            return None;
        }
        match mem::replace(&mut self.next, NextGeneration::Unasked) {
            NextGeneration::Wanted(from) => {
                self.next = NextGeneration::Opening;
                Some(Due {
                    number: self.asked,
                    from,
                })
            }
            other => {
                self.next = other;
                None
            }
        }
    }

    fn is_opening(&self, number: u64) -> bool
        ensures { IsTrue result ↔ ((self.now.next ≡ NextGeneration.Opening)
            × (number ≡ self.now.asked)) }
    {
        match &self.next {
            NextGeneration::Opening => number == self.asked,
            _ => false,
        }
    }

    /// The generation is the newest one from this moment on, and the one before drains. Ignored unless it is
    /// being opened.
    pub fn opened(&mut self, at: At)
        ensures { Tells (Opened at.number at.now) self.old self.new }
    {
        let At { number, now } = at;
        if self.is_opening(number) {
            self.older.add(self.newest);
            self.newest = Some(Open {
                number,
                swept: self.handed_sweep.unwrap_or(now),
            });
            self.near_since = None;
            self.drains_since = Some(now);
            self.still_since = self.drains_since;
            self.next = NextGeneration::Unasked;
            self.tries_left = self.max_failures;
        }
    }

    /// The generation could not be opened. `true`: the server must end. Otherwise the newest one asks again, by
    /// `full`. Ignored unless it is being opened.
    pub fn failed(&mut self, number: u64) -> bool
        ensures tells { Tells (Failed number) self.old self.new }
        ensures ends { (s : Settings) (es : List (Event H)) → Stands self.old s es
            → IsTrue result ↔ (MayHappen (Failed number) es × EndsServing s es) }
    {
        if !self.is_opening(number) {
            return false;
        }
        self.next = NextGeneration::Unasked;
        self.tries_left = self.tries_left.saturating_sub(1);
        self.tries_left == 0 || self.newest.is_none()
    }

    // None is in the way, or its time is over.
    fn may_be_left(&self, now: u64) -> bool
        ensures { IsTrue result ↔ MayBeLeft self.now now }
    {
        self.older.has_room()
            || have_passed(self.still_since, STILL_MS, now)
            || have_passed(self.drains_since, MAX_DRAINING_MS, now)
    }

    /// The newest generation is near its marks at this moment: the one in the way is given up.
    ///
    /// Ignored unless `by` is the newest one. Ignored within `STILL_MS` milliseconds of a host's last answer to the
    /// one in the way, or of the newest one's opening, until that was `MAX_DRAINING_MS` ago.
    pub fn near(&mut self, by: At)
        ensures { Tells (Near by.number by.now) self.old self.new }
    {
        if Open::has_number(self.newest, by.number) && self.may_be_left(by.now) {
            self.near_since = Some(self.near_since.unwrap_or(by.now));
        }
    }

    // None is in the way, or it has been given up for long enough.
    fn has_given_up(&self, now: u64) -> bool
        ensures { IsTrue result ↔ HadTime self.now now }
    {
        self.older.has_room() || have_passed(self.near_since, GIVING_UP_MS, now)
    }

    /// The newest generation has reached its marks at this moment, or accepts nothing more: the next one is
    /// wanted, from this handover, and the one in the way stops.
    ///
    /// Ignored, and the handover dropped, unless `by` is the newest one and none is wanted or being opened. Ignored
    /// while the one in the way hasn't been given up for `GIVING_UP_MS` milliseconds, and after 2^64 generations.
    pub fn full(&mut self, by: At, handover: H)
        ensures { Tells (Full by.number by.now handover) self.old self.new }
    {
        let NextGeneration::Unasked = &self.next else {
            return;
        };
        let Some(newest) = self.newest else {
            return;
        };
        let Some(asked) = self.asked.checked_add(1) else {
            return;
        };
        if newest.number == by.number && self.has_given_up(by.now) {
            self.next = NextGeneration::Wanted(Some(handover));
            self.asked = asked;
            self.handed_sweep = Some(newest.swept);
        }
    }

    /// The newest generation hands over anew, while the next one waits to be opened: that starts from this handover.
    /// `None`: so it is. Otherwise the handover comes back, and nothing changes: `by` isn't the newest one, or the next one
    /// isn't wanted or is being opened.
    pub fn renew(&mut self, by: u64, handover: H) -> Option<H>
        ensures tells { Tells (Renewed by handover) self.old self.new }
        ensures taken { (s : Settings) (es : List (Event H)) → Stands self.old s es
            → IsNone result ↔ MayHappen (Renewed by handover) es }
        ensures back { IfSome result (λ h. h ≡ handover) }
    {
        let (NextGeneration::Wanted(_), Some(newest)) = (&self.next, self.newest) else {
            return Some(handover);
        };
        if newest.number != by {
            return Some(handover);
        }
        self.next = NextGeneration::Wanted(Some(handover));
        self.handed_sweep = Some(newest.swept);
        None
    }

    /// A host has answered commands by this moment. Ignored unless the generation is in the way.
    pub fn progressed(&mut self, at: At)
        ensures { Tells (Progressed at.number at.now) self.old self.new }
    {
        if self.is_in_the_way(at.number) {
            self.still_since = Some(at.now);
        }
    }

    /// The generation has no connection left. Ignored unless it drains.
    pub fn drained(&mut self, number: u64)
        ensures { Tells (Drained number) self.old self.new }
    {
        if self.older.has(number) {
            self.older.remove(number);
        }
    }

    /// What a generation that drains is to do; `None` where it doesn't drain.
    pub fn task(&self, number: u64) -> Option<Phase>
        ensures { (s : Settings) (es : List (Event H)) → Stands self.now s es
            → IsTask result es number }
    {
        if !self.older.has(number) {
            return None;
        }
        if !self.is_in_the_way(number) {
            return Some(Phase::Draining);
        }
        match &self.next {
            NextGeneration::Wanted(_) => Some(Phase::Stopped),
            _ if self.near_since.is_some() => Some(Phase::GivingUp),
            _ => Some(Phase::Draining),
        }
    }

    /// What a generation is to do, by the number of the newest open one and by its own task, as `newest` and `task` told
    /// them. So threads that know these two need nothing more.
    pub fn phase_by(last: Option<u64>, task: Option<Phase>, number: u64) -> Phase
        ensures { (es : List (Event H)) → IsHistory es → last ≡ newest es → IsTask task es number
            → IsPhase result es number }
    {
        if let Some(task) = task {
            return task;
        }
        match last {
            Some(last) if last == number => Phase::Serving,
            Some(last) if last > number => Phase::Stopped,
            _ => Phase::Unopened,
        }
    }

    /// The newest open generation's number.
    pub fn newest(&self) -> Option<u64>
        ensures { (s : Settings) (es : List (Event H)) → Stands self.now s es → result ≡ newest es }
    {
        match self.newest {
            None => None,
            Some(newest) => Some(newest.number),
        }
    }

    fn last_sweep(&self, number: u64) -> Option<u64>
        ensures { (s : Settings) (es : List (Event H)) → Stands self.now s es
            → SomeIff result (has_connections number es ≡ true) (last_sweep number es) }
    {
        match Open::sweep_of(self.newest, number) {
            Some(moment) => Some(moment),
            None => self.older.sweep_of(number),
        }
    }

    /// The number of the draining one at this index, the oldest first.
    pub fn older_at(&self, index: usize) -> Option<u64>
        ensures { (s : Settings) (es : List (Event H)) → Stands self.now s es
            → result ≡ slice_get (draining es) index }
    {
        self.older.number_at(index)
    }

    /// The number of generations that drain.
    pub fn drain_count(&self) -> u64
        ensures { (s : Settings) (es : List (Event H)) → Stands self.now s es
            → result ≡ length (draining es) }
    {
        self.older.len() as u64
    }

    /// Whether the generation drains.
    pub fn drains(&self, number: u64) -> bool
        ensures { (s : Settings) (es : List (Event H)) → Stands self.now s es
            → IsTrue result ↔ Contains (draining es) number }
    {
        self.older.has(number)
    }

    // The oldest of those that drain, where no further one may.
    fn is_in_the_way(&self, number: u64) -> bool
        ensures { IsTrue result
            ↔ (first_if_full (numbers_of self.now.older.kept.items) ≡ Some number) }
    {
        match self.older.in_the_way() {
            None => false,
            Some(way) => way == number,
        }
    }

    /// Whether a sweep is due at this moment: the interval has passed since the last one that the generation
    /// knows. At first that is the last one of the generation before it; for the first generation, its opening. None
    /// is due if the clock went back, or if the generation isn't open or has drained.
    pub fn is_sweep_due(&self, at: At) -> bool
        ensures { (s : Settings) (es : List (Event H)) → Stands self.now s es
            → IsTrue result ↔ IsSweepDue s es at.number at.now }
    {
        match self.last_sweep(at.number) {
            None => false,
            Some(last) => at.now >= last && at.now - last >= self.interval_ms,
        }
    }

    /// A sweep was made at this moment. Ignored where the generation isn't open, or has drained.
    pub fn swept(&mut self, at: At)
        ensures { Tells (Swept at.number at.now) self.old self.new }
    {
        let At { number, now } = at;
        if Open::has_number(self.newest, number) {
            self.newest = Some(Open { number, swept: now });
        } else if self.older.has(number) {
            self.older.sweep(number, now);
        }
    }
}

fn have_passed(since: Option<u64>, span: u64, now: u64) -> bool
    ensures { IsTrue result ↔ HavePassed since span now }
{
    match since {
        None => false,
        Some(since) => now >= since && now - since >= span,
    }
}
