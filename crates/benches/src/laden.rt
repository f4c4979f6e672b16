//! A running total with slower turns.
ghost use Rattle.std.specs.Prelude.{◌≡◌, []};

use std::alloc::Global;
use test_total::{AdditionRefusal, RunningTotal};
use ticket_gate::Recorded;

#[derive(Clone, Copy, Drop)]
pub(crate) struct TurnWork {
    /// The rounds of each turn.
    pub(crate) rounds: u32,
    /// Whether each turn of `STOP_EVERY` takes `STOP_ROUNDS`, as one does whose thread loses its processor.
    pub(crate) stops: bool,
}

/// Where turns stop, one of this many does.
const STOP_EVERY: usize = 1_000;

/// The rounds of a turn that stops: about a millisecond.
const STOP_ROUNDS: u32 = 400_000;

/// A running total that does some work before each addition.
#[derive(Drop)]
pub struct Laden {
    total: RunningTotal,
    work: TurnWork,
    stirred: u64,
}

impl Laden {
    ghost use Rattle.test_total.specs.RunningTotal.{journal_of};

    /// A total of 0 without a limit, whose turns do this work.
    pub(crate) fn new(alloc: Global, work: TurnWork) -> Laden
        ensures { journal_of result.total ≡ [] }
    {
        Laden {
            total: RunningTotal::new(alloc, u64::MAX),
            work,
            stirred: 1,
        }
    }

    pub(crate) fn turns(&self) -> usize {
        self.total.steps().len()
    }

    fn rounds(&self) -> u32 {
        if self.work.stops && self.turns() % STOP_EVERY == 0 {
            STOP_ROUNDS
        } else {
            self.work.rounds
        }
    }
}

/// Each round depends on the one before: six shifts and sums, some 2.5 ns.
pub(crate) fn stirred(seed: u64, rounds: u32) -> u64 {
    let mut stirred = seed;
    for _ in 0..rounds {
        stirred ^= stirred << 13;
        stirred ^= stirred >> 7;
        stirred ^= stirred << 17;
    }
    stirred
}

impl Recorded for Laden {
    ghost use Rattle.test_total.specs.RunningTotal.{journal_of, limit_of, IsDue};
    ghost use Rattle.test_total.specs.Totals.{AreTotals, amount_sum, totals_at_first, totals_before};

    type Event = u64;

    type Answer = u64;

    type Refusal = AdditionRefusal;

    type Setting = u64;

    type Sight = u64;

    ghost journal = { λ s. journal_of s.total };

    ghost setting = { λ s. limit_of s.total };

    ghost legal = { AreTotals };

    ghost cause = { IsDue };

    ghost sight_of = { λ limit journal. amount_sum journal };

    fn sight(&self) -> u64 {
        self.total.sight()
    }

    fn turn(&mut self, pass: u64, event: u64) -> Result<u64, (AdditionRefusal, u64)> {
        self.stirred = stirred(self.stirred, self.rounds());
        self.total.turn(pass, event)
    }

    ghost legal_at_first = { totals_at_first };

    ghost legal_before = { totals_before };
}
