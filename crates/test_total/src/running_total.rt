ghost use Rattle.std.specs.Prelude.{◌≡◌, ◌≤◌, []};
ghost use Rattle.test_total.specs.Totals.{AreTotals, amount_sum, totals_at_first, totals_before};

use journal_core::Step;
use std::alloc::Global;
use thiserror::Error;
use ticket_gate::Recorded;

/// Why an amount wasn't added.
#[derive(Clone, Copy, Debug, PartialEq, Eq, Error)]
pub enum AdditionRefusal {
    /// The total would pass its limit.
    #[error("the total would pass its limit")]
    PastLimit,
    /// There was no memory.
    #[error("there is no memory for the journal")]
    NoMemory,
}

/// A total of amounts within a limit, with its journal. An event is an amount, and its answer is the new total.
#[derive(Drop)]
pub struct RunningTotal {
    limit: u64,
    total: u64,
    steps: Vec<Step<u64, u64>>,
    ghost totalled: { total ≡ amount_sum steps.items },
    ghost within: { total ≤ limit },
}

impl RunningTotal {
    ghost use Rattle.test_total.specs.RunningTotal.{journal_of, limit_of};

    /// A total of 0 with this limit.
    pub fn new(alloc: Global, limit: u64) -> RunningTotal
        ensures limit { limit_of result ≡ limit }
        ensures empty { journal_of result ≡ [] }
    {
        RunningTotal {
            limit,
            total: 0,
            steps: Vec::new(alloc),
        }
    }

    /// The sum of all amounts.
    pub fn total(&self) -> u64
        ensures { result ≡ amount_sum (journal_of self.now) }
    {
        self.total
    }

    /// The journal's steps.
    pub fn steps(&self) -> &[Step<u64, u64>]
        ensures { result.now ≡ journal_of self.now }
    {
        self.steps.as_slice()
    }
}

impl Recorded for RunningTotal {
    ghost use Rattle.test_total.specs.RunningTotal.{journal_of, limit_of, IsDue};

    type Event = u64;

    type Answer = u64;

    type Refusal = AdditionRefusal;

    type Setting = u64;

    type Sight = u64;

    ghost journal = { journal_of };

    ghost setting = { limit_of };

    ghost legal = { AreTotals };

    ghost cause = { IsDue };

    ghost sight_of = { λ limit journal. amount_sum journal };

    fn sight(&self) -> u64 {
        self.total()
    }

    fn turn(&mut self, pass: u64, event: u64) -> Result<u64, (AdditionRefusal, u64)> {
        if event > self.limit - self.total {
            return Err((AdditionRefusal::PastLimit, event));
        }
        let total = self.total + event;
        let step = Step {
            pass,
            event,
            answer: total,
        };
        match self.steps.push(step) {
            Ok(()) => {
                self.total = total;
                Ok(total)
            }
            Err(_) => Err((AdditionRefusal::NoMemory, event)),
        }
    }

    ghost legal_at_first = { totals_at_first };

    ghost legal_before = { totals_before };
}
