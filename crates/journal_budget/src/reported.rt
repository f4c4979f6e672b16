ghost use Rattle.std.specs.Prelude.{◌≡◌, IsTrue};
ghost use Rattle.journal_budget.specs.Payload.{average_of, IsFarFromFull};
ghost use Rattle.journal_budget.specs.Reported.{IsInRange, reported_of};

use crate::ledger::Ledger;
use crate::payload::Payload;
use std::marker::Model;

/// What all workers had reported when a worker last looked.
#[derive(Drop)]
pub(crate) struct Reported {
    payload: Payload,
    // The owed steps that have payload.
    owed: u64,
    average: u64,
    is_far: bool,
}

impl Model for Reported {
    ghost use Rattle.journal_budget.specs.Reported.{ReportedState, IsReported};

    ghost Value = { ReportedState };

    ghost view = { λ r. record { payload = r.payload; owed = r.owed } };

    ghost invariant = { λ r. IsReported r.payload r.owed r.average r.is_far };
}

impl Reported {
    /// `average` is the last generation's payload bytes a step. `owed` steps have payload.
    pub(crate) fn new(ledger: &Ledger, average: u64, owed: u64) -> Reported
        ensures { result ≡ reported_of average owed ledger.now }
    {
        let payload = ledger.payload(average);
        let average = payload.average();
        let is_far = payload.is_far_from_full(owed);
        Reported {
            payload,
            owed,
            average,
            is_far,
        }
    }

    #[inline(always)]
    pub(crate) fn payload(&self) -> Payload
        ensures { result ≡ self.now.payload }
    {
        self.payload
    }

    #[inline(always)]
    pub(crate) fn owed(&self) -> u64
        ensures { result ≡ self.now.owed }
    {
        self.owed
    }

    #[inline(always)]
    pub(crate) fn average(&self) -> u64
        ensures { result ≡ average_of self.now.payload }
    {
        self.average
    }

    /// Whether the journal was so far from full that room needn't be computed while little comes.
    #[inline(always)]
    pub(crate) fn is_far(&self) -> bool
        ensures far { IsTrue result → IsFarFromFull self.now.payload self.now.owed }
        ensures in_range { IsInRange self.now.payload }
    {
        self.is_far
    }
}
