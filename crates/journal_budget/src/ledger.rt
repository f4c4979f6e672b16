ghost use Rattle.std.specs.Prelude.{◌≡◌, ◌↔◌, ◌≤◌, ◌+◌, ◌-◌, IsTrue};

use crate::budget::Budget;
use crate::payload::Payload;
use crate::payload_counts::PayloadCounts;
use std::marker::Model;

/// What the workers of a generation have reported of its journal.
#[derive(Drop)]
pub struct Ledger {
    pub(crate) budget: Budget,
    pub(crate) bytes: PayloadCounts,
    // Bytes of large replies that are coming.
    coming: u64,
    // What commands in flight are charged.
    charged: u64,
    steps: u64,
}

impl Model for Ledger {
    ghost use Rattle.journal_budget.specs.Ledger.{LedgerState};

    ghost Value = { LedgerState };

    ghost view = { λ l. record {
      budget = l.budget;
      bytes = l.bytes;
      coming = l.coming;
      charged = l.charged;
      steps = l.steps;
    } };
}

impl Ledger {
    ghost use Rattle.limits.specs.declared.journals.TheConstants.{MAX_STEPS};
    ghost use Rattle.journal_budget.specs.Ledger.{empty_ledger, payload_in, with_steps, with_charge, with_coming};
    ghost use Rattle.journal_budget.specs.Payload.{next_average_of};

    /// The ledger of an empty journal.
    pub fn new() -> Ledger
        ensures { result ≡ empty_ledger }
    {
        Ledger {
            budget: Budget::new(),
            bytes: PayloadCounts::NONE,
            coming: 0,
            charged: 0,
            steps: 0,
        }
    }

    pub(crate) fn note_steps(&mut self, steps: u64)
        ensures { self.new ≡ with_steps steps self.old }
    {
        self.steps = self.steps.saturating_add(steps);
    }

    /// `came` bytes of a large reply have come, `before` at the last report.
    pub(crate) fn note_coming(&mut self, came: u64, before: u64)
        ensures { self.new ≡ with_coming came before self.old }
    {
        self.coming = self.coming.saturating_sub(before).saturating_add(came);
    }

    /// A client's commands are charged `charge` bytes, `before` at the last report.
    pub(crate) fn note_charge(&mut self, charge: u64, before: u64)
        ensures { self.new ≡ with_charge charge before self.old }
    {
        self.charged = self.charged.saturating_sub(before).saturating_add(charge);
    }

    pub(crate) fn coming(&self) -> u64
        ensures { result ≡ self.now.coming }
    {
        self.coming
    }

    /// The steps made or owed.
    pub fn spent(&self) -> u64
        ensures spent { result ≡ self.now.budget.spent }
        ensures fits { self.now.budget.spent + self.now.budget.lent ≤ MAX_STEPS }
    {
        self.budget.spent()
    }

    /// `average` is the last generation's payload bytes a step.
    pub(crate) fn payload(&self, average: u64) -> Payload
        ensures { result ≡ payload_in average self.now }
    {
        let mut payload = Payload::new(average, self.charged);
        self.bytes.add_to(&mut payload);
        payload
    }

    /// The payload bytes a step that the next generation starts with, where this one started with `average`.
    pub fn next_average(&self, average: u64) -> u64
        ensures { result ≡ next_average_of (payload_in average self.now) }
    {
        self.payload(average).next_average()
    }

    pub(crate) fn owed(&self) -> u64
        ensures { result ≡ self.now.budget.spent - self.now.steps }
    {
        self.budget.spent().saturating_sub(self.steps)
    }
}
