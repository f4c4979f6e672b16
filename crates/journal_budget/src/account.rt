ghost use Rattle.std.specs.Prelude.{◌≡◌, ◌↔◌, IsTrue};
ghost use Rattle.std.specs.Bool.{OnTrue, OnFalse};

use crate::budget::Loan;
use crate::ledger::Ledger;
use crate::payload::{FAR_BYTES, FAR_STEPS, Payload};
use crate::payload_counts::PayloadCounts;
use crate::reported::Reported;
use crate::step_kind::StepKind;
use crate::turn_counts::TurnCounts;
use std::marker::Model;
use std::mem;

/// A worker's account of its steps.
#[derive(Drop)]
pub struct Account {
    counts: TurnCounts,
    loan: Loan,
    // The steps since the last settlement.
    steps: u64,
    // Their cost.
    cost: u64,
    bytes: PayloadCounts,
    reported: Reported,
}

impl Model for Account {
    ghost use Rattle.journal_budget.specs.Account.{AccountState};

    ghost Value = { AccountState };

    ghost view = { λ a. record {
      counts = a.counts;
      loan = a.loan;
      steps = a.steps;
      cost = a.cost;
      bytes = a.bytes;
      reported = a.reported;
    } };
}

impl Account {
    ghost use Rattle.journal_budget.specs.Account.{no_account, stepped_with, with_payload, with_account, reported_to, settled_with, known, owed_steps};
    ghost use Rattle.journal_budget.specs.Ledger.{HasLeft, lends_more, with_charge, with_coming};
    ghost use Rattle.journal_budget.specs.Budget.{free_steps, borrowed};
    ghost use Rattle.journal_budget.specs.Counts.{no_counts};
    ghost use Rattle.journal_budget.specs.Payload.{average_of, HasRoomForCommand, HasRoomForReply};

    /// An account of no steps, to which nothing is lent.
    pub fn new() -> Account
        ensures { result ≡ no_account }
    {
        Account {
            counts: TurnCounts::NONE,
            loan: Loan::new(),
            steps: 0,
            cost: 0,
            bytes: PayloadCounts::NONE,
            reported: Reported::new(&Ledger::new(), 0, 0),
        }
    }

    /// What happened since `take_counts`.
    #[inline(always)]
    pub fn counts(&self) -> &TurnCounts
        ensures { result.now ≡ self.now.counts }
    {
        &self.counts
    }

    /// Takes the counts, which begin anew.
    pub fn take_counts(&mut self) -> TurnCounts
        ensures counts { result ≡ self.old.counts }
        ensures account { self.new ≡ record self.old { counts = no_counts } }
    {
        mem::replace(&mut self.counts, TurnCounts::NONE)
    }

    /// Counts a step with its payload bytes. Its cost is spent of the loan.
    #[inline(always)]
    pub fn note(&mut self, kind: StepKind, bytes: PayloadCounts)
        ensures { self.new ≡ stepped_with kind bytes self.old }
    {
        self.counts.note(kind, bytes.handed);
        self.loan.note(kind);
        self.steps = self.steps.saturating_add(1);
        self.cost = self.cost.saturating_add(kind.cost());
        self.bytes.add(bytes);
    }

    /// The steps lent that are neither made nor owed.
    #[inline(always)]
    pub fn free_steps(&self) -> u64
        ensures { result ≡ free_steps self.now.loan }
    {
        self.loan.free()
    }

    /// Borrows steps. `false`: that many aren't left, and nothing changes.
    pub fn borrow_steps(&mut self, ledger: &mut Ledger, steps: u64) -> bool
        ensures fits { IsTrue result ↔ HasLeft steps ledger.old }
        ensures loan { OnTrue result (self.new
            ≡ record self.old { loan = borrowed steps self.old.loan }) }
        ensures lent { OnTrue result (ledger.new ≡ lends_more steps ledger.old) }
        ensures unchanged { OnFalse result ((self.new ≡ self.old) × (ledger.new ≡ ledger.old)) }
    {
        let is_lent = ledger.budget.lend(steps);
        if is_lent {
            self.loan.borrow(steps);
        }
        is_lent
    }

    /// Reports steps and payload, and returns unspent steps, while this many connections are open. `average` is the
    /// last generation's payload bytes a step.
    pub fn settle(&mut self, ledger: &mut Ledger, average: u64, connections: u64)
        ensures account { self.new ≡ settled_with ledger.new average connections self.old }
        ensures ledger { ledger.new ≡ with_account self.old ledger.old }
    {
        ledger.budget.settle(&mut self.loan);
        let steps = mem::replace(&mut self.steps, 0);
        self.cost = 0;
        ledger.note_steps(steps);
        // (what a connection owes for its end has no payload)
        let ends = connections.saturating_mul(StepKind::Opened.cost());
        self.report(ledger, average, ledger.owed().saturating_sub(ends));
    }

    /// Reports payload, with a large reply of which `came` bytes have come, and `reported` at its last report. Whether
    /// there is room for it beside all others that are coming.
    pub fn report_reply(
        &mut self,
        ledger: &mut Ledger,
        average: u64,
        came: u64,
        reported: &mut u64,
    ) -> bool
        ensures account { self.new ≡ reported_to (with_payload self.old ledger.old)
            average self.old.reported.owed self.old }
        ensures ledger { ledger.new
            ≡ with_coming came reported.old (with_payload self.old ledger.old) }
        ensures reported { reported.new ≡ came }
        ensures room { IsTrue result ↔ HasRoomForReply (known self.new) ledger.new.coming }
    {
        let owed = self.reported.owed();
        self.report(ledger, average, owed);
        ledger.note_coming(came, mem::replace(reported, came));
        self.known().takes_reply(ledger.coming())
    }

    /// Reports payload, and what a client's commands are charged, with `charged` at its last report.
    pub fn report_charge(
        &mut self,
        ledger: &mut Ledger,
        average: u64,
        charge: u64,
        charged: &mut u64,
    )
        ensures account { self.new ≡ reported_to ledger.new average
            self.old.reported.owed self.old }
        ensures ledger { ledger.new
            ≡ with_payload self.old (with_charge charge charged.old ledger.old) }
        ensures charged { charged.new ≡ charge }
    {
        ledger.note_charge(charge, mem::replace(charged, charge));
        let steps = self.reported.owed();
        self.report(ledger, average, steps);
    }

    fn report(&mut self, ledger: &mut Ledger, average: u64, owed: u64)
        ensures account { self.new ≡ reported_to ledger.new average owed self.old }
        ensures ledger { ledger.new ≡ with_payload self.old ledger.old }
    {
        let bytes = mem::replace(&mut self.bytes, PayloadCounts::NONE);
        ledger.bytes.add(bytes);
        self.reported = Reported::new(ledger, average, owed);
    }

    /// The average payload bytes a step, from all workers' reports.
    pub fn average(&self) -> u64
        ensures { result ≡ average_of self.now.reported.payload }
    {
        self.reported.average()
    }

    /// The payload bytes kept since the last report.
    pub fn unreported_bytes(&self) -> u64
        ensures { result ≡ self.now.bytes.kept }
    {
        self.bytes.kept
    }

    /// Whether there is room for a further command's payload. The client has this many unfinished bytes.
    #[inline(always)]
    pub fn has_room_for_command(&self, unfinished: u64) -> bool
        ensures { IsTrue result
            ↔ HasRoomForCommand (known self.now) (owed_steps self.now) unfinished }
    {
        self.is_far_from_full(unfinished) || self.known().takes_in(self.owed(), unfinished)
    }

    /// Whether there is room for a reply of which this many bytes have come.
    #[inline(always)]
    pub fn has_room_for_reply(&self, unfinished: u64) -> bool
        ensures { IsTrue result ↔ HasRoomForReply (known self.now) unfinished }
    {
        self.is_far_from_full(unfinished) || self.known().takes_reply(unfinished)
    }

    // The journal was far from full, and little has come since.
    #[inline(always)]
    #[tactic(auto, using(crate::proofs::FarLemmas::far_for_command))]
    fn is_far_from_full(&self, unfinished: u64) -> bool
        ensures command { IsTrue result
            → HasRoomForCommand (known self.now) (owed_steps self.now) unfinished }
        ensures reply { IsTrue result → HasRoomForReply (known self.now) unfinished }
    {
        let PayloadCounts {
            kept,
            came,
            due,
            ..
        } = self.bytes;
        let bytes = kept.max(came).max(due).max(unfinished);
        bytes <= FAR_BYTES && self.cost <= FAR_STEPS && self.reported.is_far()
    }

    fn known(&self) -> Payload
        ensures { result ≡ known self.now }
    {
        let mut known = self.reported.payload();
        self.bytes.add_to(&mut known);
        known
    }

    fn owed(&self) -> u64
        ensures { result ≡ owed_steps self.now }
    {
        self.reported
            .owed()
            .saturating_add(self.cost)
            .saturating_sub(self.steps)
    }
}
