ghost use Rattle.std.specs.Prelude.{◌≡◌, ◌↔◌, IfOk, IfErr, IsTrue};
ghost use Rattle.std.specs.Bool.{OnTrue, OnFalse};
ghost use Rattle.ticket_gate.specs.Journal.{AddsTurn};
ghost use Rattle.ticket_gate.specs.Turns.{KeepsPlace, RefusesTurn};
ghost use Rattle.journal_budget.specs.Account.{no_account};
ghost use Rattle.journal_budget.specs.Budget.{free_steps};
ghost use Rattle.journal_budget.specs.Counts.{no_counts};
ghost use Rattle.journal_room.specs.LegalSteps.{IsOfLegalJournal};
ghost use Rattle.journal_room.specs.TurnStep.{brought_by, noted};

use crate::room_ledger::{LastLedger, NamedLedger};
use crate::turn_step::{bytes_of, note_turn};
use journal_budget::{Account, TurnCounts};
use proxy_core::{Answer, CoreState, CoreTurns, Event, Refusal};
use std::sync::Wait;
use ticket_gate::{Seated, TurnRefusal, Turns};

/// Turns that may stay inside a gate in between.
pub trait HeldTurns: CoreTurns {
    /// A turn leaves the pass inside from here on. Others wait meanwhile.
    fn hold(&mut self)
        ensures { self.new ≡ self.old };

    /// Leaves the gate, now and after each later turn.
    fn leave(&mut self)
        ensures { self.new ≡ self.old };
}

impl<'a, S: CoreState> HeldTurns for Seated<'a, S> {
    fn hold(&mut self) {
        Seated::hold(self);
    }

    fn leave(&mut self) {
        Seated::leave(self);
    }
}

/// A worker's turns, metered: what they used of the journal, and what came of them.
///
/// At all times the steps that they made are those of their pass in some legal journal.
#[derive(Drop)]
pub struct MeteredTurns<T: CoreTurns> {
    turns: T,
    account: Account,
    last_ledger: LastLedger,

    ghost is_legal: { ∥ IsOfLegalJournal T.legal (T.facts turns) ∥₁ },
}

impl<T: CoreTurns> MeteredTurns<T> {
    /// These turns, with nothing counted.
    pub fn new(turns: T) -> MeteredTurns<T>
        requires { ∥ IsOfLegalJournal T.legal (T.facts turns) ∥₁ }
        ensures turns { result.turns ≡ turns }
        ensures account { result.account ≡ no_account }
    {
        MeteredTurns {
            turns,
            account: Account::new(),
            last_ledger: LastLedger::none(),
        }
    }

    /// What happened since the counts were last taken.
    #[inline(always)]
    pub fn counts(&self) -> &TurnCounts
        ensures { result.now ≡ self.now.account.counts }
    {
        self.account.counts()
    }

    /// Leaves the gate, and takes the counts, which begin anew.
    pub fn leave_with_counts(&mut self) -> TurnCounts
    where
        T: HeldTurns,
        ensures turns { self.new.turns ≡ self.old.turns }
        ensures counts { result ≡ self.old.account.counts }
        ensures account { self.new.account
            ≡ record self.old.account { counts = no_counts } }
    {
        self.turns.leave();
        self.account.take_counts()
    }

    /// Leaves the gate, before something that may take long.
    pub fn leave(&mut self)
    where
        T: HeldTurns,
        ensures { self.new ≡ self.old }
    {
        self.turns.leave();
    }

    /// As [`HeldTurns::hold`].
    pub fn hold(&mut self)
    where
        T: HeldTurns,
        ensures { self.new ≡ self.old }
    {
        self.turns.hold();
    }

    /// The steps lent that are neither made nor owed.
    #[inline(always)]
    pub fn free_steps(&self) -> u64
        ensures { result ≡ free_steps self.now.account.loan }
    {
        self.account.free_steps()
    }

    #[inline(always)]
    pub(crate) fn account(&self) -> &Account
        ensures { result.now ≡ self.now.account }
    {
        &self.account
    }
}

// With a ledger: each notes how it found it.
impl<T: CoreTurns> MeteredTurns<T> {
    ghost use Rattle.journal_budget.specs.Account.{known, reported_to, settled_with, with_account, with_payload};
    ghost use Rattle.journal_budget.specs.Budget.{borrowed, no_loan};
    ghost use Rattle.journal_budget.specs.Ledger.{HasLeft, lends_more, with_charge, with_coming};
    ghost use Rattle.journal_room.specs.LastLedger.{LendsAtLeast};
    ghost use Rattle.journal_budget.specs.Payload.{HasRoomForReply};

    /// False: that many aren't left, and none is lent.
    pub(crate) fn borrow_steps(&mut self, named: &mut NamedLedger, steps: u64) -> bool
        ensures turns { self.new.turns ≡ self.old.turns }
        ensures last { self.new.last_ledger
            ≡ record { name = named.old.name.value; found = named.old.ledger } }
        ensures fits { IsTrue result ↔ HasLeft steps named.old.ledger }
        ensures loan { OnTrue result (self.new.account
            ≡ record self.old.account { loan = borrowed steps self.old.account.loan }) }
        ensures lent { OnTrue result (named.new
            ≡ record named.old { ledger = lends_more steps named.old.ledger }) }
        ensures unchanged { OnFalse result ((self.new.account ≡ self.old.account)
            × (named.new ≡ named.old)) }
    {
        self.last_ledger = LastLedger::found(named);
        self.account.borrow_steps(&mut named.ledger, steps)
    }

    /// Borrows `many` steps, or `least` if these are more or so many aren't left.
    pub(crate) fn borrow_at_least(&mut self, named: &mut NamedLedger, least: u64, many: u64)
        ensures turns { self.new.turns ≡ self.old.turns }
        ensures last { self.new.last_ledger
            ≡ record { name = named.old.name.value; found = named.old.ledger } }
        ensures account { self.new.account
            ≡ record self.old.account { loan = self.new.account.loan } }
        ensures lent { HasLeft least named.old.ledger
            → LendsAtLeast least self.old.account.loan self.new.account.loan }
    {
        if !self.borrow_steps(named, many.max(least)) {
            self.borrow_steps(named, least);
        }
    }

    /// As [`Account::settle`]. Then it borrows this reserve. False: that many steps aren't left.
    pub(crate) fn settle(
        &mut self,
        named: &mut NamedLedger,
        average: u64,
        connections: u64,
        reserve: u64,
    ) -> bool
        ensures turns { self.new.turns ≡ self.old.turns }
        ensures last { self.new.last_ledger
            ≡ record { name = named.old.name.value; found = named.old.ledger } }
        ensures fits { IsTrue result
            ↔ HasLeft reserve (with_account self.old.account named.old.ledger) }
        ensures account { self.new.account ≡ record (settled_with
            (with_account self.old.account named.old.ledger) average connections self.old.account)
            { loan = self.new.account.loan } }
        ensures lent { OnTrue result ((self.new.account.loan ≡ borrowed reserve no_loan)
            × (named.new.ledger
            ≡ lends_more reserve (with_account self.old.account named.old.ledger))) }
        ensures not_lent { OnFalse result ((self.new.account.loan ≡ no_loan)
            × (named.new.ledger ≡ with_account self.old.account named.old.ledger)) }
    {
        self.last_ledger = LastLedger::found(named);
        self.account.settle(&mut named.ledger, average, connections);
        self.account.borrow_steps(&mut named.ledger, reserve)
    }

    /// As [`Account::report_reply`].
    pub(crate) fn report_reply(
        &mut self,
        named: &mut NamedLedger,
        average: u64,
        came: u64,
        reported: &mut u64,
    ) -> bool
        ensures turns { self.new.turns ≡ self.old.turns }
        ensures last { self.new.last_ledger
            ≡ record { name = named.old.name.value; found = named.old.ledger } }
        ensures account { self.new.account ≡ reported_to
            (with_payload self.old.account named.old.ledger) average
            self.old.account.reported.owed self.old.account }
        ensures ledger { named.new.ledger
            ≡ with_coming came reported.old (with_payload self.old.account named.old.ledger) }
        ensures reported { reported.new ≡ came }
        ensures room { IsTrue result
            ↔ HasRoomForReply (known self.new.account) named.new.ledger.coming }
    {
        self.last_ledger = LastLedger::found(named);
        self.account
            .report_reply(&mut named.ledger, average, came, reported)
    }

    /// As [`Account::report_charge`].
    pub(crate) fn report_charge(
        &mut self,
        named: &mut NamedLedger,
        average: u64,
        charge: u64,
        charged: &mut u64,
    )
        ensures turns { self.new.turns ≡ self.old.turns }
        ensures last { self.new.last_ledger
            ≡ record { name = named.old.name.value; found = named.old.ledger } }
        ensures account { self.new.account ≡ reported_to named.new.ledger average
            self.old.account.reported.owed self.old.account }
        ensures ledger { named.new.ledger ≡ with_payload self.old.account
            (with_charge charge charged.old named.old.ledger) }
        ensures charged { charged.new ≡ charge }
    {
        self.last_ledger = LastLedger::found(named);
        self.account
            .report_charge(&mut named.ledger, average, charge, charged);
    }
}

impl<'a, S: CoreState> MeteredTurns<Seated<'a, S>> {
    ghost use Rattle.std.specs.Prelude.{OnOk};
    ghost use Rattle.ticket_gate.specs.Gate.{IsSamePass};
    ghost use Rattle.ticket_gate.specs.Journal.{GrowsByOthers};
    ghost use Rattle.ticket_gate.specs.declared.refusal.TurnRefusal.TheVariants.{Spent};

    /// Looks at the state inside the gate, as `Seated::sight` does: no step is added, and nothing counted.
    pub fn sight<R: Wait>(&mut self, rt: &R) -> Result<S::Sight, TurnRefusal<S::Refusal, ()>>
        ensures account { self.new.account ≡ self.old.account }
        ensures gate { self.new.turns.gate ≡ self.old.turns.gate }
        ensures same { IsSamePass self.old.turns.pass self.new.turns.pass }
        ensures sight { IfOk result (λ sight.
            sight ≡ S.sight_of self.old.turns.gate.setting self.new.turns.pass.known.seen) }
        ensures legal { OnOk result
            (S.legal self.old.turns.gate.setting self.new.turns.pass.known.seen) }
        ensures seen { OnOk result (GrowsByOthers self.old.turns.pass.number
            self.old.turns.pass.known.seen self.new.turns.pass.known.seen) }
        ensures refused { IfErr result (λ why. (why ≡ Spent tt)
            × (self.new.turns.pass.known.seen ≡ self.old.turns.pass.known.seen)) }
    {
        self.turns.sight(rt)
    }
}

impl<T: CoreTurns> Turns for MeteredTurns<T> {
    type Event = Event;

    type Answer = Answer;

    type Refusal = Refusal;

    type Setting = T::Setting;

    type Home = T::Home;

    ghost facts = { λ w. T.facts w.turns };

    ghost legal = { T.legal };

    ghost cause = { T.cause };

    ghost spent = { λ w. T.spent w.turns };

    #[inline(always)]
    fn turn<R: Wait>(&mut self, rt: &R, event: Event) -> Result<Answer, TurnRefusal<Refusal, Event>>
        ensures same { KeepsPlace (T.facts self.old.turns) (T.facts self.new.turns) }
        ensures answered { let old = T.facts self.old.turns in IfOk result (λ answer.
            AddsTurn (T.legal old.setting) old.pass old.seen
            event answer (T.facts self.new.turns).seen) }
        ensures refused { let old = T.facts self.old.turns in IfErr result (RefusesTurn
            (T.cause old.setting) (T.spent self.new.turns) old.pass old.seen
            event (T.facts self.new.turns).seen) }
        ensures noted { IfOk result (λ answer. self.new.account
            ≡ noted (brought_by event) answer self.old.account) }
        ensures unnoted { IfErr result (λ refusal. self.new.account ≡ self.old.account) }
    {
        let brought = bytes_of(&event);
        let result = self.turns.turn(rt, event);
        if let Ok(answer) = &result {
            note_turn(&mut self.account, brought, answer);
        }
        result
    }
}

impl<T: CoreTurns> CoreTurns for MeteredTurns<T> {
    ghost laws = { T.laws };
}
