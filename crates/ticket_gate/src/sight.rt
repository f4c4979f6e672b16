ghost use Rattle.std.specs.Prelude.{◌≡◌, ◌+◌, ◌-◌, ◌^◌, ℕ, [], IfOk, IfErr, OnOk};
ghost use Rattle.ticket_gate.specs.Gate.{IsPassOf, IsSamePass};
ghost use Rattle.ticket_gate.specs.Journal.{GrowsByOthers};
ghost use Rattle.ticket_gate.specs.Rule.{view_of};
ghost use Rattle.ticket_gate.specs.Steps.{after_exit};
ghost use Rattle.ticket_gate.specs.Visit.{IsHolding, journal_out};
ghost use Rattle.ticket_gate.specs.declared.refusal.TurnRefusal.TheVariants.{Spent};

use crate::gate::{Gate, GateSeat, Pass, STATE};
use crate::recorded::Recorded;
use crate::refusal::TurnRefusal;
use std::sync::Wait;

impl<S: Recorded> Gate<S> {
    pub(crate) fn look(&self, seat: &mut GateSeat<S>, ticket: u64) -> S::Sight
        requires gate { seat.old.table_id ≡ self.now.id }
        requires holds { (n : ℕ) × IsHolding S.journal S.setting S.legal
            self.now.setting n ticket seat.old }
        ensures gate { seat.new.table_id ≡ seat.old.table_id }
        ensures left { seat.new.me ≡ (
          view_of (after_exit seat.old.me.0.own (ticket + 1)
              (journal_out S.journal seat.old.me.1)),
          [],
        ) }
        ensures sight { result
            ≡ S.sight_of self.now.setting (journal_out S.journal seat.old.me.1) }
    {
        let shared = &self.table.shared;
        let state = shared.exchange(seat, STATE, None).unwrap();
        let sight = state.sight();
        match shared.exchange(seat, STATE, Some(state)) {
            None => {}
            Some(_) => unreachable!(),
        }
        self.leave(seat, ticket);
        sight
    }

    /// Looks at the state, and adds no step to its journal. It enters and leaves as `take_turn` does.
    ///
    /// Answered: the sight is that of the legal journal that the pass now sees, which begins with what it saw before
    /// and has no further step of it. Refused only `Spent` (1202), once all tickets were drawn: the pass has seen
    /// nothing new.
    pub fn sight<R: Wait>(
        &self,
        rt: &R,
        pass: &mut Pass<S>,
    ) -> Result<S::Sight, TurnRefusal<S::Refusal, ()>>
        requires { IsPassOf self.now pass.old }
        ensures same { IsSamePass pass.old pass.new }
        ensures sight { IfOk result (λ sight.
            sight ≡ S.sight_of self.now.setting pass.new.known.seen) }
        ensures legal { OnOk result (S.legal self.now.setting pass.new.known.seen) }
        ensures seen { OnOk result (GrowsByOthers pass.old.number
            pass.old.known.seen pass.new.known.seen) }
        ensures refused { IfErr result (λ why. (why ≡ Spent tt)
            × (pass.new.known.seen ≡ pass.old.known.seen)
            × (pass.new.known.last_drawn ≡ 2 ^ 64 - 1)) }
    {
        match self.come_in(rt, &mut pass.seat, None) {
            Some(ticket) => Ok(self.look(&mut pass.seat, ticket)),
            None => Err(TurnRefusal::Spent { event: () }),
        }
    }
}
