ghost use Rattle.std.specs.Prelude.{◌≡◌, ◌+◌, ℕ, [], Some};
ghost use Rattle.ticket_gate.specs.Hold.{ComesIn, IsSeated, held_facts};
ghost use Rattle.ticket_gate.specs.Rule.{view_of};
ghost use Rattle.ticket_gate.specs.Steps.{after_exit};
ghost use Rattle.ticket_gate.specs.Visit.{HasTurned, IsHolding, journal_out};

use crate::gate::{Gate, GateSeat, SERVING, STATE};
use crate::recorded::Recorded;
use crate::steps::ServeNext;
use std::sync::Wait;

/// The most turns that a pass makes inside before it leaves.
pub const MAX_TURNS_INSIDE: u32 = 64;

impl<S: Recorded> Gate<S> {
    #[inline(always)]
    pub(crate) fn turn_inside(
        &self,
        seat: &mut GateSeat<S>,
        number: u64,
        event: S::Event,
    ) -> Result<S::Answer, (S::Refusal, S::Event)>
        requires gate { seat.old.table_id ≡ self.now.id }
        requires holds { (t : ℕ) × IsHolding S.journal S.setting S.legal
            self.now.setting number t seat.old }
        ensures gate { seat.new.table_id ≡ seat.old.table_id }
        ensures view { seat.new.me.0 ≡ seat.old.me.0 }
        ensures holds { (t : ℕ) → IsHolding S.journal S.setting S.legal
            self.now.setting number t seat.old
            → IsHolding S.journal S.setting S.legal self.now.setting number t seat.new }
        ensures turned { HasTurned S.cause (journal_out S.journal seat.old.me.1)
            (journal_out S.journal seat.new.me.1) self.now.setting number event result }
    {
        let shared = &self.table.shared;
        let mut state = shared.exchange(seat, STATE, None).unwrap();
        let outcome = state.turn(number, event);
        match shared.exchange(seat, STATE, Some(state)) {
            None => {}
            Some(_) => unreachable!(),
        }
        outcome
    }

    // The place has seen all that was done inside.
    #[inline(always)]
    pub(crate) fn leave(&self, seat: &mut GateSeat<S>, ticket: u64)
        requires gate { seat.old.table_id ≡ self.now.id }
        requires holds { (n : ℕ) × IsHolding S.journal S.setting S.legal
            self.now.setting n ticket seat.old }
        ensures gate { seat.new.table_id ≡ seat.old.table_id }
        ensures left { seat.new.me ≡ (
          view_of (after_exit seat.old.me.0.own (ticket + 1)
              (journal_out S.journal seat.old.me.1)),
          [],
        ) }
    {
        self.table
            .shared
            .store::<ServeNext>(seat, SERVING, ticket + 1);
    }

    #[inline(always)]
    pub(crate) fn come_in<R: Wait>(
        &self,
        rt: &R,
        seat: &mut GateSeat<S>,
        ticket: Option<u64>,
    ) -> Option<u64>
        requires { (n : ℕ) × IsSeated S.journal S.setting S.legal self.now n ticket seat.old }
        ensures { (n : ℕ) → IsSeated S.journal S.setting S.legal self.now n ticket seat.old
            → ComesIn S.journal S.setting S.legal self.now n ticket seat.old seat.new result }
    {
        match ticket {
            Some(ticket) => Some(ticket),
            None => self.enter(rt, seat),
        }
    }

    #[inline(always)]
    pub(crate) fn stay_or_leave(
        &self,
        seat: &mut GateSeat<S>,
        ticket: u64,
        stays: bool,
    ) -> Option<u64>
        requires { (n : ℕ) × IsSeated S.journal S.setting S.legal
            self.now n (Some ticket) seat.old }
        ensures { (n : ℕ) → IsSeated S.journal S.setting S.legal
            self.now n (Some ticket) seat.old
            → IsSeated S.journal S.setting S.legal self.now n result seat.new
            × (held_facts S.journal n result seat.new
            ≡ held_facts S.journal n (Some ticket) seat.old) }
    {
        if stays {
            Some(ticket)
        } else {
            self.leave(seat, ticket);
            None
        }
    }
}
