ghost use Rattle.std.specs.Prelude.{◌≡◌, ◌+◌, ◌^◌, ◌<◌, Some, IfOk, IfErr};
ghost use Rattle.ticket_gate.specs.Gate.{IsPassOf, IsSamePass};
ghost use Rattle.ticket_gate.specs.Visit.{IsInside, HasMadeTurn};
ghost use Rattle.ticket_gate.specs.Journal.{AddsTurn};
ghost use Rattle.ticket_gate.specs.Refusal.{RefusesAtOnce, RefusesAfterWaiting};

use crate::entry::EntryRefusal;
use crate::gate::{Gate, GateSeat, Pass};
use crate::recorded::Recorded;
use crate::refusal::TurnRefusal;
use std::sync::Wait;

impl<S: Recorded> Gate<S> {
    // The turn puts the state back before the next ticket is served: else a second thread would find an empty slot.
    #[inline(always)]
    fn work(
        &self,
        seat: &mut GateSeat<S>,
        number: u64,
        ticket: u64,
        event: S::Event,
    ) -> Result<S::Answer, (S::Refusal, S::Event)>
        requires gate { seat.old.table_id ≡ self.now.id }
        requires inside { IsInside S.journal S.setting S.legal seat.old.me.0.own ticket seat.old }
        requires ticket { ticket + 1 < 2 ^ 64 }
        requires setting { seat.old.me.0.own.setting ≡ Some self.now.setting }
        requires number { seat.old.me.0.own.number ≡ Some number }
        ensures gate { seat.new.table_id ≡ seat.old.table_id }
        ensures done { HasMadeTurn S.legal S.cause seat.old.me.0.own number event result seat.new }
    {
        let outcome = self.turn_inside(seat, number, event);
        self.leave(seat, ticket);
        outcome
    }

    /// Makes one turn. It tries to enter at once, like `try_turn`, [`MAX_TRIES`](crate::MAX_TRIES) times, and
    /// [`MAX_SLEEPS`](crate::MAX_SLEEPS) times more behind short sleeps; then it waits with a ticket.
    ///
    /// Answered: the pass now sees a legal journal, which begins with what it saw before and ends with its step.
    /// Refused `Spent` (1202), once all tickets were drawn: the pass has seen nothing new. Refused `State`: the journal
    /// has no step of this turn, and the state's cause holds over what the pass now sees. Each refusal hands the event
    /// back. It is never `Busy`.
    #[inline(always)]
    pub fn take_turn<R: Wait>(
        &self,
        rt: &R,
        pass: &mut Pass<S>,
        event: S::Event,
    ) -> Result<S::Answer, TurnRefusal<S::Refusal, S::Event>>
        requires { IsPassOf self.now pass.old }
        ensures same { IsSamePass pass.old pass.new }
        ensures answered { IfOk result (λ answer. AddsTurn (S.legal self.now.setting)
            pass.old.number pass.old.known.seen event answer pass.new.known.seen) }
        ensures refused { IfErr result (RefusesAfterWaiting (S.cause self.now.setting)
            pass.old.number pass.old.known event pass.new.known) }
    {
        let Some(ticket) = self.enter(rt, &mut pass.seat) else {
            return Err(TurnRefusal::Spent { event });
        };
        let number = pass.number;
        match self.work(&mut pass.seat, number, ticket, event) {
            Ok(answer) => Ok(answer),
            Err((cause, event)) => Err(TurnRefusal::State { cause, event }),
        }
    }

    /// Makes one turn if nothing holds or awaits the gate. It never waits.
    ///
    /// Answered and refused like `take_turn`, and `Busy` (1201), with both numbers, if more tickets were drawn than
    /// served: the pass has seen nothing new.
    pub fn try_turn(
        &self,
        pass: &mut Pass<S>,
        event: S::Event,
    ) -> Result<S::Answer, TurnRefusal<S::Refusal, S::Event>>
        requires { IsPassOf self.now pass.old }
        ensures same { IsSamePass pass.old pass.new }
        ensures answered { IfOk result (λ answer. AddsTurn (S.legal self.now.setting)
            pass.old.number pass.old.known.seen event answer pass.new.known.seen) }
        ensures refused { IfErr result (RefusesAtOnce (S.cause self.now.setting)
            pass.old.number pass.old.known event pass.new.known) }
    {
        let ticket = match self.enter_at_once(&mut pass.seat) {
            Ok(ticket) => ticket,
            Err(EntryRefusal::Busy { served, drawn }) => {
                return Err(TurnRefusal::Busy {
                    served,
                    drawn,
                    event,
                });
            }
            Err(EntryRefusal::Spent) => return Err(TurnRefusal::Spent { event }),
        };
        let number = pass.number;
        match self.work(&mut pass.seat, number, ticket, event) {
            Ok(answer) => Ok(answer),
            Err((cause, event)) => Err(TurnRefusal::State { cause, event }),
        }
    }
}
