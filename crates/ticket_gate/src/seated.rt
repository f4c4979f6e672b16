ghost use Rattle.std.specs.Prelude.{◌≡◌, ◌≢◌, ◌⊎◌, ◌+◌, ◌-◌, ◌^◌, ◌<◌, ◌≤◌, true, false, Ok, Err, MatchResult};
ghost use Rattle.ticket_gate.specs.Gate.{IsPassOf};
ghost use Rattle.ticket_gate.specs.Turns.{seated_at};
ghost use Rattle.ticket_gate.specs.declared.refusal.TurnRefusal.TheVariants.{State};

use crate::gate::{Gate, GateSeat, Pass};
use crate::hold::MAX_TURNS_INSIDE;
use crate::recorded::Recorded;
use crate::refusal::TurnRefusal;
use crate::turns::Turns;
use std::marker::Model;
use std::sync::Wait;

/// A pass at its gate, for a worker.
///
/// Each turn enters and leaves, unless `hold` was called: then the pass stays inside until `leave`, or for
/// [`MAX_TURNS_INSIDE`](crate::MAX_TURNS_INSIDE) turns. Contracts don't see whether it is inside.
pub struct Seated<'a, S: Recorded> {
    gate: &'a Gate<S>,
    number: u64,
    seat: GateSeat<S>,
    // None outside.
    ticket: Option<u64>,
    // Whether it stays inside after a turn.
    holds: bool,
    // The turns that it has made inside.
    turns: u32,
}

impl<'a, S: Recorded> Model for Seated<'a, S> {
    ghost use Rattle.ticket_gate.specs.Hold.{IsSeated, held_facts};
    ghost use Rattle.ticket_gate.specs.Turns.{SeatedFacts, seated_at};

    ghost Value = { SeatedFacts S.Event S.Answer S.Setting };

    ghost view = { λ s. seated_at s.gate.now (held_facts S.journal s.number s.ticket s.seat) };

    ghost invariant = { λ s. IsSeated S.journal S.setting S.legal
        s.gate.now s.number s.ticket s.seat };
}

// A dropped pass leaves the gate: else nobody could enter any more.
impl<S: Recorded> Drop for Seated<'_, S> {
    fn drop(self) {
        let Seated {
            gate,
            number: _,
            mut seat,
            ticket,
            holds: _,
            turns: _,
        } = self;
        if let Some(ticket) = ticket {
            gate.leave(&mut seat, ticket);
        }
    }
}

impl<'a, S: Recorded> Seated<'a, S> {
    /// Seats a pass at its own gate.
    pub fn new(gate: &'a Gate<S>, pass: Pass<S>) -> Seated<'a, S>
        requires { IsPassOf gate.now pass }
        ensures { result ≡ seated_at gate.now pass }
    {
        let Pass { number, seat } = pass;
        Seated {
            gate,
            number,
            seat,
            ticket: None,
            holds: false,
            turns: 0,
        }
    }

    /// The pass, which leaves the gate.
    pub fn into_pass(self) -> Pass<S>
        ensures pass { result ≡ self.entry.pass }
        ensures gate { IsPassOf self.entry.gate result }
    {
        let Seated {
            gate,
            number,
            mut seat,
            ticket,
            holds: _,
            turns: _,
        } = self;
        if let Some(ticket) = ticket {
            gate.leave(&mut seat, ticket);
        }
        Pass { number, seat }
    }

    /// From here on a turn leaves the pass inside. The caller should `leave` before it waits for anything.
    pub fn hold(&mut self)
        ensures { self.new ≡ self.old }
    {
        self.holds = true;
    }

    /// Leaves the gate, as each turn does from here on.
    pub fn leave(&mut self)
        ensures { self.new ≡ self.old }
    {
        self.holds = false;
        self.turns = 0;
        if let Some(ticket) = self.ticket {
            self.ticket = self.gate.stay_or_leave(&mut self.seat, ticket, false);
        }
    }
}

impl<'a, S: Recorded> Seated<'a, S> {
    ghost use Rattle.std.specs.Prelude.{IfOk, IfErr, OnOk};
    ghost use Rattle.ticket_gate.specs.Gate.{IsSamePass};
    ghost use Rattle.ticket_gate.specs.Journal.{GrowsByOthers};
    ghost use Rattle.ticket_gate.specs.declared.refusal.TurnRefusal.TheVariants.{Spent};

    /// Looks at the state inside the gate. It is answered, or refused `Spent` (1202), as `Gate::sight` is. Afterwards
    /// the pass is outside.
    pub fn sight<R: Wait>(&mut self, rt: &R) -> Result<S::Sight, TurnRefusal<S::Refusal, ()>>
        ensures gate { self.new.gate ≡ self.old.gate }
        ensures same { IsSamePass self.old.pass self.new.pass }
        ensures sight { IfOk result (λ sight.
            sight ≡ S.sight_of self.old.gate.setting self.new.pass.known.seen) }
        ensures legal { OnOk result
            (S.legal self.old.gate.setting self.new.pass.known.seen) }
        ensures seen { OnOk result (GrowsByOthers self.old.pass.number
            self.old.pass.known.seen self.new.pass.known.seen) }
        ensures refused { IfErr result (λ why. (why ≡ Spent tt)
            × (self.new.pass.known.seen ≡ self.old.pass.known.seen)
            × (self.new.pass.known.last_drawn ≡ 2 ^ 64 - 1)) }
    {
        let ticket = self.gate.come_in(rt, &mut self.seat, self.ticket);
        self.ticket = None;
        self.turns = 0;
        match ticket {
            Some(ticket) => Ok(self.gate.look(&mut self.seat, ticket)),
            None => Err(TurnRefusal::Spent { event: () }),
        }
    }
}

impl<'a, S: Recorded> Turns for Seated<'a, S> {
    type Event = S::Event;

    type Answer = S::Answer;

    type Refusal = S::Refusal;

    type Setting = S::Setting;

    type Home = Gate<S>;

    ghost facts = { λ s. record {
      home = s.gate;
      pass = s.pass.number;
      setting = s.gate.setting;
      seen = s.pass.known.seen;
    } };

    ghost legal = { S.legal };

    ghost cause = { S.cause };

    ghost spent = { λ s. s.pass.known.last_drawn ≡ 2 ^ 64 - 1 };

    #[inline(always)]
    fn turn<R: Wait>(
        &mut self,
        rt: &R,
        event: S::Event,
    ) -> Result<S::Answer, TurnRefusal<S::Refusal, S::Event>> {
        let Some(ticket) = self.gate.come_in(rt, &mut self.seat, self.ticket) else {
            self.ticket = None;
            return Err(TurnRefusal::Spent { event });
        };
        let outcome = self.gate.turn_inside(&mut self.seat, self.number, event);
        self.turns = turns_inside(self.turns, self.holds);
        self.ticket = self
            .gate
            .stay_or_leave(&mut self.seat, ticket, self.turns > 0);
        told_by_state(outcome)
    }
}

// 0: the pass leaves.
fn turns_inside(turns: u32, holds: bool) -> u32
    ensures stays { result ≢ 0 → (holds ≡ true) × (result ≡ turns + 1) × (result < 64) }
    ensures leaves { result ≡ 0 → (holds ≡ false) ⊎ (64 ≤ turns + 1) }
{
    let turns = turns.saturating_add(1);
    if holds && turns < MAX_TURNS_INSIDE {
        turns
    } else {
        0
    }
}

fn told_by_state<A, C, E>(outcome: Result<A, (C, E)>) -> Result<A, TurnRefusal<C, E>>
    ensures { MatchResult outcome (λ answer. result ≡ Ok answer)
        (λ refused. result ≡ Err (State refused.0 refused.1)) }
{
    match outcome {
        Ok(answer) => Ok(answer),
        Err((cause, event)) => Err(TurnRefusal::State { cause, event }),
    }
}
