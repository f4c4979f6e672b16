ghost use Rattle.std.specs.Prelude.{⊤};
ghost use Rattle.proxy_core.specs.Recorded.{journal_of, made_with, IsLegalJournal, IsCauseIn};

use ejector::EjectState;
use ketama::Ring;
use proxy_core::{Answer, Core, CoreTurns, Event, Refusal};
use std::sync::Wait;
use ticket_gate::{Alone, TurnRefusal, Turns};

// This many turns are refused from the first on, counted from 1.
#[derive(Clone, Copy)]
pub(crate) struct Ration {
    first: u64,
    refused: u64,
}

impl Ration {
    pub(crate) const FREE: Ration = Ration {
        first: 0,
        refused: 0,
    };

    pub(crate) fn without(first: u64, refused: u64) -> Ration {
        Ration { first, refused }
    }

    fn refuses(self, turn: u64) -> bool {
        turn >= self.first && turn.saturating_sub(self.first) < self.refused
    }
}

#[derive(Drop)]
pub(crate) struct Rationed {
    alone: Alone<Core>,
    ration: Ration,
    asked: u64,
}

impl Rationed {
    pub(crate) fn new(alone: Alone<Core>, ration: Ration) -> Rationed {
        Rationed {
            alone,
            ration,
            asked: 0,
        }
    }

    pub(crate) fn core(&self) -> &Core {
        self.alone.state()
    }

    pub(crate) fn into_core(self) -> Core {
        let Rationed { alone, .. } = self;
        alone.into_state()
    }
}

impl Turns for Rationed {
    type Event = Event;

    type Answer = Answer;

    type Refusal = Refusal;

    type Setting = (Ring, EjectState);

    type Home = ();

    ghost facts = { λ t. record {
      home = tt;
      pass = t.alone.pass;
      setting = made_with t.alone.state;
      seen = journal_of t.alone.state;
    } };

    ghost legal = { IsLegalJournal };

    ghost cause = { IsCauseIn };

    ghost spent = { λ t. ⊤ };

    fn turn<R: Wait>(
        &mut self,
        rt: &R,
        event: Event,
    ) -> Result<Answer, TurnRefusal<Refusal, Event>> {
        self.asked = self.asked.saturating_add(1);
        if self.ration.refuses(self.asked) {
            return Err(TurnRefusal::Spent { event });
        }
        self.alone.turn(rt, event)
    }
}

impl CoreTurns for Rationed {
    ghost use Rattle.proxy_core.specs.JournalLaws.{core_laws};

    ghost laws = { core_laws };
}
