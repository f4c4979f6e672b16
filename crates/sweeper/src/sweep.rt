//! One sweep, which is one turn of a core.
ghost use Rattle.std.specs.Prelude.{◌≡◌, IfOk, IfErr};
ghost use Rattle.ticket_gate.specs.Journal.{AddsTurn};
ghost use Rattle.ticket_gate.specs.Turns.{KeepsPlace};
ghost use Rattle.proxy_history.specs.Answer.{counts_of};
ghost use Rattle.proxy_history.specs.declared.event.Event.{Event};
ghost use Rattle.sweeper.specs.Sweep.{RefusesFor, RefusesSweep, number_of};

use ejector::Swept;
use proxy_core::{Answer, CoreTurns, Event, Refusal};
use std::sync::Wait;
use thiserror::Error;
use ticket_gate::TurnRefusal;

/// Why a sweep wasn't made.
#[derive(Clone, Copy, Debug, PartialEq, Eq, Error)]
pub enum SweepRefusal {
    /// 1001: memory was refused.
    #[error("out of memory")]
    NoMemory,
    /// 1002: the journal is full.
    #[error("the journal is full")]
    JournalFull,
    /// 1202: the gate has no ticket left.
    #[error("the gate has no ticket left")]
    Spent,
}

impl SweepRefusal {
    /// 1001, 1002 or 1202.
    pub fn number(self) -> u16
        ensures { result ≡ number_of self }
    {
        match self {
            SweepRefusal::NoMemory => 1001,
            SweepRefusal::JournalFull => 1002,
            SweepRefusal::Spent => 1202,
        }
    }
}

/// Makes one turn: a sweep at this moment in milliseconds. Returns the numbers of hosts that it returned, ejected, and
/// let stay though they tripped.
///
/// Answered: the pass now sees a legal journal, which begins with what it saw before and ends with this sweep and this
/// answer, its only new step. Refused 1001 (`NoMemory`) or 1002 (`JournalFull`) by the core: that has its cause over
/// what the pass now sees, which has no further step of the pass. Refused 1202 (`Spent`) where no ticket is left: the
/// pass has seen nothing new.
pub fn sweep_once<R: Wait, T: CoreTurns>(
    rt: &R,
    turns: &mut T,
    moment: u64,
) -> Result<Swept, SweepRefusal>
    ensures same { KeepsPlace (T.facts turns.old) (T.facts turns.new) }
    ensures answered { let old = T.facts turns.old in IfOk result (λ swept.
        AddsTurn (T.legal old.setting) old.pass old.seen
        (Event.Swept moment) (counts_of swept) (T.facts turns.new).seen) }
    ensures refused { let old = T.facts turns.old in IfErr result (RefusesSweep
        (T.cause old.setting) (T.spent turns.new) old.pass old.seen moment
        (T.facts turns.new).seen) }
{
    match ask_sweep(rt, turns, moment) {
        Ok(
            Answer::Swept {
                returned,
                ejected,
                kept,
            },
        ) => Ok(Swept {
            returned,
            ejected,
            kept,
        }),
        Err(None) => Err(SweepRefusal::Spent),
        Err(Some(Refusal::NoMemory)) => Err(SweepRefusal::NoMemory),
        Err(Some(Refusal::JournalFull)) => Err(SweepRefusal::JournalFull),
        Ok(_) | Err(_) => unreachable!(),
    }
}

// A refusal for want of tickets has no cause.
fn ask_sweep<R: Wait, T: CoreTurns>(
    rt: &R,
    turns: &mut T,
    moment: u64,
) -> Result<Answer, Option<Refusal>>
    ensures same { KeepsPlace (T.facts turns.old) (T.facts turns.new) }
    ensures answered { let old = T.facts turns.old in IfOk result (λ answer.
        AddsTurn (T.legal old.setting) old.pass old.seen
        (Event.Swept moment) answer (T.facts turns.new).seen) }
    ensures refused { let old = T.facts turns.old in IfErr result (RefusesFor (T.cause old.setting)
        (T.spent turns.new) old.pass old.seen moment (T.facts turns.new).seen) }
{
    match turns.turn(rt, Event::Swept { t: moment }) {
        Ok(answer) => Ok(answer),
        Err(TurnRefusal::Busy { .. }) => unreachable!(),
        Err(TurnRefusal::Spent { event }) => {
            drop(event);
            Err(None)
        }
        Err(TurnRefusal::State { cause, event }) => {
            drop(event);
            Err(Some(cause))
        }
    }
}
