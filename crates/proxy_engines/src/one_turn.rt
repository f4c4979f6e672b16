ghost use Rattle.std.specs.Prelude.{◌≡◌, ◌∷◌, [], ℕ, IfOk, IfErr, OnOk};
ghost use Rattle.journal_core.specs.Journal.{step_by};
ghost use Rattle.ticket_gate.specs.Journal.{AddsTurn};
ghost use Rattle.splitter.specs.Plan.{is_last};
ghost use Rattle.proxy_history.specs.History.{plan_for};
ghost use Rattle.proxy_history.specs.OwnSteps.{connection_steps};
ghost use Rattle.proxy_history.specs.StepLaws.{is_last_answer};
ghost use Rattle.proxy_history.specs.declared.answer.Answer.{Answer};
ghost use Rattle.proxy_history.specs.declared.event.Event.{Event};
ghost use Rattle.proxy_engines.specs.Turns.{KeepsTurns, own_history};
ghost use Rattle.proxy_engines.specs.OneTurn.{Adds, IsDenied, told_as};

use engine_work::{Denied, EngineError};
use proxy_core::{Answer, CoreTurns, Event, Local, Refusal, Request};
use resp_core::Value;
use std::sync::Wait;
use ticket_gate::TurnRefusal;

/// The engine's error for a turn that was not made. It returns `answer` where that isn't an error: the next reply
/// hasn't come, a command is held back, no part waits, or a host has sent an unasked reply.
pub(crate) fn told_as<A: Drop>(denied: Denied, answer: A) -> Result<A, EngineError>
    ensures { result ≡ told_as denied answer }
{
    match denied {
        Denied::By(
            Refusal::NotReady { .. }
            | Refusal::Crowded
            | Refusal::NothingWaiting
            | Refusal::Unasked,
        ) => Ok(answer),
        Denied::By(_) | Denied::Spent | Denied::Astray => Err(EngineError::TurnRefused(denied)),
    }
}

/// Makes one turn. A refused event comes back. Callers know the kind of the event, so little is moved.
#[inline(always)]
pub(crate) fn offer_event<Rt: Wait, T: CoreTurns>(
    rt: &Rt,
    turns: &mut T,
    event: Event,
) -> Result<Answer, (Denied, Event)>
    ensures turns { KeepsTurns (T.facts turns.old) (T.facts turns.new) }
    ensures added { IfOk result (λ a. AddsTurn (T.legal (T.facts turns.old).setting)
        (T.facts turns.old).pass (T.facts turns.old).seen event a (T.facts turns.new).seen) }
    ensures answered { IfOk result (λ a. Adds (T.facts turns.old).pass
        (own_history (T.facts turns.old)) (own_history (T.facts turns.new)) event a) }
    ensures back { IfErr result (λ r. r.1 ≡ event) }
    ensures denied { IfErr result (λ r. IsDenied (T.cause (T.facts turns.old).setting) event
        (own_history (T.facts turns.old)) (own_history (T.facts turns.new))
        (T.facts turns.new).seen r.0) }
{
    match turns.turn(rt, event) {
        Ok(answer) => Ok(answer),
        Err(TurnRefusal::Busy { .. }) => unreachable!(),
        Err(TurnRefusal::Spent { event }) => Err((Denied::Spent, event)),
        Err(TurnRefusal::State { cause, event }) => Err((Denied::By(cause), event)),
    }
}

/// The event is dropped if it is refused.
#[inline(always)]
pub(crate) fn make_turn<Rt: Wait, T: CoreTurns>(
    rt: &Rt,
    turns: &mut T,
    event: Event,
) -> Result<Answer, Denied>
    ensures turns { KeepsTurns (T.facts turns.old) (T.facts turns.new) }
    ensures added { IfOk result (λ a. AddsTurn (T.legal (T.facts turns.old).setting)
        (T.facts turns.old).pass (T.facts turns.old).seen event a (T.facts turns.new).seen) }
    ensures answered { IfOk result (λ a. Adds (T.facts turns.old).pass
        (own_history (T.facts turns.old)) (own_history (T.facts turns.new)) event a) }
    ensures denied { IfErr result (λ r. IsDenied (T.cause (T.facts turns.old).setting) event
        (own_history (T.facts turns.old)) (own_history (T.facts turns.new))
        (T.facts turns.new).seen r) }
{
    match offer_event(rt, turns, event) {
        Ok(answer) => Ok(answer),
        Err((denied, event)) => {
            drop(event);
            Err(denied)
        }
    }
}

fn is_last_answer(local: Option<Local>) -> bool
    ensures { result ≡ is_last_answer local }
{
    matches!(local, Some(Local::Bye | Local::Broken))
}

/// True: the request finishes its connection. A refused request comes back.
pub(crate) fn arrive<Rt: Wait, T: CoreTurns>(
    rt: &Rt,
    turns: &mut T,
    conn: u64,
    request: Request,
) -> Result<bool, (Denied, Request)>
    ensures turns { KeepsTurns (T.facts turns.old) (T.facts turns.new) }
    ensures answered { OnOk result
        ((a : Answer) × Adds (T.facts turns.old).pass (own_history (T.facts turns.old))
        (own_history (T.facts turns.new)) (Event.Arrived conn request) a) }
    ensures last { IfOk result (λ last. last ≡ is_last (plan_for request)) }
    ensures back { IfErr result (λ r. r.1 ≡ request) }
    ensures denied { IfErr result (λ r. IsDenied (T.cause (T.facts turns.old).setting)
        (Event.Arrived conn request) (own_history (T.facts turns.old))
        (own_history (T.facts turns.new)) (T.facts turns.new).seen r.0) }
{
    match offer_event(rt, turns, Event::Arrived { conn, request }) {
        Ok(Answer::Accepted { local, .. }) => Ok(is_last_answer(local)),
        Ok(_) => unreachable!(),
        Err((denied, Event::Arrived { request, .. })) => Err((denied, request)),
        Err(_) => unreachable!(),
    }
}

/// Returns the connection's number, which is in no earlier step.
pub(crate) fn open<Rt: Wait, T: CoreTurns>(rt: &Rt, turns: &mut T) -> Result<u64, Denied>
    ensures turns { KeepsTurns (T.facts turns.old) (T.facts turns.new) }
    ensures answered { IfOk result (λ c. own_history (T.facts turns.new) ≡ step_by
        (T.facts turns.old).pass Event.Opened (Answer.Opened c) ∷ own_history (T.facts turns.old)) }
    ensures new { IfOk result (λ c. connection_steps c (own_history (T.facts turns.old)) ≡ []) }
    ensures denied { IfErr result (λ r. IsDenied (T.cause (T.facts turns.old).setting) Event.Opened
        (own_history (T.facts turns.old)) (own_history (T.facts turns.new))
        (T.facts turns.new).seen r) }
{
    match make_turn(rt, turns, Event::Opened) {
        Ok(Answer::Opened { conn }) => Ok(conn),
        Ok(_) => unreachable!(),
        Err(denied) => Err(denied),
    }
}

/// A refused value comes back.
pub(crate) fn give<Rt: Wait, T: CoreTurns>(
    rt: &Rt,
    turns: &mut T,
    host: usize,
    epoch: u64,
    value: Value,
    moment: u64,
) -> Result<(), (Denied, Value)>
    ensures turns { KeepsTurns (T.facts turns.old) (T.facts turns.new) }
    ensures answered { OnOk result ((a : Answer) × Adds (T.facts turns.old).pass
        (own_history (T.facts turns.old)) (own_history (T.facts turns.new))
        (Event.Answered host epoch value moment) a) }
    ensures back { IfErr result (λ r. r.1 ≡ value) }
    ensures denied { IfErr result (λ r. IsDenied (T.cause (T.facts turns.old).setting)
        (Event.Answered host epoch value moment) (own_history (T.facts turns.old))
        (own_history (T.facts turns.new)) (T.facts turns.new).seen r.0) }
{
    let event = Event::Answered {
        host,
        epoch,
        value,
        t: moment,
    };
    match offer_event(rt, turns, event) {
        Ok(answer) => {
            drop(answer);
            Ok(())
        }
        Err((denied, Event::Answered { value, .. })) => Err((denied, value)),
        Err(_) => unreachable!(),
    }
}
