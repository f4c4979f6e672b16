//! The answer to an event that isn't refused.
ghost use Rattle.std.specs.Prelude.{◌≡◌, ◌+◌, ◌<◌, [], List, ℕ, Some, None, length, count_by, IfOk, OnOk};
ghost use Rattle.ejector.specs.declared.mark.Mark.{Mark};
ghost use Rattle.ejector.specs.State.{State};
ghost use Rattle.ejector.specs.Ejection.{state, trip as trip_after};
ghost use Rattle.ejector.specs.Ejector.{result_mark};
ghost use Rattle.proxy_history.specs.Setting.{Setting};
ghost use Rattle.proxy_history.specs.Part.{Past as HistoryPast};
ghost use Rattle.proxy_history.specs.Legal.{IsLegal};
ghost use Rattle.proxy_history.specs.Answer.{answer_to, accepts, is_hostless, is_busy};
ghost use Rattle.test_reference.specs.Scan.{Shows, history_of, parts_of, past_of_scan, past_seen};
ghost use Rattle.proxy_history.specs.declared.event.Event.TheVariants.{Arrived, Taken, Answered, Failed, Swept, Handed};
ghost use Rattle.resp_core.specs.declared.value.Value.{Value};

use crate::arrival::{Keys, placed_parts};
use crate::part::Part;
use crate::pipe::{first_waiting, flying, sent, waiting};
use crate::replay::{Past, Replay, is_excused};
use crate::scan::{Turn, Wanted, times};
use crate::value::outcome;
use bytes::Bytes;
use ejector::{Ejector, Trip};
use proxy_history::{Answer, Kind};
use resp_core::put_text;
use splitter::{Local, Plan, Request, plan};
use std::alloc::{AllocError, Global};

pub(crate) fn accepted(
    alloc: Global,
    keys: &Keys<'_>,
    past: &Past<'_>,
    conn: u64,
    request: &Request,
) -> Result<Answer, AllocError>
    requires hosts { keys.now.ring.now.hosts ≡ past.now.replay.now.ejector.rules.hosts }
    requires tags { keys.now.tags ≡ past.now.replay.now.ejector.rules.settings.tags }
    ensures { IfOk result (λ answer. (S : Setting) (marks : List Mark) → S.ring ≡ keys.now.ring.now
        → S.rules ≡ past.now.replay.now.ejector.rules
        → past.now.replay.now.ejector.state ≡ state S.rules S.opening marks
        → answer ≡ answer_to S (past_seen past.now marks) (Arrived conn request.now)) }
{
    let index = times(past.steps, Wanted::Arrival(conn));
    let Ok(plan) = plan(alloc, request) else {
        return Err(AllocError);
    };
    let answer = match &plan {
        Plan::Here(name, _) | Plan::Leave(name, _) => Ok(own(index, *name)),
        Plan::Parts { list, .. } => match placed_parts(alloc, keys, past, conn, list) {
            Ok(placed) => Ok(counted(index, &placed)),
            Err(refused) => Err(refused),
        },
    };
    drop(plan);
    answer
}

fn own(index: u64, name: Local) -> Answer
    ensures { result ≡ accepts index (Some name) [] }
{
    Answer::Accepted {
        index,
        local: Some(name),
        parts: 0,
        no_host: 0,
        busy: 0,
    }
}

fn counted(index: u64, placed: &[Part]) -> Answer
    ensures { result ≡ accepts index None (parts_of placed.now) }
{
    Answer::Accepted {
        index,
        local: None,
        parts: placed.len() as u64,
        no_host: hostless(placed),
        busy: busy(placed),
    }
}

fn hostless(placed: &[Part]) -> u64
    ensures { result ≡ count_by is_hostless (parts_of placed.now) }
{
    placed.iter().filter(|part| part.host.is_none()).count() as u64
}

fn busy(placed: &[Part]) -> u64
    ensures { result ≡ count_by is_busy (parts_of placed.now) }
{
    placed
        .iter()
        .filter(|part| part.host.is_some() && part.local.is_some())
        .count() as u64
}

pub(crate) fn taken(
    alloc: Global,
    steps: &[Turn],
    replay: &Replay,
    host: usize,
) -> Result<Answer, AllocError>
    ensures { IfOk result (λ answer. (S : Setting) (marks : List Mark)
        → answer ≡ answer_to S (past_of_scan steps.now marks replay.now) (Taken host)) }
{
    let epoch = times(steps, Wanted::Fault(host));
    let text = match first_waiting(steps, replay, host) {
        Some(part) => part.text.clone()?,
        None => Bytes::from_static(b""),
    };
    Ok(Answer::Sent {
        epoch,
        place: sent(replay, host, epoch),
        text,
    })
}

pub(crate) fn matched(ejector: &mut Ejector, host: usize, t: u64) -> Result<Answer, AllocError>
    requires { host < ejector.old.rules.hosts }
    ensures { IfOk result (λ answer. (S : Setting) (x : HistoryPast) (epoch : ℕ) (value : Value)
        → S.rules ≡ ejector.old.rules
        → ejector.old.state ≡ state S.rules S.opening x.marks
        → answer ≡ answer_to S x (Answered host epoch value t)) }
{
    Ok(Answer::Matched {
        trip: trip(ejector, host, true, t)?,
    })
}

fn trip(ejector: &mut Ejector, host: usize, ok: bool, t: u64) -> Result<Trip, AllocError>
    requires { host < ejector.old.rules.hosts }
    ensures { IfOk result (λ trip. (O : State) (marks : List Mark)
        → state ejector.old.rules O marks ≡ ejector.old.state
        → trip ≡ trip_after ejector.old.rules O (result_mark ok host t) marks) }
{
    match ejector.result(host, ok, t) {
        Ok(trip) => Ok(trip),
        Err(_) => Err(AllocError),
    }
}

pub(crate) fn lost(
    steps: &[Turn],
    replay: &mut Replay,
    host: usize,
    kind: Kind,
    t: u64,
) -> Result<Answer, AllocError>
    requires { host < replay.old.ejector.rules.hosts }
    ensures { IfOk result (λ answer. (S : Setting) (marks : List Mark) (epoch : ℕ)
        → S.rules ≡ replay.old.ejector.rules
        → replay.old.ejector.state ≡ state S.rules S.opening marks
        → answer ≡ answer_to S (past_of_scan steps.now marks replay.old)
        (Failed host epoch kind t)) }
{
    let parts = waiting(steps, replay, host) + flying(steps, replay, host);
    let trip = if is_excused(steps, replay, host, kind) {
        Trip::None
    } else {
        trip(&mut replay.ejector, host, false, t)?
    };
    Ok(Answer::Lost { parts, trip })
}

pub(crate) fn swept(ejector: &mut Ejector, t: u64) -> Result<Answer, AllocError>
    ensures { IfOk result (λ answer. (S : Setting) (x : HistoryPast) → S.rules ≡ ejector.old.rules
        → ejector.old.state ≡ state S.rules S.opening x.marks → answer ≡ answer_to S x (Swept t)) }
{
    match ejector.sweep(t) {
        Ok(hosts) => Ok(Answer::Swept {
            returned: hosts.returned,
            ejected: hosts.ejected,
            kept: hosts.kept,
        }),
        Err(_) => Err(AllocError),
    }
}

pub(crate) fn handed_out(
    alloc: Global,
    steps: &[Turn],
    replay: &Replay,
    conn: u64,
) -> Result<Answer, AllocError>
    requires { (S : Setting) × IsLegal S (history_of steps.now)
        × Shows S (history_of steps.now) replay.now }
    ensures { IfOk result (λ answer. (S : Setting) (marks : List Mark)
        → answer ≡ answer_to S (past_of_scan steps.now marks replay.now) (Handed conn)) }
{
    let index = times(steps, Wanted::Handing(conn));
    let mut text = Vec::new(alloc);
    match outcome(alloc, steps, replay, conn, index) {
        Ok(Some(value)) => {
            let put = put_text(alloc, &value, &mut text);
            drop(value);
            if put.is_err() {
                return Err(AllocError);
            }
        }
        Ok(None) => text.extend_from_slice(b"$-1\r\n")?,
        Err(_) => return Err(AllocError),
    }
    match Bytes::from_vec(text) {
        Ok(text) => Ok(Answer::Bytes { text }),
        Err(_) => Err(AllocError),
    }
}
