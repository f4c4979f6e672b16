//! What a history determines, found by going through its steps from the oldest on.
ghost use Rattle.std.specs.Prelude.{◌≡◌, ◌<◌, ◌∷◌, ◌++◌, [], List, None, IfOk, OnOk};
ghost use Rattle.ejector.specs.declared.mark.Mark.{Mark};
ghost use Rattle.ejector.specs.Settings.{first_fault};
ghost use Rattle.ejector.specs.State.{State, fresh_state};
ghost use Rattle.ejector.specs.Ejection.{state};
ghost use Rattle.ejector.specs.Ejector.{result_mark};
ghost use Rattle.proxy_history.specs.Setting.{Setting};
ghost use Rattle.proxy_history.specs.History.{Step};
ghost use Rattle.proxy_history.specs.Waiting.{sent_by};
ghost use Rattle.proxy_history.specs.Arrival.{parts_by};
ghost use Rattle.proxy_history.specs.Marks.{is_excused, mark_by};
ghost use Rattle.proxy_history.specs.Proxy.{rules_of};
ghost use Rattle.proxy_history.specs.Hosts.{HasHost, HaveHosts};
ghost use Rattle.test_reference.specs.Scan.{Shows, history_of, part_of, parts_of, past_of_scan};

use crate::arrival::{Keys, placed_parts};
use crate::part::Part;
use crate::pipe::{first_waiting, flying, waiting};
use crate::scan::Turn;
use ejector::{Ejector, Settings};
use ketama::Ring;
use proxy_history::{Event, Kind};
use splitter::{Plan, plan};
use std::alloc::{AllocError, Global};

#[derive(Drop)]
pub(crate) struct Replay {
    pub parts: Vec<Part>,
    pub sent: Vec<Part>,
    pub ejector: Ejector,
}

#[derive(Clone, Copy)]
pub(crate) struct Past<'a> {
    pub steps: &'a [Turn],
    pub replay: &'a Replay,
}

/// Results of unknown hosts are left out.
pub(crate) fn replayed(
    alloc: Global,
    ring: &Ring,
    settings: Settings,
    steps: &[Turn],
) -> Result<Replay, AllocError>
    requires { first_fault (rules_of ring.now settings) ≡ None }
    ensures { IfOk result (λ r. (S : Setting) → S.ring ≡ ring.now
        → S.rules ≡ rules_of ring.now settings → S.opening ≡ fresh_state S.rules
        → HaveHosts ring.now.hosts steps.now → Shows S (history_of steps.now) r) }
{
    let mut replay = Replay {
        parts: Vec::new(alloc),
        sent: Vec::new(alloc),
        ejector: ejector(alloc, ring, settings)?,
    };
    for at in 0..steps.len() {
        let keys = Keys {
            ring,
            tags: settings.tags,
        };
        grow(alloc, &keys, &steps[..at], &steps[at].event, &mut replay)?;
    }
    Ok(replay)
}

fn ejector(alloc: Global, ring: &Ring, settings: Settings) -> Result<Ejector, AllocError>
    requires { first_fault (rules_of ring.now settings) ≡ None }
    ensures { IfOk result (λ e. (e.rules ≡ rules_of ring.now settings)
        × (e.state ≡ fresh_state e.rules)) }
{
    match Ejector::new(alloc, ring.hosts(), settings) {
        Ok(ejector) => Ok(ejector),
        Err(_) => Err(AllocError),
    }
}

fn grow(
    alloc: Global,
    keys: &Keys<'_>,
    steps: &[Turn],
    event: &Event,
    replay: &mut Replay,
) -> Result<(), AllocError>
    requires hosts { keys.now.ring.now.hosts ≡ replay.old.ejector.rules.hosts }
    requires tags { keys.now.tags ≡ replay.old.ejector.rules.settings.tags }
    ensures shows { OnOk result ((S : Setting) (s : Step) → S.ring ≡ keys.now.ring.now
        → s.event ≡ event.now
        → HasHost keys.now.ring.now.hosts event.now
        → Shows S (history_of steps.now) replay.old
        → Shows S (s ∷ history_of steps.now) replay.new) }
    ensures rules { replay.new.ejector.rules ≡ replay.old.ejector.rules }
{
    let mut parts = parts_by(alloc, keys, steps, replay, event)?;
    let mut sent = sent_by(alloc, steps, replay, event)?;
    take_mark(keys.ring.hosts(), steps, replay, event)?;
    replay.parts.append(&mut parts)?;
    replay.sent.append(&mut sent)?;
    Ok(())
}

fn parts_by(
    alloc: Global,
    keys: &Keys<'_>,
    steps: &[Turn],
    replay: &Replay,
    event: &Event,
) -> Result<Vec<Part>, AllocError>
    requires hosts { keys.now.ring.now.hosts ≡ replay.now.ejector.rules.hosts }
    requires tags { keys.now.tags ≡ replay.now.ejector.rules.settings.tags }
    ensures { IfOk result (λ parts. (S : Setting) (marks : List Mark) → S.ring ≡ keys.now.ring.now
        → S.rules ≡ replay.now.ejector.rules
        → replay.now.ejector.state ≡ state S.rules S.opening marks
        → parts_of parts.items ≡ parts_by S (past_of_scan steps.now marks replay.now) event.now) }
{
    let Event::Arrived { conn, request } = event else {
        return Ok(Vec::new(alloc));
    };
    let Ok(plan) = plan(alloc, request) else {
        return Err(AllocError);
    };
    let parts = match &plan {
        Plan::Parts { list, .. } => placed_parts(alloc, keys, &Past { steps, replay }, *conn, list),
        _ => Ok(Vec::new(alloc)),
    };
    drop(plan);
    parts
}

fn sent_by(
    alloc: Global,
    steps: &[Turn],
    replay: &Replay,
    event: &Event,
) -> Result<Vec<Part>, AllocError>
    ensures { IfOk result
        (λ parts. parts_of parts.items ≡ sent_by (past_of_scan steps.now [] replay.now) event.now) }
{
    let mut sent = Vec::new(alloc);
    if let Event::Taken { host } = event {
        if let Some(part) = first_waiting(steps, replay, *host) {
            sent.push(copied(part)?)?;
        }
    }
    Ok(sent)
}

// The copy shares the text.
fn copied(part: &Part) -> Result<Part, AllocError>
    ensures { IfOk result (λ copy. copy ≡ part.now) }
{
    Ok(Part {
        conn: part.conn,
        command: part.command,
        number: part.number,
        text: part.text.clone()?,
        host: part.host,
        epoch: part.epoch,
        local: part.local,
    })
}

fn take_mark(
    hosts: usize,
    steps: &[Turn],
    replay: &mut Replay,
    event: &Event,
) -> Result<(), AllocError>
    requires { hosts ≡ replay.old.ejector.rules.hosts }
    ensures state { OnOk result (HasHost hosts event.now
        → (O : State) (marks : List Mark)
        → state replay.old.ejector.rules O marks ≡ replay.old.ejector.state
        → replay.new.ejector.state
        ≡ state replay.old.ejector.rules O
        (mark_by (past_of_scan steps.now [] replay.old) event.now ++ marks)) }
    ensures rules { replay.new.ejector.rules ≡ replay.old.ejector.rules }
    ensures parts { replay.new.parts ≡ replay.old.parts }
    ensures sent { replay.new.sent ≡ replay.old.sent }
{
    match event {
        Event::Answered { host, t, .. } => take_result(&mut replay.ejector, hosts, *host, true, *t),
        Event::Failed { host, kind, t, .. } => {
            if is_excused(steps, replay, *host, *kind) {
                return Ok(());
            }
            take_result(&mut replay.ejector, hosts, *host, false, *t)
        }
        Event::Swept { t } => match replay.ejector.sweep(*t) {
            Ok(_) => Ok(()),
            Err(_) => Err(AllocError),
        },
        _ => Ok(()),
    }
}

// A host isn't blamed if its link ended while no part waited for it or flew.
pub(crate) fn is_excused(steps: &[Turn], replay: &Replay, host: usize, kind: Kind) -> bool
    ensures { result ≡ is_excused (past_of_scan steps.now [] replay.now) host kind }
{
    match kind {
        Kind::Dropped => waiting(steps, replay, host) == 0 && flying(steps, replay, host) == 0,
        Kind::Refused | Kind::Late | Kind::Garbled => false,
    }
}

// An unknown host has no results.
fn take_result(
    ejector: &mut Ejector,
    hosts: usize,
    host: usize,
    ok: bool,
    t: u64,
) -> Result<(), AllocError>
    requires { hosts ≡ ejector.old.rules.hosts }
    ensures state { OnOk result (host < hosts → (O : State) (marks : List Mark)
        → state ejector.old.rules O marks ≡ ejector.old.state
        → ejector.new.state ≡ state ejector.old.rules O (result_mark ok host t ∷ marks)) }
    ensures rules { ejector.new.rules ≡ ejector.old.rules }
{
    if host >= hosts {
        return Ok(());
    }
    match ejector.result(host, ok, t) {
        Ok(_) => Ok(()),
        Err(_) => Err(AllocError),
    }
}
