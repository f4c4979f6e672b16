//! The plain program, which keeps its steps alone.
ghost use Rattle.std.specs.Prelude.{◌≡◌, ◌⊎◌, ◌∷◌, ℕ, List, None, is_some, [], IfOk, OnOk, OnErr, IfErr, IsErrOf, MatchOption};
ghost use Rattle.ejector.specs.Settings.{first_fault};
ghost use Rattle.ejector.specs.declared.mark.Mark.{Mark};
ghost use Rattle.ejector.specs.Ejection.{state};
ghost use Rattle.proxy_history.specs.Setting.{Setting};
ghost use Rattle.proxy_history.specs.History.{Step as TurnStep};
ghost use Rattle.proxy_history.specs.Past.{past};
ghost use Rattle.proxy_history.specs.Outcome.{outcome};
ghost use Rattle.proxy_history.specs.Cause.{own_cause};
ghost use Rattle.proxy_history.specs.Answer.{answer_to};
ghost use Rattle.proxy_history.specs.Hosts.{HasHost};
ghost use Rattle.proxy_history.specs.Legal.{IsLegal, MayFollow, IsCause};
ghost use Rattle.test_reference.specs.Scan.{Shows, history_of, past_of_scan};
ghost use Rattle.proxy_history.specs.Proxy.{history_in, rules_of, setting_of, IsStep, HasCause};
ghost use Rattle.proxy_history.specs.declared.event.Event.TheVariants.{Handed};

use crate::answering::{accepted, handed_out, lost, matched, swept, taken};
use crate::arrival::Keys;
use crate::cause::{
    answer_cause, arrival_cause, close_cause, fault_cause, finish_cause, is_open, left,
    opening_cause, take_cause,
};
use crate::payload::has_room;
use crate::replay::{Past, Replay, replayed};
use crate::scan::{Turn, Wanted, times};
use crate::value::outcome;
use ejector::{EjectError, Ejector, Settings};
use journal_core::Step;
use ketama::Ring;
use proxy_history::{Answer, Event, Refusal};
use std::alloc::{AllocError, Global};
use std::marker::Model;

/// A proxy that is a list of steps and nothing more.
///
/// Contracts see its ring and rules, and its steps, which are a legal history.
#[derive(Drop)]
pub struct Reference {
    alloc: Global,
    ring: Ring,
    settings: Settings,
    steps: Vec<Turn>,
}

impl Model for Reference {
    ghost use Rattle.std.specs.Prelude.{◌≡◌, None, reverse};
    ghost use Rattle.ejector.specs.Settings.{first_fault};
    ghost use Rattle.proxy_history.specs.Legal.{IsLegal};
    ghost use Rattle.proxy_history.specs.Proxy.{Proxy, rules_of, setting_of};

    ghost Value = { Proxy };

    ghost use Rattle.std.specs.Coded.{codes};
    ghost use Rattle.resp_core.specs.Code.{tree_code};

    ghost coded = { Prim.hlevel (codes, tree_code) };

    ghost view = { λ r. record { setting = setting_of r.ring r.settings; steps = r.steps.items } };

    ghost invariant = { λ r. (first_fault (rules_of r.ring r.settings) ≡ None)
        × IsLegal (setting_of r.ring r.settings) (reverse r.steps.items) };
}

impl Reference {
    /// A proxy to which nothing has happened.
    ///
    /// Refused 1011 with the first setting out of its range, or `hosts` where the ring has none; 1001 only if all are in range.
    pub fn new(alloc: Global, ring: Ring, settings: Settings) -> Result<Reference, Refusal>
        ensures made { IfOk result (λ r. (r.setting ≡ setting_of ring settings) × (r.steps ≡ [])) }
        ensures refused { MatchOption (first_fault (rules_of ring settings))
            (IfErr result (λ e. e ≡ Refusal.NoMemory))
            (λ field. IsErrOf result (Refusal.BadSettings field)) }
    {
        match Ejector::new(alloc, ring.hosts(), settings) {
            Ok(_) => Ok(Reference {
                alloc,
                ring,
                settings,
                steps: Vec::new(alloc),
            }),
            Err(EjectError::BadSettings { field }) => Err(Refusal::BadSettings { field }),
            Err(EjectError::NoMemory) => Err(Refusal::NoMemory),
        }
    }

    /// Takes one event of the pass `pass`, and adds its step with the answer that a legal history has there.
    ///
    /// Refused by its first own cause that holds, else 1002 for a full journal; 1001 without memory. Nothing has changed then.
    pub fn turn(&mut self, pass: u64, event: Event) -> Result<(), (Refusal, Event)>
        ensures step { OnOk result ((s : TurnStep) × IsStep self.old self.new pass event s) }
        ensures event { IfErr result (λ r. r.1 ≡ event) }
        ensures cause { IfErr result (λ r. HasCause self.old event r.0) }
        ensures err { OnErr result (self.new ≡ self.old) }
    {
        match next_answer(self.alloc, &self.ring, self.settings, &self.steps, &event) {
            Ok(answer) => self.add(Step {
                pass,
                event,
                answer,
            }),
            Err(cause) => Err((cause, event)),
        }
    }

    fn add(&mut self, step: Turn) -> Result<(), (Refusal, Event)>
        requires { MayFollow self.old.setting (past self.old.setting (history_in self.old)) step }
        ensures step { OnOk result ((history_in self.new ≡ step ∷ history_in self.old)
            × (self.new.setting ≡ self.old.setting)) }
        ensures event { IfErr result (λ r. (r.1 ≡ step.event) × (r.0 ≡ Refusal.NoMemory)) }
        ensures err { OnErr result (self.new ≡ self.old) }
    {
        match self.steps.push(step) {
            Ok(()) => Ok(()),
            Err(refused) => Err((Refusal::NoMemory, refused.value.event)),
        }
    }

    /// The steps so far, the oldest first.
    pub fn steps(&self) -> &[Turn]
        ensures steps { result.now ≡ self.now.steps }
        ensures legal { IsLegal self.now.setting (history_in self.now) }
    {
        self.steps.as_slice()
    }
}

fn next_answer(
    alloc: Global,
    ring: &Ring,
    settings: Settings,
    steps: &[Turn],
    event: &Event,
) -> Result<Answer, Refusal>
    requires fault { first_fault (rules_of ring.now settings) ≡ None }
    requires legal { IsLegal (setting_of ring.now settings) (history_of steps.now) }
    ensures answer { IfOk result (λ a. (pass : ℕ)
        → MayFollow (setting_of ring.now settings)
        (past (setting_of ring.now settings) (history_of steps.now))
        (record { pass = pass; event = event.now; answer = a })) }
    ensures cause { IfErr result
        (λ r. (r ≡ Refusal.NoMemory) ⊎ IsCause (setting_of ring.now settings)
        (history_of steps.now) event.now r) }
{
    let mut replay = replayed(alloc, ring, settings, steps)?;
    if let Some(cause) = own_cause(alloc, ring.hosts(), steps, &replay, event)? {
        return Err(cause);
    }
    let keys = Keys {
        ring,
        tags: settings.tags,
    };
    let answer = answer_to(alloc, &keys, steps, &mut replay, event)?;
    if has_room(steps, event, &answer) {
        Ok(answer)
    } else {
        Err(Refusal::JournalFull)
    }
}

fn own_cause(
    alloc: Global,
    hosts: usize,
    steps: &[Turn],
    replay: &Replay,
    event: &Event,
) -> Result<Option<Refusal>, AllocError>
    requires { (S : Setting) × Shows S (history_of steps.now) replay.now }
    ensures { IfOk result (λ cause. (S : Setting) → S.rules.hosts ≡ hosts
        → cause ≡ own_cause S (past_of_scan steps.now [] replay.now) event.now) }
{
    Ok(match event {
        Event::Opened => opening_cause(steps),
        Event::Arrived { conn, .. } => arrival_cause(steps, *conn),
        Event::Finished { conn } => finish_cause(steps, *conn),
        Event::Taken { host } => take_cause(hosts, &Past { steps, replay }, *host),
        Event::Answered {
            host,
            epoch,
            value,
            ..
        } => answer_cause(hosts, &Past { steps, replay }, *host, *epoch, value),
        Event::Failed { host, epoch, .. } => fault_cause(hosts, steps, *host, *epoch),
        Event::Swept { .. } => None,
        Event::Handed { conn } => hand_cause(alloc, steps, replay, *conn)?,
        Event::Closed { conn } => close_cause(steps, *conn),
    })
}

fn hand_cause(
    alloc: Global,
    steps: &[Turn],
    replay: &Replay,
    conn: u64,
) -> Result<Option<Refusal>, AllocError>
    requires { (S : Setting) × Shows S (history_of steps.now) replay.now }
    ensures { IfOk result (λ cause. (S : Setting)
        → cause ≡ own_cause S (past_of_scan steps.now [] replay.now) (Handed conn)) }
{
    if !is_open(steps, conn) {
        return Ok(Some(Refusal::NoSuchConnection));
    }
    let left = left(steps, conn);
    if left == 0 {
        return Ok(Some(Refusal::NotReady { left }));
    }
    if has_outcome(
        alloc,
        steps,
        replay,
        conn,
        times(steps, Wanted::Handing(conn)),
    )? {
        Ok(None)
    } else {
        Ok(Some(Refusal::NotReady { left }))
    }
}

fn has_outcome(
    alloc: Global,
    steps: &[Turn],
    replay: &Replay,
    conn: u64,
    index: u64,
) -> Result<bool, AllocError>
    requires { (S : Setting) × Shows S (history_of steps.now) replay.now }
    ensures { IfOk result
        (λ has. has ≡ is_some (outcome conn index (past_of_scan steps.now [] replay.now))) }
{
    match outcome(alloc, steps, replay, conn, index) {
        Ok(Some(value)) => {
            drop(value);
            Ok(true)
        }
        Ok(None) => Ok(false),
        Err(_) => Err(AllocError),
    }
}

fn answer_to(
    alloc: Global,
    keys: &Keys<'_>,
    steps: &[Turn],
    replay: &mut Replay,
    event: &Event,
) -> Result<Answer, AllocError>
    requires hosts { keys.now.ring.now.hosts ≡ replay.old.ejector.rules.hosts }
    requires tags { keys.now.tags ≡ replay.old.ejector.rules.settings.tags }
    requires legal { (S : Setting) × IsLegal S (history_of steps.now)
        × Shows S (history_of steps.now) replay.old }
    requires host { HasHost keys.now.ring.now.hosts event.now }
    ensures { IfOk result (λ a. (S : Setting) (marks : List Mark) → S.ring ≡ keys.now.ring.now
        → S.rules ≡ replay.old.ejector.rules
        → replay.old.ejector.state ≡ state S.rules S.opening marks
        → a ≡ answer_to S (past_of_scan steps.now marks replay.old) event.now) }
{
    match event {
        Event::Opened => Ok(Answer::Opened {
            conn: times(steps, Wanted::Opening),
        }),
        Event::Arrived { conn, request } => accepted(
            alloc,
            keys,
            &Past { steps, replay },
            *conn,
            request,
        ),
        Event::Finished { .. } => Ok(Answer::Finishing),
        Event::Taken { host } => taken(alloc, steps, replay, *host),
        Event::Answered { host, t, .. } => matched(&mut replay.ejector, *host, *t),
        Event::Failed { host, kind, t, .. } => lost(steps, replay, *host, *kind, *t),
        Event::Swept { t } => swept(&mut replay.ejector, *t),
        Event::Handed { conn } => handed_out(alloc, steps, replay, *conn),
        Event::Closed { .. } => Ok(Answer::Closed),
    }
}
