//! Why an event is refused.
ghost use Rattle.std.specs.Prelude.{◌≡◌, ◌-◌, ℕ, [], List, Some, None, IfOk, true, false};
ghost use Rattle.resp_core.specs.Value.{tree_of};
ghost use Rattle.proxy_history.specs.Setting.{Setting, hosts};
ghost use Rattle.proxy_history.specs.History.{is_open, accepted_count, handed_count};
ghost use Rattle.proxy_history.specs.Cause.{own_cause, first_true, no_such_connection, finishing_cause, no_such_host, stale_cause};
ghost use Rattle.test_reference.specs.Scan.{history_of, past_of_scan, past_seen};
ghost use Rattle.test_reference.specs.declared.replay.Replay.{Replay};
ghost use Rattle.proxy_history.specs.declared.event.Event.TheVariants.{Opened, Arrived, Finished, Taken, Answered, Failed, Swept, Handed, Closed};
ghost use Rattle.proxy_history.specs.declared.event.Kind.{Kind};
ghost use Rattle.splitter.specs.declared.request.Request.{Request};

use crate::pipe::{flying, waiting};
use crate::replay::Past;
use crate::scan::{Turn, Wanted, has, times};
use limits::{MAX_COMMANDS, MAX_CONNECTIONS};
use proxy_history::Refusal;
use resp_core::Value;

pub(crate) fn is_open(steps: &[Turn], conn: u64) -> bool
    ensures { result ≡ is_open conn (history_of steps.now) }
{
    conn < times(steps, Wanted::Opening) && !has(steps, Wanted::Closing(conn))
}

pub(crate) fn left(steps: &[Turn], conn: u64) -> u64
    ensures { result
        ≡ accepted_count conn (history_of steps.now) - handed_count conn (history_of steps.now) }
{
    times(steps, Wanted::Arrival(conn)).saturating_sub(times(steps, Wanted::Handing(conn)))
}

pub(crate) fn opening_cause(steps: &[Turn]) -> Option<Refusal>
    ensures { (S : Setting) (replay : Replay)
        → result ≡ own_cause S (past_of_scan steps.now [] replay) Opened }
{
    let open = times(steps, Wanted::Opening).saturating_sub(times(steps, Wanted::AnyClosing));
    if open >= MAX_CONNECTIONS as u64 {
        return Some(Refusal::TooManyConnections);
    }
    None
}

pub(crate) fn arrival_cause(steps: &[Turn], conn: u64) -> Option<Refusal>
    ensures { (S : Setting) (replay : Replay) (request : Request)
        → result ≡ own_cause S (past_of_scan steps.now [] replay) (Arrived conn request) }
{
    if !is_open(steps, conn) {
        Some(Refusal::NoSuchConnection)
    } else if has(steps, Wanted::Finishing(conn)) {
        Some(Refusal::Finishing)
    } else if left(steps, conn) >= MAX_COMMANDS as u64 {
        Some(Refusal::Crowded)
    } else {
        None
    }
}

pub(crate) fn finish_cause(steps: &[Turn], conn: u64) -> Option<Refusal>
    ensures { (S : Setting) (replay : Replay)
        → result ≡ own_cause S (past_of_scan steps.now [] replay) (Finished conn) }
{
    if !is_open(steps, conn) {
        Some(Refusal::NoSuchConnection)
    } else if has(steps, Wanted::Finishing(conn)) {
        Some(Refusal::Finishing)
    } else {
        None
    }
}

pub(crate) fn take_cause(host_count: usize, past: &Past<'_>, host: usize) -> Option<Refusal>
    ensures { (S : Setting) → hosts S ≡ host_count
        → result ≡ own_cause S (past_seen past.now []) (Taken host) }
{
    if host >= host_count {
        Some(Refusal::NoSuchHost)
    } else if waiting(past.steps, past.replay, host) == 0 {
        Some(Refusal::NothingWaiting)
    } else {
        None
    }
}

pub(crate) fn answer_cause(
    host_count: usize,
    past: &Past<'_>,
    host: usize,
    epoch: u64,
    value: &Value,
) -> Option<Refusal>
    ensures { (S : Setting) (v : Value) (t : ℕ) → hosts S ≡ host_count
        → tree_of v ≡ tree_of value.now
        → result ≡ own_cause S (past_seen past.now []) (Answered host epoch v t) }
{
    let current = times(past.steps, Wanted::Fault(host));
    if host >= host_count {
        Some(Refusal::NoSuchHost)
    } else if !value.is_plain() {
        Some(Refusal::NotPlain)
    } else if epoch != current {
        Some(Refusal::Stale { current })
    } else if flying(past.steps, past.replay, host) == 0 {
        Some(Refusal::Unasked)
    } else {
        None
    }
}

pub(crate) fn fault_cause(
    host_count: usize,
    steps: &[Turn],
    host: usize,
    epoch: u64,
) -> Option<Refusal>
    ensures { (S : Setting) (replay : Replay) (kind : Kind) (t : ℕ) → hosts S ≡ host_count
        → result ≡ own_cause S (past_of_scan steps.now [] replay) (Failed host epoch kind t) }
{
    let current = times(steps, Wanted::Fault(host));
    if host >= host_count {
        Some(Refusal::NoSuchHost)
    } else if epoch != current {
        Some(Refusal::Stale { current })
    } else {
        None
    }
}

pub(crate) fn close_cause(steps: &[Turn], conn: u64) -> Option<Refusal>
    ensures { (S : Setting) (replay : Replay)
        → result ≡ own_cause S (past_of_scan steps.now [] replay) (Closed conn) }
{
    if is_open(steps, conn) {
        None
    } else {
        Some(Refusal::NoSuchConnection)
    }
}
