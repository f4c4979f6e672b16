//! Where the parts of a command go at its arrival: each gets its host for good, or a value at once.
ghost use Rattle.std.specs.Prelude.{◌≡◌, [], List, Option, None, Some, IfOk, length, map, filter, nat_lt, if◌then◌else◌};
ghost use Rattle.std.specs.Option.{option_map};
ghost use Rattle.ejector.specs.declared.mark.Mark.{Mark};
ghost use Rattle.ejector.specs.Ejection.{state};
ghost use Rattle.ejector.specs.State.{hosts_of};
ghost use Rattle.ejector.specs.UsableHosts.{is_usable};
ghost use Rattle.proxy_history.specs.Setting.{Setting, max_waiting};
ghost use Rattle.proxy_history.specs.History.{accepted_count, epoch};
ghost use Rattle.proxy_history.specs.Part.{is_of};
ghost use Rattle.proxy_history.specs.Arrival.{parts_placed, usable_flags, with_host, hostless, before_it, proxy_busy};
ghost use Rattle.test_reference.specs.Scan.{history_of, part_of, parts_of, past_of_scan, past_seen, value_at_once};

use crate::part::{AtOnce, Part};
use crate::pipe::{is_of, waiting};
use crate::replay::{Past, Replay};
use crate::scan::{Turn, Wanted, times};
use ejector::Ejector;
use ketama::{Ring, point_of_key};
use limits::{MAX_HOSTS, MAX_WAITING};
use splitter::{PartPlan, PartPlans};
use std::alloc::{AllocError, Global};

#[derive(Clone, Copy)]
pub(crate) struct Keys<'a> {
    pub ring: &'a Ring,
    // Whether a key with a tag is placed by the tag alone.
    pub tags: bool,
}

// Keys, where only these hosts are usable.
#[derive(Clone, Copy)]
struct Owners<'a> {
    ring: &'a Ring,
    tags: bool,
    usable: &'a [bool],
}

#[derive(Clone, Copy)]
struct CommandPlace {
    conn: u64,
    command: u64,
}

pub(crate) fn placed_parts(
    alloc: Global,
    keys: &Keys<'_>,
    past: &Past<'_>,
    conn: u64,
    list: &PartPlans,
) -> Result<Vec<Part>, AllocError>
    requires hosts { keys.now.ring.now.hosts ≡ past.now.replay.now.ejector.rules.hosts }
    requires tags { keys.now.tags ≡ past.now.replay.now.ejector.rules.settings.tags }
    ensures { IfOk result (λ parts. (S : Setting) (marks : List Mark) → S.ring ≡ keys.now.ring.now
        → S.rules ≡ past.now.replay.now.ejector.rules
        → past.now.replay.now.ejector.state ≡ state S.rules S.opening marks
        → parts_of parts.items
        ≡ parts_placed S (past_seen past.now marks) conn
        (accepted_count conn (history_of past.now.steps.now)) [] list.now) }
{
    let Keys { ring, tags } = *keys;
    let mut hosts = [false; MAX_HOSTS];
    let usable = &mut hosts[..ring.hosts()];
    find_usable(&past.replay.ejector, usable);
    place_all(alloc, &Owners { ring, tags, usable }, past, conn, list)
}

fn find_usable(ejector: &Ejector, usable: &mut [bool])
    requires { length usable.old ≡ ejector.now.rules.hosts }
    ensures { usable.new ≡ map (is_usable ejector.now.rules ejector.now.state)
        (hosts_of ejector.now.rules) }
{
    for host in 0..usable.len() {
        usable[host] = ejector.usable(host);
    }
}

fn place_all(
    alloc: Global,
    owners: &Owners<'_>,
    past: &Past<'_>,
    conn: u64,
    list: &PartPlans,
) -> Result<Vec<Part>, AllocError>
    requires { length owners.now.usable.now ≡ owners.now.ring.now.hosts }
    ensures { IfOk result (λ parts. (S : Setting) (marks : List Mark) → S.ring ≡ owners.now.ring.now
        → S.rules.settings.tags ≡ owners.now.tags
        → usable_flags S (past_seen past.now marks) ≡ owners.now.usable.now
        → parts_of parts.items
        ≡ parts_placed S (past_seen past.now marks) conn
        (accepted_count conn (history_of past.now.steps.now)) [] list.now) }
{
    let Owners { ring, tags, usable } = *owners;
    let command = times(past.steps, Wanted::Arrival(conn));
    let at = CommandPlace { conn, command };
    let mut placed = Vec::new(alloc);
    for plan in &list.0 {
        let host = ring.owner(point_of_key(plan.key.as_slice(), tags), usable);
        let part = placed_part(past, &placed, at, host, plan)?;
        placed.push(part)?;
    }
    Ok(placed)
}

fn placed_part(
    past: &Past<'_>,
    placed: &[Part],
    at: CommandPlace,
    host: Option<usize>,
    plan: &PartPlan,
) -> Result<Part, AllocError>
    ensures { IfOk result (λ part. part_of part
        ≡ with_host (past_seen past.now []) (parts_of placed.now) host
        (hostless at.conn at.command (length placed.now) plan.now)) }
{
    let text = plan.text.clone()?;
    let (epoch, local) = match host {
        None => (0, Some(AtOnce::NoHost)),
        Some(host) => at_host(past.steps, past.replay, placed, host),
    };
    Ok(Part {
        conn: at.conn,
        command: at.command,
        number: placed.len() as u64,
        text,
        host,
        epoch,
        local,
    })
}

// The host's epoch. `Busy`: as many parts as may wait for it already do.
fn at_host(steps: &[Turn], replay: &Replay, placed: &[Part], host: usize) -> (u64, Option<AtOnce>)
    ensures epoch { result.0 ≡ epoch host (history_of steps.now) }
    ensures local { option_map value_at_once result.1
        ≡ (if nat_lt
        (before_it host (past_of_scan steps.now [] replay.now) (parts_of placed.now)) max_waiting
        then None else Some proxy_busy) }
{
    let epoch = times(steps, Wanted::Fault(host));
    let before = waiting(steps, replay, host).saturating_add(count_of(placed, host, epoch));
    if before < MAX_WAITING as u64 {
        (epoch, None)
    } else {
        (epoch, Some(AtOnce::Busy))
    }
}

fn count_of(parts: &[Part], host: usize, epoch: u64) -> u64
    ensures { result ≡ length (filter (is_of host epoch) (parts_of parts.now)) }
{
    let mut count = 0;
    for part in parts {
        if is_of(part, host, epoch) {
            count += 1;
        }
    }
    count
}
