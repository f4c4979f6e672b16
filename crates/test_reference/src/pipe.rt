//! The parts that wait for a host, were sent to it, and fly.
ghost use Rattle.std.specs.Prelude.{◌≡◌, ◌<◌, ◌^◌, [], List, Some, None, length};
ghost use Rattle.std.specs.List.{list_any};
ghost use Rattle.std.specs.Option.{option_map, option_copied};
ghost use Rattle.proxy_history.specs.History.{Step};
ghost use Rattle.proxy_history.specs.Part.{is_of, is_same};
ghost use Rattle.proxy_history.specs.Waiting.{waits, waiting_parts, sent_to, flying_count};
ghost use Rattle.test_reference.specs.Scan.{part_of, parts_of, first_of, place_in, past_of_scan};

use crate::part::Part;
use crate::replay::Replay;
use crate::scan::{Turn, Wanted, has, replies, times};

pub(crate) fn is_same(part: &Part, other: &Part) -> bool
    ensures { result ≡ is_same (part_of part.now) (part_of other.now) }
{
    part.conn == other.conn && part.command == other.command && part.number == other.number
}

pub(crate) fn is_of(part: &Part, host: usize, epoch: u64) -> bool
    ensures { result ≡ is_of host epoch (part_of part.now) }
{
    part.host == Some(host) && part.epoch == epoch && part.local.is_none()
}

fn was_sent(replay: &Replay, part: &Part) -> bool
    ensures { result ≡ list_any (is_same (part_of part.now)) (parts_of replay.now.sent.items) }
{
    for sent in &replay.sent {
        if is_same(part, sent) {
            return true;
        }
    }
    false
}

pub(crate) fn waits(steps: &[Turn], replay: &Replay, host: usize, part: &Part) -> bool
    ensures { result ≡ waits host (past_of_scan steps.now [] replay.now) (part_of part.now) }
{
    is_of(part, host, times(steps, Wanted::Fault(host)))
        && !was_sent(replay, part)
        && !has(steps, Wanted::Closing(part.conn))
}

pub(crate) fn waiting(steps: &[Turn], replay: &Replay, host: usize) -> u64
    ensures value { result ≡ length (waiting_parts host (past_of_scan steps.now [] replay.now)) }
    ensures few { result < 2 ^ 63 }
{
    let mut count = 0;
    for part in &replay.parts {
        if waits(steps, replay, host, part) {
            count += 1;
        }
    }
    count
}

pub(crate) fn first_waiting<'a>(steps: &[Turn], replay: &'a Replay, host: usize) -> Option<&'a Part>
    ensures { option_map part_of (option_copied result) ≡ first_of
        (waiting_parts host (past_of_scan steps.now [] replay.now)) }
{
    for part in &replay.parts {
        if waits(steps, replay, host, part) {
            return Some(part);
        }
    }
    None
}

pub(crate) fn sent(replay: &Replay, host: usize, epoch: u64) -> u64
    ensures value { (steps : List Step)
        → result ≡ length (sent_to host epoch (past_of_scan steps [] replay.now)) }
    ensures few { result < 2 ^ 63 }
{
    let mut count = 0;
    for part in &replay.sent {
        if is_of(part, host, epoch) {
            count += 1;
        }
    }
    count
}

/// The parts sent in its present epoch without a reply.
pub(crate) fn flying(steps: &[Turn], replay: &Replay, host: usize) -> u64
    ensures value { result ≡ flying_count host (past_of_scan steps.now [] replay.now) }
    ensures few { result < 2 ^ 63 }
{
    let epoch = times(steps, Wanted::Fault(host));
    sent(replay, host, epoch).saturating_sub(replies(steps, host, epoch))
}

/// The part's position among those sent to the host in the part's epoch.
pub(crate) fn place(replay: &Replay, host: usize, part: &Part) -> Option<u64>
    ensures { (steps : List Step)
        → result ≡ place_in (part_of part.now)
        (sent_to host part.now.epoch (past_of_scan steps [] replay.now)) }
{
    let mut before = 0;
    for other in &replay.sent {
        if is_of(other, host, part.epoch) {
            if is_same(part, other) {
                return Some(before);
            }
            before += 1;
        }
    }
    None
}
