//! Counts among the steps of a history, which are a list, the oldest first.
ghost use Rattle.std.specs.Prelude.{◌≡◌, length};
ghost use Rattle.std.specs.Option.{option_map, option_copied};
ghost use Rattle.resp_core.specs.Value.{tree_of};
ghost use Rattle.std.specs.Prelude.{slice_get, min, ◌^◌, ◌-◌};
ghost use Rattle.splitter.specs.Plan.{is_last, plan_of};
ghost use Rattle.resp_core.specs.Command.{command_of};
ghost use Rattle.splitter.specs.Request.{read, request_of};
ghost use Rattle.proxy_history.specs.History.{times, has, requests, request_by, plan_for};
ghost use Rattle.proxy_history.specs.Replies.{replies_from, reply_by};
ghost use Rattle.test_reference.specs.Scan.{is_wanted, is_quit_row, history_of};
ghost use Rattle.list_lemmas.specs.Lists.{list_of};
ghost use Rattle.command_table.specs.Table.{row_named};

use command_table::{Kind, look};
use journal_core::Step;
use proxy_history::{Answer, Event};
use resp_core::{SpelledCommand, Value};
use splitter::Request;

pub(crate) type Turn = Step<Event, Answer>;

#[derive(Clone, Copy)]
pub(crate) enum Wanted {
    Opening,
    AnyClosing,
    Arrival(u64),
    Handing(u64),
    Fault(usize),
    Closing(u64),
    Finishing(u64),
}

pub(crate) fn times(steps: &[Turn], wanted: Wanted) -> u64
    ensures { result ≡ times (is_wanted wanted) (history_of steps.now) }
{
    let mut count = 0;
    for step in steps {
        if is_wanted(wanted, &step.event) {
            count += 1;
        }
    }
    count
}

pub(crate) fn has(steps: &[Turn], wanted: Wanted) -> bool
    ensures { result ≡ has (is_wanted wanted) (history_of steps.now) }
{
    times(steps, wanted) > 0
}

fn is_wanted(wanted: Wanted, event: &Event) -> bool
    ensures { result ≡ is_wanted wanted event.now }
{
    match (wanted, event) {
        (Wanted::Opening, Event::Opened) => true,
        (Wanted::AnyClosing, Event::Closed { .. }) => true,
        (Wanted::Arrival(wanted), Event::Arrived { conn, .. }) => *conn == wanted,
        (Wanted::Handing(wanted), Event::Handed { conn }) => *conn == wanted,
        (Wanted::Fault(wanted), Event::Failed { host, .. }) => *host == wanted,
        (Wanted::Closing(wanted), Event::Closed { conn }) => *conn == wanted,
        (Wanted::Finishing(wanted), Event::Finished { conn }) => *conn == wanted,
        (Wanted::Finishing(wanted), Event::Arrived { conn, request }) => {
            *conn == wanted && is_leaving(request)
        }
        _ => false,
    }
}

// QUIT is a last request, and so are bytes that are no text of a value.
fn is_leaving(request: &Request) -> bool
    ensures { result ≡ is_last (plan_for request.now) }
{
    match request {
        Request::Broken => true,
        Request::Read(value) => match value.words() {
            Some(words) => is_quit(words.word(0).as_slice()),
            None => false,
        },
        Request::Spelled(command) => is_leaving_text(command),
    }
}

fn is_leaving_text(command: &SpelledCommand) -> bool
    ensures { result ≡ is_last (plan_of (read (command_of command.now))) }
{
    // (there is always a first word)
    if command.count() == 0 {
        return false;
    }
    is_quit(command.word(0))
}

fn is_quit(name: &[u8]) -> bool
    ensures { result ≡ is_quit_row (row_named name.now) }
{
    match look(name) {
        Some(entry) => entry.kind == Kind::Quit,
        None => false,
    }
}

pub(crate) fn request_at(steps: &[Turn], conn: u64, index: u64) -> Option<&Request>
    ensures { option_copied result ≡ slice_get (requests conn (history_of steps.now)) index }
{
    let mut before = 0;
    for step in steps {
        if let Some(request) = request_of(&step.event, conn) {
            if before == index {
                return Some(request);
            }
            before += 1;
        }
    }
    None
}

fn request_of(event: &Event, conn: u64) -> Option<&Request>
    ensures { list_of (option_copied result) ≡ request_by conn event.now }
{
    match event {
        Event::Arrived {
            conn: arrived,
            request,
        } if *arrived == conn => Some(request),
        _ => None,
    }
}

pub(crate) fn replies(steps: &[Turn], host: usize, epoch: u64) -> u64
    ensures { result ≡ length (replies_from host epoch (history_of steps.now)) }
{
    let mut count = 0;
    for step in steps {
        if reply_of(&step.event, host, epoch).is_some() {
            count += 1;
        }
    }
    count
}

pub(crate) fn reply_at(steps: &[Turn], host: usize, epoch: u64, place: u64) -> Option<&Value>
    ensures { option_map tree_of (option_copied result) ≡ slice_get
        (replies_from host epoch (history_of steps.now)) place }
{
    let mut before = 0;
    for step in steps {
        if let Some(value) = reply_of(&step.event, host, epoch) {
            if before == place {
                return Some(value);
            }
            before += 1;
        }
    }
    None
}

fn reply_of(event: &Event, host: usize, epoch: u64) -> Option<&Value>
    ensures { list_of (option_map tree_of (option_copied result)) ≡ reply_by host epoch event.now }
{
    match event {
        Event::Answered {
            host: answered,
            epoch: current,
            value,
            ..
        } if *answered == host && *current == epoch => Some(value),
        _ => None,
    }
}
