//! The payload bytes of a history, and whether it has room for one more step.
ghost use Rattle.std.specs.Prelude.{◌≡◌};
ghost use Rattle.resp_core.specs.Stream.{told_offset};
ghost use Rattle.proxy_history.specs.Payload.{length_of_request, length_of_event, length_of_answer, payload_of, payload, has_room};
ghost use Rattle.test_reference.specs.Scan.{history_of};

use crate::scan::Turn;
use limits::{MAX_BYTES, MAX_STEPS};
use proxy_history::{Answer, Event};
use splitter::Request;

pub(crate) fn payload(steps: &[Turn]) -> u64
    ensures { result ≡ told_offset (payload (history_of steps.now)) }
{
    let mut total: u64 = 0;
    for step in steps {
        total = total.saturating_add(payload_of(&step.event, &step.answer));
    }
    total
}

pub(crate) fn payload_of(event: &Event, answer: &Answer) -> u64
    ensures { result ≡ told_offset (payload_of event.now answer.now) }
{
    length_of_event(event).saturating_add(length_of_answer(answer))
}

/// At most 262,144 steps and 67,108,864 payload bytes are kept.
pub(crate) fn has_room(steps: &[Turn], event: &Event, answer: &Answer) -> bool
    ensures { result ≡ has_room (history_of steps.now) event.now answer.now }
{
    steps.len() < MAX_STEPS && payload(steps).saturating_add(payload_of(event, answer)) <= MAX_BYTES
}

fn length_of_event(event: &Event) -> u64
    ensures { result ≡ told_offset (length_of_event event.now) }
{
    match event {
        Event::Arrived { request, .. } => length_of_request(request),
        Event::Answered { value, .. } => value.text_len(),
        _ => 0,
    }
}

fn length_of_request(request: &Request) -> u64
    ensures { result ≡ told_offset (length_of_request request.now) }
{
    match request {
        Request::Read(value) => value.text_len(),
        Request::Spelled(command) => command.text().len() as u64,
        Request::Broken => 0,
    }
}

fn length_of_answer(answer: &Answer) -> u64
    ensures { result ≡ length_of_answer answer.now }
{
    match answer {
        Answer::Sent { text, .. } | Answer::Bytes { text } => text.len() as u64,
        _ => 0,
    }
}
