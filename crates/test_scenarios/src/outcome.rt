use crate::answers::{answer_text, refusal_text};
use crate::proxy::Proxy;
use anyhow::Result;
use proxy_core::{Answer, Event, Refusal, Step};
use std::alloc::Global;
use test_rows::again;
use test_rows::shown::shown;

/// Takes an event, again if it found no memory, and returns the answer or the refusal in words, or that steps are wrong.
pub(crate) fn outcome<P: Proxy>(
    alloc: Global,
    proxy: &mut P,
    pass: u64,
    event: Event,
) -> Result<String> {
    let before = proxy.steps();
    let turn = turned(proxy, pass, event);
    let text = again!(told(alloc, proxy, pass, before, &turn));
    drop(turn);
    text
}

fn turned<P: Proxy>(proxy: &mut P, pass: u64, event: Event) -> Result<Option<Answer>, Refusal> {
    match proxy.turn(pass, event) {
        Err((Refusal::NoMemory, event)) => without_event(proxy.turn(pass, event)),
        turn => without_event(turn),
    }
}

fn without_event(
    turn: Result<Option<Answer>, (Refusal, Event)>,
) -> Result<Option<Answer>, Refusal> {
    match turn {
        Ok(answer) => Ok(answer),
        Err((cause, event)) => {
            drop(event);
            Err(cause)
        }
    }
}

fn told<P: Proxy>(
    alloc: Global,
    proxy: &P,
    pass: u64,
    before: usize,
    turn: &Result<Option<Answer>, Refusal>,
) -> Result<String> {
    let step = proxy.step(before);
    let mut text = turn_text(alloc, turn, step)?;
    let added = proxy.steps().saturating_sub(before);
    text.push_str(fault(turn, step, added, pass))?;
    Ok(text)
}

fn turn_text(
    alloc: Global,
    turn: &Result<Option<Answer>, Refusal>,
    step: Option<&Step<Event, Answer>>,
) -> Result<String> {
    match (turn, step) {
        (Err(cause), _) => refusal_text(alloc, *cause),
        (Ok(Some(answer)), _) => answer_text(alloc, answer),
        (Ok(None), Some(step)) => answer_text(alloc, &step.answer),
        (Ok(None), None) => shown(alloc, "answered"),
    }
}

fn fault(
    turn: &Result<Option<Answer>, Refusal>,
    step: Option<&Step<Event, Answer>>,
    added: usize,
    pass: u64,
) -> &'static str {
    match (turn, step) {
        (Err(_), None) => "",
        (Err(_), Some(_)) => ", but a step was added",
        (Ok(_), None) => ", but no step was added",
        (Ok(answer), Some(step)) => {
            let is_told = answer.is_none() || answer.as_ref() == Some(&step.answer);
            if is_told && added == 1 && step.pass == pass {
                ""
            } else {
                ", but its step is another"
            }
        }
    }
}
