ghost use Rattle.std.specs.Prelude.{◌≡◌, ◌++◌, OnOk, OnErr};
ghost use Rattle.proxy_record.specs.Lines.{head_text, IsStepLine};

use crate::answer_text::{push_answer, value_in};
use crate::event_text::push_event;
use crate::payloads::Payloads;
use crate::pieces::{append, push_all, push_moment, push_piece};
use itoa::Buffer;
use journal_core::Step;
use proxy_history::{Answer, Event};
use std::alloc::{AllocError, Global};

/// What a step's line tells beside the step.
#[derive(Clone, Copy)]
pub struct Beside {
    /// The step's number in its journal, from 0.
    pub number: u64,
    /// The moment, if it is known.
    pub at: Option<u64>,
    /// Whether it is a host's answer to a part of DEL, EXISTS, TOUCH or UNLINK, or the answer to such a command. Then an
    /// integer stands in the clear.
    pub is_sum: bool,
    /// Whether it closes a connection whose socket failed or was broken off.
    pub is_cut: bool,
}

/// Appends a step's line. Refused only for want of memory: nothing is appended.
pub fn put_step(
    alloc: Global,
    step: &Step<Event, Answer>,
    payloads: &Payloads,
    beside: Beside,
    out: &mut Vec<u8>,
) -> Result<(), AllocError>
    ensures ok { OnOk result (IsStepLine payloads.now beside step.now out.old.items out.new.items) }
    ensures err { OnErr result (out.new.items ≡ out.old.items) }
{
    let mut line = Vec::new(alloc);
    push_step(alloc, step, payloads, beside, &mut line)?;
    append(out, &line)
}

fn push_step(
    alloc: Global,
    step: &Step<Event, Answer>,
    payloads: &Payloads,
    beside: Beside,
    line: &mut Vec<u8>,
) -> Result<(), AllocError>
    ensures { OnOk result
        (IsStepLine payloads.now beside step.now line.old.items line.new.items) }
{
    let found = value_in(alloc, &step.answer)?;
    push_head(line, beside, step.pass)?;
    push_event(alloc, &step.event, payloads, beside, line)?;
    push_piece(line, ", \"answer\": {")?;
    push_answer(&step.answer, &found, payloads, beside.is_sum, line)?;
    push_piece(line, "}}\n")
}

fn push_head(line: &mut Vec<u8>, beside: Beside, pass: u64) -> Result<(), AllocError>
    ensures { OnOk result (line.new.items
        ≡ line.old.items ++ head_text beside.number beside.at pass) }
{
    let mut digits = Buffer::new();
    push_all(
        line,
        &["{\"n\": ", digits.format(beside.number), ", \"at\": "],
    )?;
    push_moment(line, beside.at)?;
    push_all(
        line,
        &[", \"pass\": ", Buffer::new().format(pass), ", \"event\": "],
    )
}
