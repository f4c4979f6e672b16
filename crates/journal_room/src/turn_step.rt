ghost use Rattle.std.specs.Prelude.{◌≡◌};
ghost use Rattle.journal_room.specs.TurnStep.{brought_by, own_bytes, noted};

use journal_budget::{Account, PayloadCounts, StepKind};
use proxy_core::{Answer, Event, Local};

// The most bytes of PONG and OK.
const MAX_OWN_WORD: u64 = 8;

// The most bytes of an error for a whole command.
const MAX_OWN_ERROR: u64 = 96;

// 0 if the answer isn't the proxy's own.
fn own_bytes(local: &Option<Local>, command: u64) -> u64
    ensures { result ≡ own_bytes local.now command }
{
    let Some(local) = local else {
        return 0;
    };
    match local {
        Local::Echoed => command,
        Local::Pong | Local::Bye => MAX_OWN_WORD,
        Local::Invalid | Local::Unsupported | Local::WrongNumber | Local::Broken => MAX_OWN_ERROR,
    }
}

#[inline(always)]
pub(crate) fn bytes_of(event: &Event) -> u64
    ensures { result ≡ brought_by event.now }
{
    match event {
        Event::Arrived { request, .. } => request.text_len(),
        Event::Answered { value, .. } => value.text_len(),
        _ => 0,
    }
}

/// A part that failed at once is neither sent nor answered.
#[inline(always)]
pub(crate) fn note_turn(account: &mut Account, brought: u64, answer: &Answer)
    ensures { account.new ≡ noted brought answer.now account.old }
{
    match answer {
        Answer::Accepted {
            local,
            parts,
            no_host,
            busy,
            ..
        } => {
            let parts = parts.saturating_sub(*no_host).saturating_sub(*busy);
            let bytes = PayloadCounts::of_command(brought, own_bytes(local, brought));
            account.note(StepKind::Accepted { parts }, bytes);
        }
        Answer::Sent { text, .. } => {
            account.note(StepKind::Sent, PayloadCounts::of_part(text.len() as u64));
        }
        Answer::Matched { .. } => {
            account.note(StepKind::Matched, PayloadCounts::of_reply(brought));
        }
        Answer::Bytes { text } => {
            account.note(StepKind::Handed, PayloadCounts::of_text(text.len() as u64));
        }
        Answer::Opened { .. } => account.note(StepKind::Opened, PayloadCounts::NONE),
        Answer::Finishing => account.note(StepKind::Finished, PayloadCounts::NONE),
        Answer::Lost { parts, .. } => {
            account.note(StepKind::Lost { parts: *parts }, PayloadCounts::NONE);
        }
        Answer::Swept { .. } => account.note(StepKind::Swept, PayloadCounts::NONE),
        Answer::Closed => account.note(StepKind::Closed, PayloadCounts::NONE),
    }
}
