ghost use Rattle.std.specs.Prelude.{◌≡◌};
ghost use Rattle.journal_budget.specs.Counts.{no_bytes, part_bytes, reply_bytes, plus, unless_large, with_bytes};

use crate::payload::Payload;
use crate::reply_sizes::LARGE_REPLY;

// Payload is averaged over replies, so that failed parts don't lower the average.
const STEPS_A_REPLY: u64 = 4;

/// Payload bytes of some steps.
#[derive(Clone, Copy, Drop)]
pub struct PayloadCounts {
    /// Bytes kept in all.
    pub kept: u64,
    /// Bytes of replies that came, and of the proxy's own answers.
    pub came: u64,
    /// Bytes handed out to clients.
    pub handed: u64,
    /// Bytes that were due once commands had been accepted: texts of parts, and replies twice. Large ones aren't counted.
    pub due: u64,
    /// Steps that the average is taken over.
    pub steps: u64,
}

// Large replies are charged, and a large text has its own room as its command.
#[inline(always)]
fn unless_large(bytes: u64) -> u64
    ensures { result ≡ unless_large bytes }
{
    if bytes < LARGE_REPLY { bytes } else { 0 }
}

impl PayloadCounts {
    /// Those of a step without payload.
    pub const NONE: PayloadCounts = PayloadCounts {
        kept: 0,
        came: 0,
        handed: 0,
        due: 0,
        steps: 0,
    };

    /// Those of a command: `kept` bytes, and `came` of the proxy's own answer.
    #[inline(always)]
    pub fn of_command(kept: u64, came: u64) -> PayloadCounts
        ensures { result ≡ record no_bytes { kept = kept; came = came } }
    {
        PayloadCounts {
            kept,
            came,
            ..PayloadCounts::NONE
        }
    }

    /// Those of a part's text.
    #[inline(always)]
    pub fn of_part(kept: u64) -> PayloadCounts
        ensures { result ≡ part_bytes kept }
    {
        PayloadCounts {
            kept,
            due: unless_large(kept),
            ..PayloadCounts::NONE
        }
    }

    /// Those of a host's reply.
    #[inline(always)]
    pub fn of_reply(came: u64) -> PayloadCounts
        ensures { result ≡ reply_bytes came }
    {
        PayloadCounts {
            kept: came,
            came,
            due: 2 * unless_large(came),
            steps: STEPS_A_REPLY,
            ..PayloadCounts::NONE
        }
    }

    /// Those of a text that is handed out.
    #[inline(always)]
    pub fn of_text(handed: u64) -> PayloadCounts
        ensures { result ≡ record no_bytes { kept = handed; handed = handed } }
    {
        PayloadCounts {
            kept: handed,
            handed,
            ..PayloadCounts::NONE
        }
    }

    #[inline(always)]
    pub(crate) fn add(&mut self, other: PayloadCounts)
        ensures { self.new ≡ plus self.old other }
    {
        self.kept = self.kept.saturating_add(other.kept);
        self.came = self.came.saturating_add(other.came);
        self.handed = self.handed.saturating_add(other.handed);
        self.due = self.due.saturating_add(other.due);
        self.steps = self.steps.saturating_add(other.steps);
    }

    #[inline(always)]
    pub(crate) fn add_to(&self, payload: &mut Payload)
        ensures { payload.new ≡ with_bytes self.now payload.old }
    {
        payload.note(*self);
    }
}
