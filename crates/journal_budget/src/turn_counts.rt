ghost use Rattle.std.specs.Prelude.{◌≡◌};
ghost use Rattle.journal_budget.specs.Counts.{counted};

use crate::reply_sizes::HandedReplies;
use crate::step_kind::StepKind;

/// What happened since the counts were last taken.
#[derive(Clone, Copy, Drop)]
pub struct TurnCounts {
    /// Commands accepted.
    pub accepted: u64,
    /// Replies handed out.
    pub handed: HandedReplies,
    /// Parts queued for hosts.
    pub parts: u64,
    /// Parts sent to hosts.
    pub sent: u64,
    /// Hosts' replies taken.
    pub matched: u64,
    /// Hosts' faults recorded.
    pub faults: u64,
    /// Parts lost by them.
    pub lost: u64,
}

impl TurnCounts {
    /// Nothing has happened.
    pub const NONE: TurnCounts = TurnCounts {
        accepted: 0,
        handed: HandedReplies::NONE,
        parts: 0,
        sent: 0,
        matched: 0,
        faults: 0,
        lost: 0,
    };

    #[inline(always)]
    pub(crate) fn note(&mut self, kind: StepKind, handed: u64)
        ensures { self.new ≡ counted kind handed self.old }
    {
        match kind {
            StepKind::Accepted { parts } => {
                self.accepted = self.accepted.saturating_add(1);
                self.parts = self.parts.saturating_add(parts);
            }
            StepKind::Handed => self.handed.add(handed),
            StepKind::Sent => self.sent = self.sent.saturating_add(1),
            StepKind::Matched => self.matched = self.matched.saturating_add(1),
            StepKind::Lost { parts } => {
                self.faults = self.faults.saturating_add(1);
                self.lost = self.lost.saturating_add(parts);
            }
            _ => {}
        }
    }
}
