ghost use Rattle.std.specs.Prelude.{◌≡◌};

/// The kind of a step.
#[derive(Clone, Copy, Debug, PartialEq, Eq)]
pub enum StepKind {
    /// A connection was opened.
    Opened,
    /// A command was accepted.
    Accepted {
        /// Its parts that wait for hosts.
        parts: u64,
    },
    /// A part was sent to its host.
    Sent,
    /// A host's answer was matched to its part.
    Matched,
    /// A host's link was lost.
    Lost {
        /// The parts that waited for its replies.
        parts: u64,
    },
    /// A reply was handed out to its client.
    Handed,
    /// A connection was finished: no further command comes.
    Finished,
    /// A connection was closed.
    Closed,
    /// Outlier detection made a sweep.
    Swept,
}

impl StepKind {
    ghost use Rattle.journal_budget.specs.Budget.{capped};
    ghost use Rattle.journal_budget.specs.Steps.{cost_of, freed_of};

    /// The steps that it costs: itself and those that it owes; none if it was owed itself. The greatest `u64` stands
    /// for any more.
    #[inline(always)]
    pub fn cost(self) -> u64
        ensures { result ≡ capped (cost_of self) }
    {
        match self {
            StepKind::Opened => 4,
            StepKind::Accepted { parts } => parts.saturating_mul(2).saturating_add(2),
            StepKind::Lost { parts: 0 } => 1,
            StepKind::Swept => 1,
            _ => 0,
        }
    }

    /// The owed steps that it replaces, beside itself.
    #[inline(always)]
    pub fn freed(self) -> u64
        ensures { result ≡ freed_of self }
    {
        match self {
            StepKind::Lost { parts } => parts.saturating_sub(1),
            _ => 0,
        }
    }
}
