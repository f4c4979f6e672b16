ghost use Rattle.std.specs.Prelude.{◌≡◌, List, [], ◌∷◌, ◌++◌, IfOk, IfErr};
ghost use Rattle.journal_core.specs.declared.step.Step.{Step as StepOf};
ghost use Rattle.journal_core.specs.Journal.{step_by};

/// A state that changes in turns and keeps a journal of them.
///
/// An answered turn adds exactly its own step. A refused one leaves the journal unchanged, and hands the event
/// back.
pub trait Recorded {
    /// The event of a turn.
    type Event;

    /// The answer of a turn.
    type Answer;

    /// Why the state refuses a turn.
    type Refusal;

    /// What the state was made with.
    type Setting;

    /// The result of a look at the state.
    type Sight;

    /// The steps so far, the oldest first.
    ghost journal: { Self → List (StepOf Self.Event Self.Answer) };

    /// What the state was made with.
    ghost setting: { Self → Self.Setting };

    /// The journals that a setting allows.
    ghost legal: { Self.Setting → List (StepOf Self.Event Self.Answer) → Type 0 };

    /// When a refusal of an event is due, after the journal so far.
    ghost cause: { Self.Setting → Self.Refusal → Self.Event → List (StepOf Self.Event Self.Answer)
        → Type 0 };

    /// The sight of a state with this setting and this journal.
    ghost sight_of: { Self.Setting → List (StepOf Self.Event Self.Answer) → Self.Sight };

    /// Looks at the state. It takes no memory.
    fn sight(&self) -> Self::Sight
        ensures { result ≡ sight_of (setting self.now) (journal self.now) };

    /// One turn of the pass with this number.
    fn turn(
        &mut self,
        pass: u64,
        event: Self::Event,
    ) -> Result<Self::Answer, (Self::Refusal, Self::Event)>
        ensures setting { setting self.new ≡ setting self.old }
        ensures answered { IfOk result
            (λ answer. journal self.new ≡ journal self.old ++ step_by pass event answer ∷ []) }
        ensures legal { IfOk result (λ answer. legal (setting self.old) (journal self.old)
            → legal (setting self.old) (journal self.new)) }
        ensures refused { IfErr result (λ refused. (journal self.new ≡ journal self.old)
            × (refused.1 ≡ event)
            × cause (setting self.old) refused.0 event (journal self.old)) };

    /// The empty journal is legal.
    ghost legal_at_first: { (c : Self.Setting) → legal c [] };

    /// Each beginning of a legal journal is legal.
    ghost legal_before: { (c : Self.Setting) (log more : List (StepOf Self.Event Self.Answer))
        → legal c (log ++ more) → legal c log };
}
