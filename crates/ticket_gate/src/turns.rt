ghost use Rattle.std.specs.Prelude.{List, IfOk, IfErr};
ghost use Rattle.journal_core.specs.declared.step.Step.{Step as StepOf};
ghost use Rattle.ticket_gate.specs.Journal.{AddsTurn};
ghost use Rattle.ticket_gate.specs.Turns.{KeepsPlace, RefusesTurn, TurnFacts};

use crate::refusal::TurnRefusal;
use std::sync::Wait;

/// Turns of one pass: [`Seated`](crate::Seated) makes them at a gate, [`Alone`](crate::Alone) on a state of its
/// own.
pub trait Turns {
    /// The event of a turn.
    type Event;

    /// The answer of a turn.
    type Answer;

    /// Why the state refuses a turn.
    type Refusal;

    /// What the state was made with.
    type Setting;

    /// The place of the turns.
    type Home;

    /// The place, the pass, the setting, and the journal as far as the pass has seen it.
    ghost facts: { Self → TurnFacts Self.Home Self.Setting Self.Event Self.Answer };

    /// The journals that a setting allows.
    ghost legal: { Self.Setting → List (StepOf Self.Event Self.Answer) → Type 0 };

    /// When a refusal of an event by the state is due, after the journal so far.
    ghost cause: { Self.Setting → Self.Refusal → Self.Event → List (StepOf Self.Event Self.Answer)
        → Type 0 };

    /// What holds once no ticket is left.
    ghost spent: { Self → Type 0 };

    /// Makes one turn, and waits for it while others hold or await the state.
    ///
    /// Answered: the pass now sees a legal journal, which ends with its step. Refused `Spent` (1202): the pass has
    /// seen nothing new. Refused `State`: the state's cause holds. It is never `Busy`.
    fn turn<R: Wait>(
        &mut self,
        rt: &R,
        event: Self::Event,
    ) -> Result<Self::Answer, TurnRefusal<Self::Refusal, Self::Event>>
        ensures same { KeepsPlace (facts self.old) (facts self.new) }
        ensures answered { let old = facts self.old in IfOk result (λ answer.
            AddsTurn (legal old.setting) old.pass old.seen event answer (facts self.new).seen) }
        ensures refused { let old = facts self.old in IfErr result (RefusesTurn
            (cause old.setting) (spent self.new) old.pass old.seen event (facts self.new).seen) };
}
