ghost use Rattle.std.specs.Prelude.{◌≡◌, []};
ghost use Rattle.ticket_gate.specs.Journal.{steps_of};
ghost use Rattle.ticket_gate.specs.Turns.{AloneFacts, IsUsedBy, alone_with};

use crate::recorded::Recorded;
use crate::refusal::TurnRefusal;
use crate::turns::Turns;
use std::marker::Model;
use std::sync::Wait;

/// A state that one pass has for itself.
#[derive(Drop)]
pub struct Alone<S: Recorded> {
    state: S,
    pass: u64,
}

impl<S: Recorded> Model for Alone<S> {
    ghost Value = { AloneFacts S };

    ghost view = { λ a. alone_with a.state a.pass };

    ghost invariant = { λ a. IsUsedBy S.journal S.setting S.legal a.state a.pass };
}

impl<S: Recorded> Alone<S> {
    /// Takes a state with an empty journal for this pass.
    pub fn new(state: S, pass: u64) -> Alone<S>
        requires { S.journal state ≡ [] }
        ensures { result ≡ alone_with state pass }
    {
        Alone { state, pass }
    }

    /// The state.
    pub fn state(&self) -> &S
        ensures { result.now ≡ self.now.state }
    {
        &self.state
    }

    /// Returns the state, of which all steps are of this pass.
    pub fn into_state(self) -> S
        ensures state { result ≡ self.state }
        ensures is_legal { S.legal (S.setting result) (S.journal result) }
        ensures own { steps_of self.pass (S.journal result) ≡ S.journal result }
    {
        let Alone { state, pass: _ } = self;
        state
    }
}

/// Only the state refuses `turn`.
impl<S: Recorded> Turns for Alone<S> {
    type Event = S::Event;

    type Answer = S::Answer;

    type Refusal = S::Refusal;

    type Setting = S::Setting;

    type Home = ();

    ghost facts = { λ a. record {
      home = tt;
      pass = a.pass;
      setting = S.setting a.state;
      seen = S.journal a.state;
    } };

    ghost legal = { S.legal };

    ghost cause = { S.cause };

    ghost spent = { λ a. ⊥ };

    // Inlined, which saves a move of event and answer.
    #[inline(always)]
    fn turn<R: Wait>(
        &mut self,
        _rt: &R,
        event: S::Event,
    ) -> Result<S::Answer, TurnRefusal<S::Refusal, S::Event>> {
        match self.state.turn(self.pass, event) {
            Ok(answer) => Ok(answer),
            Err((cause, event)) => Err(TurnRefusal::State { cause, event }),
        }
    }
}
