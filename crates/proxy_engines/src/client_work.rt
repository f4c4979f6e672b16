ghost use Rattle.std.specs.Prelude.{◌≡◌, ◌⊎◌, Bool, true, None, IfErr, OnOk, ⊤};
ghost use Rattle.proxy_engines.specs.Client.{Goes, HasNoFault};
ghost use Rattle.proxy_engines.specs.Moves.{AsTold};
ghost use Rattle.proxy_engines.specs.Turns.{KeepsTurns, own_history};
ghost use Rattle.proxy_engines.specs.declared.client.Stage.{Stage};
ghost use Rattle.engine_work.specs.declared.error.EngineError.{EngineError};

use crate::client::{ClientEngine, Progress};
use engine_work::{EngineError, Work};
use proxy_core::CoreTurns;
use proxy_devices::{ReadTally, WriteTally};
use std::sync::Wait;
use std::thread;

/// A client's engine with its turns: it steps until the connection is closed.
#[derive(Drop)]
pub struct ClientWork<T: CoreTurns, R: ReadTally, W: WriteTally> {
    /// The engine.
    pub engine: ClientEngine<R, W>,
    /// Its turns.
    pub turns: T,
}

impl<Rt: Wait, T: CoreTurns, R: ReadTally, W: WriteTally> Work<Rt> for ClientWork<T, R, W> {
    ghost is_fresh = { λ work. ⊤ };

    ghost may_answer = { λ work answer. ⊤ };

    /// Steps until the connection is closed or a step is refused. After a step without a move it yields to other
    /// threads.
    ///
    /// Refused as the step was; after 1401 and 1404 another run continues at the same place.
    fn run(&mut self, rt: &Rt) -> Result<(), EngineError>
        ensures turns { KeepsTurns (T.facts self.old.turns) (T.facts self.new.turns) }
        ensures goes { AsTold (Goes self.old.engine self.new.engine
            (own_history (T.facts self.old.turns))
            (own_history (T.facts self.new.turns))) None }
        ensures closed { OnOk result ((is_cut : Bool)
            × (self.new.engine.stage ≡ Stage.Closed is_cut)) }
        ensures failed { IfErr result (λ e. (e ≡ EngineError.ReadFailed)
            ⊎ (e ≡ EngineError.WriteFailed) → self.new.engine.stage ≡ Stage.Closed true) }
        ensures unfailed { OnOk result (HasNoFault self.old.engine self.new.engine) }
    {
        for _ in rt.forever() {
            match self.engine.step(rt, &mut self.turns)? {
                Progress::Ended | Progress::Cut => return Ok(()),
                Progress::Idle => thread::yield_now(),
                Progress::Moved | Progress::NeedsLink => {}
            }
        }
        unreachable!()
    }
}
