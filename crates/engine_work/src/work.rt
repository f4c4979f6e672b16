ghost use Rattle.std.specs.Prelude.{Result, ⊤};
ghost use Rattle.engine_work.specs.declared.error.EngineError.{EngineError};

use crate::error::EngineError;
use std::sync::Wait;

/// The work of a thread, from its start to its end.
pub trait Work<Rt: Wait> {
    /// Whether it may be run. After a run this needn't hold again.
    ghost is_fresh: { Self → Type 0 };

    /// The answers that its run may give.
    ghost may_answer: { Self → Result ⊤ EngineError → Type 0 };

    /// Runs it to its end.
    fn run(&mut self, rt: &Rt) -> Result<(), EngineError>
        requires { is_fresh self.old }
        ensures { may_answer self.old result };
}
