ghost use Rattle.proxy_connections.specs.Stages.{TellsError};

use engine_work::{Denied, EngineError};
use proxy_core::Refusal;
use proxy_exit_status::Ending;

/// Why a step of a connection failed.
#[derive(Clone, Copy, Drop)]
pub enum StepError {
    /// There was no memory; the step is made again.
    Memory,
    /// The journal has no room for it.
    Full,
    /// The server ends.
    Ends(Ending),
    /// The device failed, or the turn has no meaning: the connection or link ends alone.
    EndsOne,
}

impl StepError {
    /// Whether the connection or link ends alone.
    pub fn ends_one(self) -> bool {
        matches!(self, StepError::EndsOne)
    }
}

impl From<EngineError> for StepError {
    ghost from_gives = { λ error told. TellsError error told };

    fn from(error: EngineError) -> StepError {
        match error {
            EngineError::NoMemory | EngineError::TurnRefused(Denied::By(Refusal::NoMemory)) => {
                StepError::Memory
            }
            EngineError::TurnRefused(Denied::By(Refusal::JournalFull)) => StepError::Full,
            EngineError::TurnRefused(Denied::Spent) => StepError::Ends(Ending::Spent),
            EngineError::ReadFailed
            | EngineError::WriteFailed
            | EngineError::TurnRefused(Denied::Astray)
            | EngineError::TurnRefused(
                Denied::By(
                    Refusal::NoSuchConnection
                    | Refusal::Crowded
                    | Refusal::NothingWaiting
                    | Refusal::Stale { .. }
                    | Refusal::Unasked
                    | Refusal::NotReady { .. }
                    | Refusal::Finishing
                    | Refusal::TooManyConnections
                    | Refusal::BadSettings { .. }
                    | Refusal::NoSuchHost
                    | Refusal::NotPlain,
                ),
            ) => StepError::EndsOne,
        }
    }
}
