ghost use Rattle.std.specs.Prelude.{◌≡◌};
ghost use Rattle.proxy_local.specs.Ending.{ending_of, ending_of_refusal};

use proxy_core::Refusal;
use proxy_engines::{Denied, EngineError};
use proxy_exit_status::Ending;

pub(crate) fn ending_of(error: EngineError) -> Ending
    ensures { result ≡ ending_of error }
{
    match error {
        EngineError::NoMemory => Ending::Memory,
        EngineError::ReadFailed | EngineError::WriteFailed => Ending::Socket,
        EngineError::TurnRefused(Denied::Spent) => Ending::Spent,
        EngineError::TurnRefused(Denied::By(refusal)) => ending_of_refusal(refusal),
        EngineError::TurnRefused(Denied::Astray) => Ending::Socket,
    }
}

// No arm stands for all others, so that a new refusal gets one of its own.
fn ending_of_refusal(refusal: Refusal) -> Ending
    ensures { result ≡ ending_of_refusal refusal }
{
    match refusal {
        Refusal::NoMemory => Ending::Memory,
        Refusal::JournalFull => Ending::JournalFull,
        Refusal::NoSuchConnection
        | Refusal::Crowded
        | Refusal::NothingWaiting
        | Refusal::Stale { .. }
        | Refusal::Unasked
        | Refusal::NotReady { .. }
        | Refusal::Finishing
        | Refusal::TooManyConnections
        | Refusal::BadSettings { .. }
        | Refusal::NoSuchHost
        | Refusal::NotPlain => Ending::Socket,
    }
}
