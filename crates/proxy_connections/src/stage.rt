ghost use Rattle.std.specs.Prelude.{◌≡◌, Err};
ghost use Rattle.proxy_connections.specs.Stages.{EndsOne, TellsEnd};

use proxy_engines::EngineError;

/// Why a client's engine isn't stepped any more.
#[derive(Clone, Copy, Drop)]
pub(crate) enum EngineEnd {
    /// Its connection is closed.
    Closed,
    /// The journal has no room for its turn, and it takes in nothing more.
    NoRoom,
    /// Its turn was refused, since it has no meaning any more.
    Refused,
}

/// How far a client's socket has come.
#[derive(Clone, Copy, Drop)]
pub(crate) enum SocketStage {
    Served,
    /// Its engine isn't stepped any more. The socket goes over, or its last bytes are written.
    Leaving { end: EngineEnd },
    /// The sending half is closed too; input is discarded until this moment.
    Lingering { end: EngineEnd, until: u64 },
}

impl EngineEnd {
    /// The end that an error of a step tells, where it ends the connection alone.
    pub(crate) fn of(error: EngineError) -> EngineEnd
        requires { EndsOne error }
        ensures { TellsEnd (Err error) result }
    {
        match error {
            EngineError::ReadFailed | EngineError::WriteFailed => EngineEnd::Closed,
            EngineError::NoMemory | EngineError::TurnRefused(_) => EngineEnd::Refused,
        }
    }
}
