ghost use Rattle.std.specs.Prelude.{◌≡◌};
ghost use Rattle.engine_work.specs.EngineError.{denied_number, number_of};

use proxy_history::Refusal;
use std::fmt;

/// Why a turn was not made.
#[derive(Clone, Copy, Debug, PartialEq, Eq, Drop)]
pub enum Denied {
    /// 1202: no ticket is left.
    Spent,
    /// 1001 to 1013: the core refused the event.
    By(Refusal),
    /// 1006: another caller failed the host, so its engine asks for no turn.
    Astray,
}

impl Denied {
    /// Its number: 1202, the refusal's own, or 1006.
    pub fn number(&self) -> u16
        ensures { result ≡ denied_number self.now }
    {
        match self {
            Denied::Spent => 1202,
            Denied::By(refusal) => refusal.number(),
            Denied::Astray => 1006,
        }
    }
}

impl fmt::Display for Denied {
    fn fmt<W: fmt::Write>(&self, f: &mut fmt::Formatter<W>) -> fmt::Result {
        match self {
            Denied::Spent => f.write_str("the gate has no ticket left"),
            Denied::By(refusal) => write!(f, "{refusal}"),
            Denied::Astray => f.write_str("another caller failed the host"),
        }
    }
}

/// Why a call of an engine is refused.
///
/// After 1401 and 1404 the next step continues at the same place. After 1402 and 1403 a client's steps return `Cut`,
/// and a host's go on without a link.
#[derive(Clone, Copy, Debug, PartialEq, Eq, Drop)]
pub enum EngineError {
    /// 1401: memory was refused.
    NoMemory,
    /// 1402: a read failed.
    ReadFailed,
    /// 1403: a write failed.
    WriteFailed,
    /// 1404: a turn was refused.
    TurnRefused(Denied),
}

impl EngineError {
    /// Its number, 1401 to 1404.
    pub fn number(&self) -> u16
        ensures { result ≡ number_of self.now }
    {
        match self {
            EngineError::NoMemory => 1401,
            EngineError::ReadFailed => 1402,
            EngineError::WriteFailed => 1403,
            EngineError::TurnRefused(_) => 1404,
        }
    }
}

impl fmt::Display for EngineError {
    fn fmt<W: fmt::Write>(&self, f: &mut fmt::Formatter<W>) -> fmt::Result {
        match self {
            EngineError::NoMemory => f.write_str("no memory"),
            EngineError::ReadFailed => f.write_str("a read failed"),
            EngineError::WriteFailed => f.write_str("a write failed"),
            EngineError::TurnRefused(denied) => {
                let number = denied.number();
                write!(f, "a turn was refused by {number}")
            }
        }
    }
}
