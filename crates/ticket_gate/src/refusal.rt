ghost use Rattle.std.specs.Prelude.{◌≡◌};
ghost use Rattle.ticket_gate.specs.Refusal.{gate_number, turn_number};

use std::fmt::Display;
use thiserror::Error;

/// Why a gate gave no pass, or could not be made.
#[derive(Clone, Copy, Debug, PartialEq, Eq, Error)]
pub enum GateRefusal {
    /// 1203: the gate has all of its 256 passes.
    #[error("the gate has all of its 256 passes")]
    Crowded,
    /// 1204: there was no memory for the gate.
    #[error("there is no memory for the gate")]
    NoMemory,
}

impl GateRefusal {
    /// 1203 or 1204.
    pub fn number(self) -> u16
        ensures { result ≡ gate_number self }
    {
        match self {
            GateRefusal::Crowded => 1203,
            GateRefusal::NoMemory => 1204,
        }
    }
}

/// Why a turn wasn't made. The event comes back.
#[derive(Debug, Drop, Error)]
#[error_bound(R: Display)]
pub enum TurnRefusal<R, E> {
    /// 1201: another pass holds or awaits the gate. `served` is the ticket served, `drawn` the next to be drawn.
    #[error("the gate is busy: ticket {served} is served, and the next to be drawn is {drawn}")]
    Busy { served: u64, drawn: u64, event: E },
    /// 1202: all tickets were drawn.
    #[error("the gate has no ticket left")]
    Spent { event: E },
    /// The state refused the turn.
    #[error("{cause}")]
    State { cause: R, event: E },
}

impl<R, E> TurnRefusal<R, E> {
    /// 1201 or 1202; `None` if the state refused.
    pub fn number(&self) -> Option<u16>
        ensures { result ≡ turn_number self.now }
    {
        match self {
            TurnRefusal::Busy { .. } => Some(1201),
            TurnRefusal::Spent { .. } => Some(1202),
            TurnRefusal::State { .. } => None,
        }
    }
}
