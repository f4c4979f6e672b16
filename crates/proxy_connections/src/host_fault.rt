//! Why a link to a host ended, as its worker tells it.
ghost use Rattle.std.specs.Prelude.{◌≡◌};
ghost use Rattle.proxy_connections.specs.HostFaults.{cause_of, fault_told};

use proxy_engines::LinkFault;
pub use proxy_engines::PassedLimit;
use proxy_serve_core::FaultCause;

/// A fault of a host's link on which something was asked.
#[derive(Clone, Copy, Debug, PartialEq, Eq, Drop)]
pub enum HostFault {
    /// As of `LinkFault`.
    Refused,
    /// As of `LinkFault`.
    Closed,
    /// As of `LinkFault`.
    Late,
    /// As of `LinkFault`.
    Garbled,
    /// A reply passed this limit.
    TooLong(PassedLimit),
    /// The journal has no room for its replies.
    NoRoom,
    /// The generation gives up.
    GivenUp,
}

impl HostFault {
    /// None where a link ended on which nothing was asked.
    pub(crate) fn of(fault: LinkFault, is_asked: bool, gives_up: bool) -> Option<HostFault>
        ensures { result ≡ fault_told fault is_asked gives_up }
    {
        match fault {
            LinkFault::Refused => Some(HostFault::Refused),
            LinkFault::Late => Some(HostFault::Late),
            LinkFault::Garbled => Some(HostFault::Garbled),
            LinkFault::TooLong(limit) => Some(HostFault::TooLong(limit)),
            LinkFault::Closed if is_asked => Some(HostFault::Closed),
            LinkFault::GivenUp if gives_up && is_asked => Some(HostFault::GivenUp),
            LinkFault::GivenUp if is_asked => Some(HostFault::NoRoom),
            LinkFault::Closed | LinkFault::GivenUp => None,
        }
    }

    /// The cause under which it is counted.
    pub fn cause(self) -> FaultCause
        ensures { result ≡ cause_of self }
    {
        match self {
            HostFault::Refused => FaultCause::Refused,
            HostFault::Closed => FaultCause::Closed,
            HostFault::Late => FaultCause::Late,
            HostFault::Garbled => FaultCause::Garbled,
            HostFault::TooLong(_) => FaultCause::TooLong,
            HostFault::NoRoom | HostFault::GivenUp => FaultCause::GivenUp,
        }
    }
}

/// A link that ended by a fault.
#[derive(Clone, Copy, Debug, PartialEq, Eq, Drop)]
pub struct LostLink {
    /// The host's number.
    pub host: usize,
    /// Why it ended.
    pub fault: HostFault,
    /// The parts that were lost with it.
    pub lost: u64,
}
