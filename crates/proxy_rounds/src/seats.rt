//! Where a generation's threads get their seats.
ghost use Rattle.std.specs.Prelude.{◌≡◌, [], IfOk};
ghost use Rattle.ticket_gate.specs.Gate.{IsSpareOf};
ghost use Rattle.proxy_connections.specs.WorkerConnections.{steps_of};

use proxy_exit_status::Ending;
use proxy_stats::TalliedCore;
use std::sync::Wait;
use ticket_gate::{Gate, Seated, Spare};

/// A generation's gate, and a place there for those that have no seat yet.
#[derive(Drop)]
pub(crate) struct Seats<'a> {
    gate: &'a Gate<TalliedCore>,
    spare: Spare<TalliedCore>,

    ghost at_gate: { IsSpareOf gate.now spare },
}

impl<'a> Seats<'a> {
    /// The seats at this gate, from its spare place on.
    pub(crate) fn new(gate: &'a Gate<TalliedCore>, spare: Spare<TalliedCore>) -> Seats<'a>
        requires { IsSpareOf gate.now spare }
    {
        Seats { gate, spare }
    }

    /// One for a thread, and those for the others.
    pub(crate) fn split(self) -> (Seats<'a>, Seats<'a>) {
        let Seats { gate, spare } = self;
        let (one, rest) = gate.split(spare);
        (Seats { gate, spare: one }, Seats { gate, spare: rest })
    }

    /// Takes a seat; ends with `Spent` where the gate has no ticket left.
    pub(crate) fn take<R: Wait>(self, rt: &R) -> Result<Seated<'a, TalliedCore>, Ending>
        ensures { IfOk result (λ seat. steps_of seat ≡ []) }
    {
        let Seats { gate, spare } = self;
        match gate.enrol(rt, spare) {
            Ok(pass) => Ok(Seated::new(gate, pass)),
            Err(_) => Err(Ending::Spent),
        }
    }
}
