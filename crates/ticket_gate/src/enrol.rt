ghost use Rattle.std.specs.Prelude.{◌≡◌, ◌<◌, ◌≤◌, ℕ, [], IfOk, IfErr};
ghost use Rattle.ticket_gate.specs.Gate.{IsPassOf, IsSpareOf};
ghost use Rattle.ticket_gate.specs.declared.refusal.GateRefusal.TheVariants.{Crowded};

use crate::gate::{ENROLLED, Gate, Pass, Spare};
use crate::recorded::Recorded;
use crate::refusal::GateRefusal;
use crate::steps::{HalveSpare, ReadEnrolled, TakeNumber};
use limits::MAX_PASSES;
use std::sync::Wait;

impl<S: Recorded> Gate<S> {
    /// Makes two spare places of one. It never waits.
    pub fn split(&self, spare: Spare<S>) -> (Spare<S>, Spare<S>)
        requires { IsSpareOf self.now spare }
        ensures { IsSpareOf self.now result.0 × IsSpareOf self.now result.1 }
    {
        let Spare { mut seat } = spare;
        let other = self.table.shared.split_seat::<HalveSpare>(&mut seat);
        (Spare { seat }, Spare { seat: other })
    }

    /// Gives a spare place a number from 0 to 255 that no other pass of this gate has.
    ///
    /// It tries again while other threads enrol. If 256 passes are enrolled, it returns `Crowded` (1203) with the
    /// spare place.
    pub fn enrol<R: Wait>(
        &self,
        rt: &R,
        spare: Spare<S>,
    ) -> Result<Pass<S>, (GateRefusal, Spare<S>)>
        requires { IsSpareOf self.now spare }
        ensures pass { IfOk result (λ pass. IsPassOf self.now pass × (pass.known.seen ≡ [])
            × (pass.number < 256)) }
        ensures crowded { IfErr result (λ refused. (refused.0 ≡ Crowded)
            × IsSpareOf self.now refused.1
            × (refused.1.known.last_enrolled ≡ 256)) }
    {
        let Spare { mut seat } = spare;
        let shared = &self.table.shared;
        for _ in rt.forever() {
            let number = shared.load::<ReadEnrolled>(&mut seat, ENROLLED);
            if number >= MAX_PASSES {
                return Err((GateRefusal::Crowded, Spare { seat }));
            }
            let found = shared.compare_exchange::<TakeNumber>(
                &mut seat,
                ENROLLED,
                number,
                number + 1,
            );
            if found == number {
                return Ok(Pass { number, seat });
            }
        }
        unreachable!()
    }
}
