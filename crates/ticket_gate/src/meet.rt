ghost use Rattle.std.specs.Prelude.{◌≡◌};
ghost use Rattle.ticket_gate.specs.Gate.{IsPassOf, IsSamePass};
ghost use Rattle.ticket_gate.specs.Journal.{Meets};

use crate::gate::{Gate, Pass, SERVING};
use crate::recorded::Recorded;
use crate::steps::{ComparePasses, PairPasses};

impl<S: Recorded> Gate<S> {
    /// Returns both passes in their order. What they have seen is now known to be of one journal.
    /// Their numbers differ, and one journal begins with the other. The longer one is legal, and
    /// has exactly the steps of each pass that it has seen.
    ///
    /// No number and no seen journal changes. It takes no memory and never waits.
    pub fn meet(&self, first: Pass<S>, second: Pass<S>) -> (Pass<S>, Pass<S>)
        requires { IsPassOf self.now first × IsPassOf self.now second }
        ensures same { IsSamePass first result.0 × IsSamePass second result.1 }
        ensures seen { (result.0.known.seen ≡ first.known.seen)
            × (result.1.known.seen ≡ second.known.seen) }
        ensures meet { Meets (S.legal self.now.setting)
            first.number first.known.seen second.number second.known.seen }
    {
        let Pass { number, mut seat } = first;
        let Pass {
            number: other_number,
            seat: other,
        } = second;
        let shared = &self.table.shared;
        shared.join_seat::<PairPasses>(&mut seat, other);
        shared.load::<ComparePasses>(&mut seat, SERVING);
        let other = shared.split_seat::<PairPasses>(&mut seat);
        let first = Pass { number, seat };
        let second = Pass {
            number: other_number,
            seat: other,
        };
        (first, second)
    }
}
