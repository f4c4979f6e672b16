ghost use Rattle.std.specs.Prelude.{IfSome};
ghost use Rattle.ticket_gate.specs.Gate.{IsPassOf};
ghost use Rattle.ticket_gate.specs.Journal.{Closes};

use crate::gate::{DRAWN, Gate, Pass, SERVING, STATE};
use crate::recorded::Recorded;

impl<S: Recorded> Gate<S> {
    /// Ends the gate, and returns its state if each ticket drawn has been served.
    ///
    /// The state has the gate's setting. Its journal is legal, begins with what the pass has seen,
    /// and has exactly the pass's steps that it has seen. Once all calls at the gate have returned,
    /// no ticket is out.
    pub fn close(self, pass: Pass<S>) -> Option<S>
    where
        S: Drop,
        requires { IsPassOf self pass }
        ensures { IfSome result (Closes S.journal S.setting S.legal
            self.setting pass.number pass.known.seen) }
    {
        let Gate { table } = self;
        let Pass { number: _, seat } = pass;
        let mut closed = table.close_with(seat);
        let all_served = closed.word(DRAWN) == closed.word(SERVING);
        let state = closed.take(STATE);
        closed.free();
        if all_served { state } else { None }
    }
}
