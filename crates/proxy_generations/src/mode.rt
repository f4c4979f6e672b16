ghost use Rattle.std.specs.Prelude.{◌≡◌, ◌↔◌, ◌∷◌, [], List, true, false, IsTrue};
ghost use Rattle.proxy_generations.specs.Mode.{IsMode, GivesUp};

use crate::phase::Phase;

/// What a worker of a generation does in all of its rounds, by the phases that it saw.
#[derive(Clone, Copy, Debug, PartialEq, Eq)]
pub struct Mode {
    /// Whether it takes in nothing more: no further sockets, and no further commands of its clients.
    pub drains: bool,
    /// Whether the hosts' waiting parts are given up.
    pub gives_up: bool,
    /// Whether the server drains: inputs end behind what has come.
    pub ends_inputs: bool,
}

/// Whether a worker begins to do something.
#[derive(Clone, Copy, Debug, PartialEq, Eq)]
pub enum Change {
    /// It did it in no earlier round.
    Begins,
    /// It does what it did.
    Stays,
}

impl Mode {
    /// Of a worker that saw no phase yet.
    pub fn new() -> Mode
        ensures mode { IsMode result [] }
        ensures inputs { result.ends_inputs ≡ false }
    {
        Mode {
            drains: false,
            gives_up: false,
            ends_inputs: false,
        }
    }

    /// Sees the generation's phase. `Begins` exactly where it takes in nothing more from now on.
    pub fn follow(&mut self, phase: Phase) -> Change
        ensures mode { (phases : List Phase) → IsMode self.old phases
            → IsMode self.new (phase ∷ phases) }
        ensures begins { (result ≡ Change.Begins)
            ↔ ((self.old.drains ≡ false) × (self.new.drains ≡ true)) }
        ensures inputs { self.new.ends_inputs ≡ self.old.ends_inputs }
    {
        self.gives_up = gives_up(phase);
        if self.drains || phase.may_accept() {
            return Change::Stays;
        }
        self.drains = true;
        Change::Begins
    }

    /// Sees that the server drains. `Begins` exactly where inputs end from now on.
    pub fn end_inputs(&mut self) -> Change
        ensures mode { self.new ≡ record {
          drains = self.old.drains;
          gives_up = self.old.gives_up;
          ends_inputs = true;
        } }
        ensures begins { (result ≡ Change.Begins) ↔ (self.old.ends_inputs ≡ false) }
    {
        if self.ends_inputs {
            return Change::Stays;
        }
        self.ends_inputs = true;
        Change::Begins
    }
}

fn gives_up(phase: Phase) -> bool
    ensures { IsTrue result ↔ GivesUp phase }
{
    match phase {
        Phase::GivingUp | Phase::Stopped => true,
        Phase::Unopened | Phase::Serving | Phase::Draining => false,
    }
}
