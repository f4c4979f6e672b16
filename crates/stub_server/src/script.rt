ghost use Rattle.std.specs.Prelude.{◌≡◌};
ghost use Rattle.stub_server.specs.Script.{act_of, acts_after};

use std::alloc::Global;
use std::marker::Model;

/// How a stub handles one request.
#[derive(Clone, Copy, Debug, PartialEq, Eq, Drop)]
pub enum Act {
    /// It answers by the table of commands.
    Reply,
    /// It leaves this request and all later ones unanswered.
    Hold,
    /// It ends the link: no later request is served, and earlier replies can still be read.
    Drop,
    /// It writes `?\r\n`, which is no reply.
    Garble,
}

/// The remaining acts.
#[derive(Drop)]
pub struct Script {
    acts: Vec<Act>,
    done: usize,
}

impl Model for Script {
    ghost use Rattle.std.specs.Prelude.{List, ◌≤◌, length, drop};
    ghost use Rattle.stub_server.specs.declared.script.Act.{Act};

    ghost Value = { List Act };

    ghost view = { λ s. drop s.done s.acts.items };

    ghost invariant = { λ s. s.done ≤ length s.acts.items };
}

impl Script {
    pub(crate) fn new(acts: Vec<Act>) -> Script
        ensures { result ≡ acts.items }
    {
        Script { acts, done: 0 }
    }

    pub(crate) fn act(&self) -> Act
        ensures { result ≡ act_of self.now }
    {
        match self.acts.get(self.done) {
            Some(act) => *act,
            None => Act::Reply,
        }
    }

    pub(crate) fn advance(&mut self)
        ensures { self.new ≡ acts_after self.old }
    {
        match self.acts.get(self.done) {
            None | Some(Act::Hold) => {}
            Some(_) => self.done += 1,
        }
    }
}
