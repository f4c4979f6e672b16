ghost use Rattle.std.specs.Prelude.{◌↔◌, IsTrue};
ghost use Rattle.proxy_generations.specs.Accepting.{MayAccept};

/// What a generation is to do.
#[derive(Clone, Copy, Debug, PartialEq, Eq)]
pub enum Phase {
    /// It hasn't opened yet, and has no connection.
    Unopened,
    /// It is the newest open one, which accepts sockets.
    Serving,
    /// It takes in nothing more, and answers what it accepted.
    Draining,
    /// The parts that wait for hosts are given up.
    GivingUp,
    /// It is over: it has drained, or its connections are closed after a last try to answer them. So it is with all once the
    /// server ends.
    Stopped,
}

impl Phase {
    /// Whether sockets may still come to the generation: it serves, or hasn't opened.
    pub fn may_accept(self) -> bool
        ensures { IsTrue result ↔ MayAccept self }
    {
        match self {
            Phase::Unopened | Phase::Serving => true,
            Phase::Draining | Phase::GivingUp | Phase::Stopped => false,
        }
    }
}
