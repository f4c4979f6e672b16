//! What a word says of the clients' sockets.
ghost use Rattle.std.specs.Prelude.{◌≡◌, ◌↔◌, ◌<◌, IsTrue};
ghost use Rattle.open_sockets.specs.Sockets.{AreDone, IsLastClosing, IsWord, MayOpen, draining, one_less_open};

use limits::MAX_SOCKETS;

/// Set in a word: no further socket is taken.
pub(crate) const DRAINING: u64 = 1 << 32;

/// How many sockets of clients are open, and whether no further one is taken.
#[derive(Clone, Copy, Drop)]
pub(crate) struct Sockets {
    pub(crate) count: u64,
    pub(crate) is_draining: bool,
}

impl Sockets {
    /// What a word says.
    pub(crate) fn of(word: u64) -> Sockets
        ensures { IsWord word result }
    {
        if word < DRAINING {
            Sockets {
                count: word,
                is_draining: false,
            }
        } else {
            Sockets {
                count: word - DRAINING,
                is_draining: true,
            }
        }
    }

    /// Once one of a word's sockets is dropped.
    pub(crate) fn without_one(before: u64) -> Sockets
        ensures { (s : Sockets) → IsWord before s → 0 < s.count → result ≡ one_less_open s }
    {
        let sockets = Sockets::of(before);
        Sockets {
            count: sockets.count.saturating_sub(1),
            is_draining: sockets.is_draining,
        }
    }

    /// Once a word drains.
    pub(crate) fn drained(before: u64) -> Sockets
        ensures { (s : Sockets) → IsWord before s → result ≡ draining s }
    {
        Sockets {
            count: Sockets::of(before).count,
            is_draining: true,
        }
    }

    /// Whether a further socket is taken.
    pub(crate) fn may_open(self) -> bool
        ensures { IsTrue result ↔ MayOpen self }
    {
        !self.is_draining && self.count < MAX_SOCKETS
    }

    /// Whether nothing is left to wait for.
    pub(crate) fn are_done(self) -> bool
        ensures { IsTrue result ↔ AreDone self }
    {
        self.is_draining && self.count == 0
    }
}

/// Whether one more closed connection than `before` ends the server.
pub(crate) fn is_last_closing(most: u64, before: u64) -> bool
    ensures { IsTrue result ↔ IsLastClosing most before }
{
    most != 0 && most - 1 <= before
}
