ghost use Rattle.std.specs.Prelude.{◌≡◌, ◌↔◌, ◌<◌, ◌≤◌, IsTrue};
ghost use Rattle.std.specs.Bool.{OnTrue, OnFalse};
ghost use Rattle.proxy_notices.specs.UnseenParts.{grown_to};

use limits::MAX_UNSEEN;

/// How many parts of one host wait, and how many came since its worker took one or clients were held back.
#[derive(Clone, Copy, Debug, PartialEq, Eq)]
pub struct UnseenParts {
    /// The waiting parts.
    pub waiting: u64,
    /// Those that came since.
    pub unseen: u64,
}

/// What a worker must know of a host's queue.
#[derive(Clone, Copy, Debug, PartialEq, Eq)]
pub struct PartsNews {
    /// Parts wait, and none did before.
    pub begins: bool,
    /// Clients must be held back until the worker has looked.
    pub presses: bool,
}

impl UnseenParts {
    /// No part waits.
    pub const NONE: UnseenParts = UnseenParts {
        waiting: 0,
        unseen: 0,
    };

    /// So many parts wait now. With [`MAX_UNSEEN`](limits::MAX_UNSEEN) or more unseen, clients must be held back,
    /// and these count as seen.
    #[inline(always)]
    pub fn wait(&mut self, waiting: u64) -> PartsNews
        ensures waiting { self.new.waiting ≡ waiting }
        ensures begins { IsTrue result.begins ↔ ((self.old.waiting ≡ 0) × (0 < waiting)) }
        ensures presses { IsTrue result.presses ↔ (MAX_UNSEEN ≤ grown_to self.old waiting) }
        ensures seen { OnTrue result.presses (self.new.unseen ≡ 0) }
        ensures grows { OnFalse result.presses (self.new.unseen ≡ grown_to self.old waiting) }
    {
        let begins = self.waiting == 0 && waiting > 0;
        let unseen = self
            .unseen
            .saturating_add(waiting.saturating_sub(self.waiting));
        let presses = unseen >= MAX_UNSEEN;
        self.waiting = waiting;
        self.unseen = if presses { 0 } else { unseen };
        PartsNews { begins, presses }
    }

    /// The worker took a part, and so many wait now.
    #[inline(always)]
    pub fn see(&mut self, waiting: u64)
        ensures waiting { self.new.waiting ≡ waiting }
        ensures seen { self.new.unseen ≡ 0 }
    {
        self.waiting = waiting;
        self.unseen = 0;
    }
}
