ghost use Rattle.std.specs.Prelude.{◌≡◌};
ghost use Rattle.proxy_serve_core.specs.Arrivals.{earliest};

use std::marker::Model;

/// A poll that took this many microseconds waited for what it reports.
pub const WAITED_US: u64 = 10;

/// Since when what a worker's poll reports may have come.
#[derive(Drop)]
pub struct Arrivals {
    // When the last poll returned, in microseconds.
    returned: u64,
}

impl Model for Arrivals {
    ghost use Rattle.std.specs.Prelude.{ℕ};

    ghost Value = { ℕ };

    ghost view = { λ a. a.returned };
}

impl Arrivals {
    /// Nothing had come at this moment, in microseconds.
    pub fn new(now: u64) -> Arrivals
        ensures { result ≡ now }
    {
        Arrivals { returned: now }
    }

    /// Since when what the poll reports may have come, by the moments of its call and its return in microseconds: since it
    /// returned, if it waited; else since the one before did.
    pub fn polled(&mut self, called: u64, returned: u64) -> u64
        ensures earliest { result ≡ earliest self.old called returned }
        ensures last { self.new ≡ returned }
    {
        let before = self.returned;
        self.returned = returned;
        if returned.saturating_sub(called) >= WAITED_US {
            returned
        } else {
            before
        }
    }
}
