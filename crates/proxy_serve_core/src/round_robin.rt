ghost use Rattle.std.specs.Prelude.{◌≡◌, ◌<◌, ◌+◌, ◌%◌};

use std::marker::Model;

/// Assigns new sockets to workers in turn.
#[derive(Drop)]
pub struct RoundRobin {
    next: usize,
    count: usize,
}

impl Model for RoundRobin {
    ghost use Rattle.std.specs.Prelude.{◌<◌};
    ghost use Rattle.proxy_serve_core.specs.RoundRobin.{RoundRobinState};

    ghost Value = { RoundRobinState };

    ghost view = { λ r. record { next = r.next; count = r.count } };

    ghost invariant = { λ r. r.next < r.count };
}

impl RoundRobin {
    /// Starts with the first of `count`, or of one if that is 0.
    pub fn new(count: usize) -> RoundRobin
        ensures next { result.next ≡ 0 }
        ensures count { 0 < count → result.count ≡ count }
        ensures one { count ≡ 0 → result.count ≡ 1 }
    {
        RoundRobin {
            next: 0,
            count: if count == 0 { 1 } else { count },
        }
    }

    /// The one whose turn it is.
    pub fn take(&mut self) -> usize
        ensures turn { result ≡ self.old.next }
        ensures next { self.new.next ≡ (self.old.next + 1) % self.old.count }
        ensures count { self.new.count ≡ self.old.count }
    {
        let place = self.next;
        self.next = (place + 1) % self.count;
        place
    }
}
