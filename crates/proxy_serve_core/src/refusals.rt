ghost use Rattle.std.specs.Prelude.{◌≡◌, ◌↔◌, ◌≤◌, ◌+◌, ◌-◌, ◌^◌, min, IsTrue};

use limits::MAX_REFUSALS;
use std::marker::Model;

/// Refusals of memory in a row, to one thing that is tried again.
#[derive(Drop)]
pub struct Refusals {
    in_row: u32,
}

impl Model for Refusals {
    ghost use Rattle.std.specs.Prelude.{ℕ};

    ghost Value = { ℕ };

    ghost view = { λ r. r.in_row };
}

impl Refusals {
    /// No refusal.
    pub fn new() -> Refusals
        ensures { result ≡ 0 }
    {
        Refusals { in_row: 0 }
    }

    /// Counts a refusal. True: the server must end, after `MAX_REFUSALS` in a row.
    pub fn refused(&mut self) -> bool
        ensures in_row { self.new ≡ min (self.old + 1) (2 ^ 32 - 1) }
        ensures ends { IsTrue result ↔ (MAX_REFUSALS ≤ self.old + 1) }
    {
        self.in_row = self.in_row.saturating_add(1);
        self.in_row >= MAX_REFUSALS
    }

    /// Counts a success: the row ends.
    pub fn succeeded(&mut self)
        ensures { self.new ≡ 0 }
    {
        self.in_row = 0;
    }
}
