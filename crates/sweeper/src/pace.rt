ghost use Rattle.std.specs.Prelude.{◌↔◌, ◌-◌, ◌≤◌, IsTrue};

/// The time between sweeps.
#[derive(Clone, Copy, Debug, PartialEq, Eq)]
pub struct Pace {
    /// Milliseconds; with 0 a sweep is always due.
    pub interval_ms: u64,
}

impl Pace {
    /// Whether the interval has passed from the moment `last` to `now`, in milliseconds. Never if the clock went
    /// back.
    pub fn due(&self, last: u64, now: u64) -> bool
        ensures { IsTrue result ↔ ((last ≤ now) × (self.now.interval_ms ≤ now - last)) }
    {
        now >= last && now - last >= self.interval_ms
    }
}
