ghost use Rattle.std.specs.Prelude.{◌≡◌, ◌/◌};

use std::rt::Clock;

/// A moment of the clock, in two units.
#[derive(Clone, Copy, Drop)]
pub struct Moment {
    /// Whole milliseconds.
    pub ms: u64,
    /// Whole microseconds.
    pub us: u64,
}

impl Moment {
    /// The clock's first moment.
    pub const FIRST: Moment = Moment { ms: 0, us: 0 };

    /// The present moment; the first where the clock can't be read.
    pub fn now<R: Clock>(rt: &R) -> Moment
        ensures { result.ms ≡ result.us / 1000 }
    {
        match rt.monotonic() {
            Ok(since) => {
                let us = u64::try_from(since.as_micros()).unwrap_or(u64::MAX);
                Moment { ms: us / 1000, us }
            }
            Err(_) => Moment::FIRST,
        }
    }
}

/// The clock's milliseconds; 0 where it can't be read.
pub fn now<R: Clock>(rt: &R) -> u64 {
    Moment::now(rt).ms
}
