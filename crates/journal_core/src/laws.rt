ghost use Rattle.std.specs.Prelude.{◌≡◌};

use limits::{MAX_BYTES, MAX_STEPS};

/// A journal has at most 262,144 steps and 67,108,864 bytes of payload.
pub fn steps_and_bytes_are_limited()
    ensures steps { MAX_STEPS ≡ 262144 }
    ensures bytes { MAX_BYTES ≡ 67108864 }
{}
