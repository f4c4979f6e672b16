//! The limit of `local`'s steps, as the contract of a function that does nothing.
ghost use Rattle.std.specs.Prelude.{◌≡◌};

use crate::local::MAX_ENGINE_STEPS;

/// The engines of a run make at most 1,073,741,824 steps together.
pub fn steps_are_limited()
    ensures { MAX_ENGINE_STEPS ≡ 1073741824 }
{}
