//! The turns that a worker makes of a core.
ghost use Rattle.proxy_core.specs.CoreTurns.{CoreLaws};

use crate::keeping::Keeping;
use crate::machine::CoreOf;
use ejector::EjectState;
use ketama::Ring;
use proxy_history::{Answer, Event, Refusal};
use ticket_gate::{Alone, Recorded, Seated, Turns};

/// Turns of a core, whether others make turns too or not, with the laws of the steps that are seen.
///
/// The setting is the ring, and the rules of outlier detection with its opening state.
pub trait CoreTurns: Turns<
    Event = Event,
    Answer = Answer,
    Refusal = Refusal,
    Setting = (Ring, EjectState),
> {
    /// What is known of the steps that a pass sees, and of refusals.
    ghost laws: { CoreLaws Self.legal Self.cause };
}

/// A core, or one with more beside it. Turns of it, at a gate or alone, are a core's.
pub trait CoreState: Recorded<
    Event = Event,
    Answer = Answer,
    Refusal = Refusal,
    Setting = (Ring, EjectState),
> {
    /// What is known of its journals, and of refusals.
    ghost laws: { CoreLaws Self.legal Self.cause };
}

impl<K: Keeping> CoreState for CoreOf<K> {
    ghost use Rattle.proxy_core.specs.JournalLaws.{core_laws};

    ghost laws = { core_laws };
}

impl<'a, S: CoreState> CoreTurns for Seated<'a, S> {
    ghost laws = { S.laws };
}

impl<S: CoreState> CoreTurns for Alone<S> {
    ghost laws = { S.laws };
}
