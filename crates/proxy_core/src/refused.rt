use proxy_history::{Event, Refusal};

/// A refused event with its cause.
#[derive(Drop)]
pub struct Refused {
    /// The cause.
    pub cause: Refusal,
    /// The event, as it was given.
    pub event: Event,
}
