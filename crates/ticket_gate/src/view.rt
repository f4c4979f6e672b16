//! What the places at a gate know. Only proofs use these types.
use journal_core::Step;
use std::collections::LinkedList;

/// What one place knows. Its numbers have no greatest value.
pub struct Knowledge<E, A, C> {
    /// The number of the pass; a spare place has none.
    pub number: Option<u64>,
    /// The ticket drawn and not given up.
    pub ticket: Option<u64>,
    pub inside: bool,
    /// The number last found or stored in `serving`.
    pub last_served: u64,
    /// Its looks at `serving`.
    pub looks: u64,
    /// The number last found in `drawn`.
    pub last_drawn: u64,
    /// The number last found in `enrolled`.
    pub last_enrolled: u64,
    pub seen: LinkedList<Step<E, A>>,
    pub setting: Option<C>,
}

/// What one seat knows: a place, or two while passes meet.
pub struct View<E, A, C> {
    pub own: Knowledge<E, A, C>,
    pub other: Option<Knowledge<E, A, C>>,
}
