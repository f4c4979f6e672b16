/// One step of a history.
#[derive(Clone, Copy, Debug, PartialEq, Eq, Drop)]
pub struct Step<E, A> {
    /// The number of its pass.
    pub pass: u64,
    /// The event.
    pub event: E,
    /// The answer.
    pub answer: A,
}
