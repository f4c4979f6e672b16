use crate::part::Owner;

/// The parts that a fault left without a reply, in their order.
#[derive(Debug, Drop)]
pub struct Lost {
    /// The sent ones; `None` for a forgotten one.
    pub flying: Vec<Option<Owner>>,
    /// The waiting ones.
    pub waiting: Vec<Owner>,
}
