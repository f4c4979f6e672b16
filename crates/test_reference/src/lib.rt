//! A plain, slow proxy that answers each event as a legal history does, for tests to stand beside the core.
//!
//! It keeps its steps and nothing else, and goes through all of them for each event. It stands on `proxy_history` and
//! on the crates whose rules that uses. Begin with `reference.rt`, then `cause.rt` and `answering.rt`.
#![tactic(auto)]

mod answering;
mod arrival;
mod cause;
mod part;
mod payload;
mod pipe;
mod reference;
mod replay;
mod scan;
mod value;

pub use self::reference::Reference;
