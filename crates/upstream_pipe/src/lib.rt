//! One host's pipeline: which reply belongs to which part.
//!
//! Parts are sent and answered in order (RESP2 pipelining). So the k-th reply of an epoch belongs to the k-th part
//! sent in it. A fault ends the epoch. It stands on `bytes` and `limits`. Begin with `pipe.rt`.
#![tactic(auto)]

mod laws;
mod lost;
mod part;
mod pipe;
mod refusal;

pub use laws::waiting_is_limited;
pub use lost::Lost;
pub use part::{Owner, Part};
pub use pipe::Pipe;
pub use refusal::PipeRefusal;
