//! A stream that nobody has used before.
//!
//! Only a connect and an accept make one, and it can't be cloned or made of a used one. So whoever begins to use it has the
//! stream's first byte still to come, in either direction. It stands on `mio`. Begin with `fresh_stream.rt`.
#![tactic(auto)]

mod fresh_stream;

pub use fresh_stream::{Connected, FreshStream, UsedStream};
