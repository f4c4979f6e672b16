//! Decides which generation of `redproxy serve` serves, which ones drain, when the next one opens, and when a sweep
//! is due. It stands on `limits`. Begin with `lifecycle.rt`.
#![tactic(auto)]

mod laws;
mod lifecycle;
mod marks;
mod mode;
mod older;
mod opened;
mod phase;

pub use laws::{draining_are_older, generations_follow};
pub use lifecycle::{At, Due, Generations};
pub use marks::{Look, Marks, Report};
pub use mode::{Change, Mode};
pub use phase::Phase;
