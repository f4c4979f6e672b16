//! What a turn of the core tells the workers: for which hosts parts wait, and to which clients replies came. It
//! stands on `limits`, and on `crossbeam_utils` for cache lines. Begin with `notices.rt`.
#![tactic(auto)]

mod client_place;
mod notices;
mod place;
mod unseen_parts;
mod worker_notices;

pub use client_place::MAX_KEYS;
pub use notices::Notices;
pub use place::{Place, worker_of_host};
pub use unseen_parts::{PartsNews, UnseenParts};
pub use worker_notices::{MAX_WORDS, ReadyWord};
