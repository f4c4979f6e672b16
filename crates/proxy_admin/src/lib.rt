//! The operator's address of a running server: HTTP pages about it, and orders to end it.
//!
//! An [`AdminListener`] has a thread of its own, and shows an [`Operated`] server. `proxy_pages` decides each answer.
//! Contracts say which orders are left, when a visit is over and who has to go; the rest is proved safe. It stands on
//! `proxy_pages` and the HTTP crates. Begin with `visits.rt`.
#![tactic(auto)]

mod admin;
mod operated;
mod places;
mod process_files;
mod visitor;
mod visits;

pub use admin::{Admin, AdminListener, OpenError};
pub use operated::Operated;
pub use process_files::ProcessFiles;
