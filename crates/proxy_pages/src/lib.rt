//! The operator's pages about a running proxy, and the orders that it takes, over HTTP.
//!
//! `GET /` is a page for people, `GET /metrics` is Prometheus's text, `GET /hosts` has a line for each host, and
//! `GET /ready` and `GET /live` are for balancers and supervisors. `POST /drain` and `POST /quit` are orders to end. No
//! sockets, threads or clocks: an [`Admin`] answers by a [`Snapshot`] of one moment. It stands on `proxy_stats` and the
//! HTTP crates. Begin with `reply.rt`, then `metric.rt`.
#![tactic(auto)]

mod admin;
mod delay;
mod hosts;
mod index;
mod lines;
mod metric;
mod metrics;
mod numbers;
mod reply;
mod snapshot;

pub use admin::Admin;
pub use delay::MAX_DRAIN_AFTER_MS;
pub use reply::Order;
pub use snapshot::{
    About, EjectedHosts, LineHosts, Look, MAX_LINES_SHOWN, Moved, MovedBytes, ProcessUse, Snapshot,
};
