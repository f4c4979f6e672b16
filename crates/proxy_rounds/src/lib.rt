//! The generations of `serve`, each with the threads that make its rounds.
//!
//! A generation is a journal with its gate. The workers make rounds: each steps the clients and hosts of its
//! `WorkerConnections`, which make turns at the gate. One more thread sweeps, and asks for the next generation in time.
//! It stands on `proxy_connections`, `proxy_server`, `engine_work`, `sweeper` and `ticket_gate`. Begin with
//! `run_generation` in `generation.rt`, then `Worker::make_round` in `worker.rt`.
#![tactic(auto)]

mod generation;
mod generation_state;
mod seats;
mod server;
mod sweeping;
mod worker;

pub use generation::{ServeRuntime, run_generation};
pub use server::{Line, LineContext, Server};
