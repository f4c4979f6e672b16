//! What a worker's connections are told of the round in which they are stepped.

use journal_room::JournalRoom;
use mio::Registry;
use proxy_notices::Notices;

/// A worker's round.
#[derive(Clone, Copy, Drop)]
pub struct Round<'a> {
    /// The room in the generation's journal.
    pub room: &'a JournalRoom,
    /// What turns tell the generation's workers.
    pub notices: &'a Notices,
    /// Where sockets are registered for the worker's poll.
    pub registry: &'a Registry,
    /// The round's moment, in milliseconds.
    pub now: u64,
    /// The moment for hosts' durations, in microseconds: the round's, or a later one that was read in it.
    pub now_us: u64,
    /// Since when what clients are read may have come, in microseconds.
    pub came_us: u64,
    /// The most parts that one client may queue in it.
    pub most_parts: u64,
    /// Whether the hosts' waiting parts are given up.
    pub gives_up: bool,
    /// Whether the inputs of new clients end behind what has come.
    pub ends_inputs: bool,
    /// Whether sockets may go over to a newer generation.
    pub carries_over: bool,
    /// Whether answers to clients that take in nothing more may be buffered without a bound.
    pub buffers_all: bool,
    /// Milliseconds until an idle client is closed; 0: never.
    pub idle_ms: u64,
}

/// A worker's round, as far as it is of one host.
#[derive(Clone, Copy, Drop)]
pub(crate) struct HostRound<'a> {
    pub(crate) room: &'a JournalRoom,
    pub(crate) registry: &'a Registry,
    pub(crate) now: u64,
    pub(crate) now_us: u64,
    pub(crate) gives_up: bool,
}
