use resp_core::Value;
use splitter::Request;

/// The fault of a link to a host.
#[derive(Clone, Copy, Debug, PartialEq, Eq, Hash)]
pub enum Kind {
    /// No link could be made.
    Refused,
    /// The link ended or failed.
    Dropped,
    /// A reply didn't come in time.
    Late,
    /// Bytes outside the grammar, or an unasked reply.
    Garbled,
}

/// One event. Connections are numbered from 0 in the order of their opening, and hosts from 0. Moments are in milliseconds.
#[derive(Drop)]
pub enum Event {
    /// A client opened a connection.
    Opened,
    /// A request of a connection arrived.
    Arrived {
        /// The connection's number.
        conn: u64,
        /// What the client asks.
        request: Request,
    },
    /// Its input ended: the connection accepts no later command.
    Finished {
        /// The connection's number.
        conn: u64,
    },
    /// A host's oldest waiting part is written.
    Taken {
        /// The host's number.
        host: usize,
    },
    /// A host answered on the link of an epoch.
    Answered {
        /// The host's number.
        host: usize,
        /// The host's faults before the link was made.
        epoch: u64,
        /// The host's reply.
        value: Value,
        /// The moment.
        t: u64,
    },
    /// The link to a host in an epoch failed.
    Failed {
        /// The host's number.
        host: usize,
        /// The host's faults before the link was made.
        epoch: u64,
        /// What failed.
        kind: Kind,
        /// The moment.
        t: u64,
    },
    /// Ejected hosts may return, and hosts that answer badly are ejected.
    Swept {
        /// The moment.
        t: u64,
    },
    /// The reply to the connection's oldest unwritten command goes to its writer.
    Handed {
        /// The connection's number.
        conn: u64,
    },
    /// A connection is closed.
    Closed {
        /// The connection's number.
        conn: u64,
    },
}
