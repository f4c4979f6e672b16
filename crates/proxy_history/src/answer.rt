use bytes::Bytes;
use ejector::Trip;
use splitter::Local;

/// The answer to an accepted event.
#[derive(PartialEq, Eq, Drop)]
pub enum Answer {
    /// The connection is open.
    Opened {
        /// The connection's number.
        conn: u64,
    },
    /// The command is accepted.
    Accepted {
        /// The command's number in its connection, from 0.
        index: u64,
        /// The kind of the proxy's own answer, if it is one.
        local: Option<Local>,
        /// The command's parts.
        parts: u64,
        /// Parts without a usable host, whose value is `no upstream host`.
        no_host: u64,
        /// Parts for whose host 1,024 waited, whose value is `proxy busy`.
        busy: u64,
    },
    /// No later command of the connection is accepted.
    Finishing,
    /// A part is written to the host.
    Sent {
        /// The number of the host's faults.
        epoch: u64,
        /// The parts taken before in that epoch.
        place: u64,
        /// The part's text.
        text: Bytes,
    },
    /// The reply belongs to the oldest part that flew.
    Matched {
        /// The effect on the host.
        trip: Trip,
    },
    /// The parts that waited or flew are lost: each gets the value `upstream failure`.
    Lost {
        /// Their number, with those of closed connections that flew.
        parts: u64,
        /// The effect on the host.
        trip: Trip,
    },
    /// The sweep was made.
    Swept {
        /// Hosts that came back.
        returned: u32,
        /// Hosts ejected.
        ejected: u32,
        /// Hosts that tripped and stayed.
        kept: u32,
    },
    /// The reply is written to the client.
    Bytes {
        /// The reply's text.
        text: Bytes,
    },
    /// The connection is closed.
    Closed,
}
