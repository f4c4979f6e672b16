/// At this many bytes of unfinished commands together, connections that add to theirs are ended.
pub const MAX_UNFINISHED: u64 = 67_108_864;

/// An unfinished command of at most this many bytes doesn't end its connection.
pub const MAX_SPARED: u64 = 16_384;

/// This many parts that a host's worker hasn't seen hold clients back.
pub const MAX_UNSEEN: u64 = 256;

/// The most parts queued between two checks of `MAX_UNSEEN`.
pub const MAX_PARTS_AT_ONCE: u64 = 512;

/// This many buffered bytes are written before more are buffered.
pub const MAX_BUFFERED: usize = 65_536;

/// The server ends after this many refusals of memory in a row, to one thing.
pub const MAX_REFUSALS: u32 = 1_000;

/// The longest that a connecting link holds clients back.
pub const CONNECTING_MS: u64 = 20;

/// The least time between two logs of an unreachable host.
pub const TELL_MS: u64 = 1_000;

/// The time between two looks for signals.
pub const SIGNAL_MS: u64 = 100;

/// The most bytes still read of an input that is to end.
pub const MAX_LAST: u64 = 1_048_576;

/// How long a closed connection's input is discarded: unread bytes would lose its last answers.
pub const LINGER_MS: u64 = 1_000;
