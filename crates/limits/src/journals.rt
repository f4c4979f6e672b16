/// The most steps of a journal.
pub const MAX_STEPS: usize = 262_144;

/// The most payload bytes of a journal.
pub const MAX_BYTES: u64 = 67_108_864;

/// The most steps of one command.
pub const MAX_COMMAND_STEPS: u64 = 2_048;

/// The most bytes of a reply that a journal has room for.
pub const MAX_REPLY_BYTES: u64 = 8_388_608;

/// The most passes of one gate.
pub const MAX_PASSES: u64 = 256;

/// The most generations with connections at a time. With so many, the oldest is in the way of the next.
pub const MAX_GENERATIONS: usize = 64;

/// The generation in the way is given up only after this long without a host's answer, or after `MAX_DRAINING_MS`.
pub const STILL_MS: u64 = 100;

/// The generation in the way may be given up once the newest is open this long.
pub const MAX_DRAINING_MS: u64 = 1_000;

/// The least time from giving a generation up to stopping it.
pub const GIVING_UP_MS: u64 = 100;

/// The server ends after this many failed openings of generations in a row.
pub const MAX_FAILURES: u32 = 1_000;

/// The longest wait of a generation's threads for each other at its start.
pub const MAX_START_MS: u32 = 1_000;
