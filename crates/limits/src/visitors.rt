/// The most visitors. One more displaces the one idle longest.
pub const MAX_VISITORS: usize = 64;

/// The longest visit without progress.
pub const VISIT_MS: u64 = 10_000;

/// The most bytes of a visitor's head, and of one read.
pub const MAX_HEAD: usize = 4_096;

/// The most bytes of a visitor's body.
pub const MAX_BODY: usize = 1_024;
