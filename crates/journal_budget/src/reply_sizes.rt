ghost use Rattle.std.specs.Prelude.{◌≡◌};
ghost use Rattle.journal_budget.specs.ReplySizes.{charge_for, large_among, no_replies, noted, with_lost, with_reply};

use crate::payload::MAX_PART_ERROR;
use limits::{MAX_BULK, MAX_REPLY_BYTES};
use std::marker::Model;

/// A reply of so many bytes is large.
pub const LARGE_REPLY: u64 = 32_768;

/// The most bytes that a reply is expected to have.
pub const MAX_EXPECTED: u64 = 2 * MAX_REPLY_BYTES;

// A reply that found no room counts as so many bytes.
const LOST_REPLY: u64 = MAX_BULK + 16;

// The large ones among so many of late are counted.
const LATE: u64 = 64;

/// Replies that were handed out.
#[derive(Clone, Copy, Debug, PartialEq, Eq, Drop)]
pub struct HandedReplies {
    /// Their number.
    pub count: u64,
    /// How many of them were large.
    pub large: u64,
    /// How many had at most `MAX_PART_ERROR` bytes.
    pub short: u64,
    /// The bytes of the greatest.
    pub greatest: u64,
}

impl HandedReplies {
    /// None.
    pub const NONE: HandedReplies = HandedReplies {
        count: 0,
        large: 0,
        short: 0,
        greatest: 0,
    };

    /// One more, of so many bytes.
    #[inline(always)]
    pub(crate) fn add(&mut self, bytes: u64)
        ensures { self.new ≡ with_reply bytes self.old }
    {
        self.count = self.count.saturating_add(1);
        if bytes >= LARGE_REPLY {
            self.large = self.large.saturating_add(1);
        }
        if bytes <= MAX_PART_ERROR {
            self.short = self.short.saturating_add(1);
        }
        self.greatest = self.greatest.max(bytes);
    }

    /// Where the short ones are errors in the place of replies that found no room.
    pub fn with_lost(self) -> HandedReplies
        ensures { result ≡ with_lost self }
    {
        if self.short == 0 {
            return self;
        }
        HandedReplies {
            large: self.large.saturating_add(self.short),
            greatest: self.greatest.max(LOST_REPLY),
            ..self
        }
    }
}

/// What a connection's next replies are expected to have.
#[derive(Drop)]
pub struct ReplySizes {
    expected: u64,
    seen: u64,
    large: u64,
    before: u64,
}

impl Model for ReplySizes {
    ghost use Rattle.std.specs.Prelude.{◌≤◌};
    ghost use Rattle.journal_budget.specs.ReplySizes.{SizesState};
    ghost use Rattle.journal_budget.specs.declared.reply_sizes.TheConstants.{MAX_EXPECTED};

    ghost Value = { SizesState };

    ghost view = { λ s. record {
      expected = s.expected;
      seen = s.seen;
      large = s.large;
      before = s.before;
    } };

    ghost invariant = { λ s. s.expected ≤ MAX_EXPECTED };
}

impl ReplySizes {
    /// No reply has come.
    pub fn new() -> ReplySizes
        ensures { result ≡ no_replies }
    {
        ReplySizes {
            expected: 0,
            seen: 0,
            large: 0,
            before: 0,
        }
    }

    /// These replies came.
    #[inline(always)]
    pub fn note(&mut self, replies: HandedReplies)
        ensures { self.new ≡ noted replies self.old }
    {
        let fallen = self.expected - self.expected / 8;
        self.expected = replies.greatest.min(MAX_EXPECTED).max(fallen);
        self.seen = self.seen.saturating_add(replies.count);
        self.large = self.large.saturating_add(replies.large);
        if self.seen >= LATE {
            self.seen = 0;
            self.before = self.large;
            self.large = 0;
        }
    }

    /// What so many commands are charged: 0 where a small reply is expected.
    #[inline(always)]
    pub fn charge(&self, commands: u64) -> u64
        ensures { result ≡ charge_for commands self.now }
    {
        if self.expected < LARGE_REPLY {
            return 0;
        }
        self.large_among(commands).saturating_mul(2 * self.expected)
    }

    // In proportion as many as were large of late, but one at least.
    #[inline(always)]
    fn large_among(&self, commands: u64) -> u64
        ensures { result ≡ large_among commands self.now }
    {
        let late = self.large.saturating_add(self.before);
        late.saturating_mul(commands / LATE + 1)
            .max(1)
            .min(commands)
    }
}
