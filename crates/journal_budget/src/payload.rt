ghost use Rattle.std.specs.Prelude.{◌≡◌, ◌↔◌, ◌≤◌, ◌+◌, ◌-◌, ◌*◌, IsTrue};

use crate::payload_counts::PayloadCounts;
use limits::{MAX_BYTES, MAX_REPLY_BYTES, READ_SIZE};
use std::marker::Model;

/// The most bytes of an error in the place of a host's reply.
pub const MAX_PART_ERROR: u64 = 19;

// Kept for the texts of errors once replies have no room.
const MAX_ERROR_BYTES: u64 = 4_194_304;

/// A journal far from full may get this many bytes before its room is looked at again.
pub(crate) const FAR_BYTES: u64 = 1_048_576;

/// And it may owe this many more steps before that.
pub(crate) const FAR_STEPS: u64 = 16_384;

// An average is of at least this many steps, and the journal's own from then on.
const FIRST_STEPS: u64 = 1_024;

// The greatest average.
const MAX_AVERAGE: u64 = 8_192;

#[derive(Clone, Copy)]
pub(crate) struct Payload {
    used: u64,
    came: u64,
    handed: u64,
    due: u64,
    steps: u64,
    before: u64,
    charged: u64,
}

impl Model for Payload {
    ghost use Rattle.journal_budget.specs.Payload.{PayloadState};

    ghost Value = { PayloadState };

    ghost view = { λ p. record {
      used = p.used;
      came = p.came;
      handed = p.handed;
      due = p.due;
      steps = p.steps;
      before = p.before;
      charged = p.charged;
    } };

    ghost inverse = { λ p. record {
      used = p.used;
      came = p.came;
      handed = p.handed;
      due = p.due;
      steps = p.steps;
      before = p.before;
      charged = p.charged;
    } };
}

impl Payload {
    ghost use Rattle.journal_budget.specs.Budget.{capped};
    ghost use Rattle.journal_budget.specs.Counts.{with_bytes};
    ghost use Rattle.journal_budget.specs.Payload.{no_payload, average_of, kept_bytes, next_average_of, own_average, HasRoomForCommand, HasRoomForReply, IsFarFromFull};

    pub(crate) fn new(average: u64, charged: u64) -> Payload
        ensures { result ≡ no_payload average charged }
    {
        Payload {
            used: 0,
            came: 0,
            handed: 0,
            due: 0,
            steps: 0,
            before: average,
            charged,
        }
    }

    /// Each sum stays at the greatest `u64`.
    pub(crate) fn note(&mut self, bytes: PayloadCounts)
        ensures { self.new ≡ with_bytes bytes self.old }
    {
        self.used = self.used.saturating_add(bytes.kept);
        self.came = self.came.saturating_add(bytes.came);
        self.handed = self.handed.saturating_add(bytes.handed);
        self.due = self.due.saturating_add(bytes.due);
        self.steps = self.steps.saturating_add(bytes.steps);
    }

    /// The bytes a step that were due, rounded down. Below `FIRST_STEPS` it is no less than the last generation's.
    pub(crate) fn average(&self) -> u64
        ensures { result ≡ average_of self.now }
    {
        let own = self.own_average();
        if self.steps >= FIRST_STEPS {
            own
        } else {
            own.max(self.before)
        }
    }

    fn own_average(&self) -> u64
        ensures { result ≡ own_average self.now }
    {
        (self.due / self.steps.max(FIRST_STEPS)).min(MAX_AVERAGE)
    }

    /// At least half of what this journal started with, so that large values are remembered for some generations.
    pub(crate) fn next_average(&self) -> u64
        ensures { result ≡ next_average_of self.now }
    {
        self.own_average().max(self.before / 2)
    }

    /// There is room if nothing is owed and there is no payload, so that there is always progress.
    pub(crate) fn takes_in(&self, owed: u64, unfinished: u64) -> bool
        ensures { IsTrue result ↔ HasRoomForCommand self.now owed unfinished }
    {
        if owed == 0 && self.used == 0 {
            return true;
        }
        let by_average = owed.saturating_mul(self.average()).saturating_mul(2);
        let room = by_average.max(4 * MAX_REPLY_BYTES).max(self.charged);
        self.kept()
            .saturating_add(room)
            .saturating_add(MAX_ERROR_BYTES)
            .saturating_add(unfinished.saturating_mul(2))
            <= MAX_BYTES
    }

    pub(crate) fn takes_reply(&self, unfinished: u64) -> bool
        ensures { IsTrue result ↔ HasRoomForReply self.now unfinished }
    {
        let read = unfinished.saturating_add(READ_SIZE as u64);
        let grown = read.saturating_mul(2);
        self.kept()
            .saturating_add(grown)
            .saturating_add(MAX_ERROR_BYTES)
            <= MAX_BYTES
    }

    /// Even with `FAR_BYTES` more bytes and `FAR_STEPS` more owed steps, there is then room for one with `FAR_BYTES`
    /// unfinished bytes.
    pub(crate) fn is_far_from_full(&self, owed: u64) -> bool
        ensures { IsTrue result → IsFarFromFull self.now owed }
    {
        let grown = Payload {
            used: self.used.saturating_add(2 * FAR_BYTES),
            due: self.due.saturating_add(FAR_BYTES),
            ..*self
        };
        self.steps >= FIRST_STEPS && grown.takes_in(owed.saturating_add(FAR_STEPS), FAR_BYTES)
    }

    // With those of replies that are still to be handed out.
    fn kept(&self) -> u64
        ensures { result ≡ capped (kept_bytes self.now) }
    {
        self.used
            .saturating_add(self.came.saturating_sub(self.handed))
    }
}
