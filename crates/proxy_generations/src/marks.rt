ghost use Rattle.std.specs.Prelude.{◌≡◌, ◌↔◌, ◌*◌, ◌/◌, ◌⊎◌, IsTrue};
ghost use Rattle.proxy_generations.specs.Marks.{AreNear, AreReached, IsFull, IsNear};

use limits::{MAX_BYTES, MAX_STEPS};

/// The length of a journal at which the next generation opens.
#[derive(Clone, Copy, Debug, PartialEq, Eq)]
pub struct Marks {
    /// Steps.
    pub steps: u64,
    /// Bytes of payload.
    pub bytes: u64,
}

/// What a look at a generation's journal found.
#[derive(Clone, Copy, Debug, PartialEq, Eq)]
pub struct Look {
    /// Steps made.
    pub made: u64,
    /// Steps made or owed, as far as workers have reported them.
    pub spent: u64,
    /// Bytes of payload.
    pub bytes: u64,
    /// Whether no further command is accepted.
    pub is_full: bool,
}

/// What is to be reported of a generation that serves.
#[derive(Clone, Copy, Debug, PartialEq, Eq)]
pub struct Report {
    /// Whether `Generations::near` is to be called.
    pub near: bool,
    /// Whether `Generations::full` is to be called after that.
    pub full: bool,
}

impl Marks {
    ghost use Rattle.limits.specs.declared.journals.TheConstants.{MAX_BYTES, MAX_STEPS};

    /// Seven eighths of a full journal: 229,376 steps, 58,720,256 bytes.
    pub fn full() -> Marks
        ensures steps { 8 * result.steps ≡ 7 * MAX_STEPS }
        ensures bytes { 8 * result.bytes ≡ 7 * MAX_BYTES }
    {
        Marks {
            steps: MAX_STEPS as u64 / 8 * 7,
            bytes: MAX_BYTES / 8 * 7,
        }
    }

    /// What is to be reported after this look. Steps that are owed count as steps.
    pub fn report(&self, look: Look) -> Report
        ensures near { IsTrue result.near ↔ (IsNear self.now look ⊎ IsFull self.now look) }
        ensures full { IsTrue result.full ↔ IsFull self.now look }
    {
        let steps = look.made.max(look.spent);
        let full = self.are_reached(steps, look.bytes) || look.is_full;
        Report {
            near: full || self.are_near(steps, look.bytes),
            full,
        }
    }

    fn are_reached(&self, steps: u64, bytes: u64) -> bool
        ensures { IsTrue result ↔ AreReached self.now steps bytes }
    {
        steps >= self.steps || bytes >= self.bytes
    }

    fn are_near(&self, steps: u64, bytes: u64) -> bool
        ensures { IsTrue result ↔ AreNear self.now steps bytes }
    {
        three_quarters(self.steps) <= steps || three_quarters(self.bytes) <= bytes
    }
}

// Rounded down.
fn three_quarters(count: u64) -> u64
    ensures { result ≡ count * 3 / 4 }
{
    count / 4 * 3 + count % 4 * 3 / 4
}
