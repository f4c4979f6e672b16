ghost use Rattle.std.specs.Prelude.{◌≡◌, ◌+◌, ◌-◌, min};
ghost use Rattle.byte_sum.specs.declared.byte_sum.TheConstants.{MAX_SUM};

use std::sync::atomic::{AtomicIn, Ordering, Rule};

// A sum stays here where it would be more.
const MAX_SUM: u64 = 4_611_686_018_427_387_904;

struct StaysWithinMax;

impl Rule for StaysWithinMax {
    ghost use Rattle.std.specs.Prelude.{◌≤◌};
    ghost use Rattle.byte_sum.specs.declared.byte_sum.TheConstants.{MAX_SUM};

    ghost invariant = { λ sum. sum ≤ MAX_SUM };
}

/// The bytes of many things, at most 2^62.
#[derive(Drop)]
pub struct ByteSum {
    bytes: AtomicIn<StaysWithinMax>,
}

impl ByteSum {
    /// No byte.
    pub fn new() -> ByteSum {
        ByteSum {
            bytes: AtomicIn::new(0),
        }
    }

    /// A thing has `now` bytes in place of `before`.
    pub fn change(&self, now: u64, before: u64) {
        if now == before {
            return;
        }
        let mut sum = self.bytes.load(Ordering::SeqCst);
        for _ in 0..u64::MAX {
            let changed = sum_after(sum, now, before);
            match self
                .bytes
                .compare_exchange(sum, changed, Ordering::SeqCst, Ordering::SeqCst)
            {
                Ok(_) => return,
                Err(found) => sum = found,
            }
        }
    }

    /// Whether there are more bytes than these.
    pub fn is_more_than(&self, bytes: u64) -> bool {
        self.get() > bytes
    }

    /// All bytes together.
    pub fn get(&self) -> u64 {
        self.bytes.load(Ordering::SeqCst)
    }
}

fn sum_after(sum: u64, now: u64, before: u64) -> u64
    ensures { result ≡ min (sum - before + now) MAX_SUM }
{
    sum.saturating_sub(before).saturating_add(now).min(MAX_SUM)
}
