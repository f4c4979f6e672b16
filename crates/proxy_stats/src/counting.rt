ghost use Rattle.std.specs.Prelude.{◌≡◌, ◌<◌, ◌^◌, true, All, length};
ghost use Rattle.proxy_stats.specs.Amounts.{ejected_hosts, kept_hosts};
ghost use Rattle.proxy_stats.specs.Sums.{AreCounts, AreCapped};

use crate::tally::Counts;
use proxy_core::{Answer, Core, Event, Journal};

/// The counts so far of a core's journal, which is read once.
pub fn counts(core: &Core) -> Counts
    ensures { AreCounts core.now.steps result }
{
    counts_of(core.journal())
}

fn counts_of(journal: &Journal<Event, Answer>) -> Counts
    requires { journal.now.records ≡ true }
    ensures counts { AreCapped journal.now.steps result }
    ensures few { All (λ s. (ejected_hosts s < 2 ^ 32)
        × (kept_hosts s < 2 ^ 32)) journal.now.steps }
    ensures kinds { length result.local ≡ 7 }
    ensures hosts { length result.hosts ≡ 64 }
{
    let mut counts = Counts::NONE;
    for i in 0..journal.len() {
        if let Some(step) = journal.get(i) {
            counts.add(step);
        }
    }
    counts
}
