//! Looks added up.
ghost use Rattle.std.specs.Prelude.{false, ◌≡◌, ◌<◌, ◌∷◌, [], ℕ, List, ◌++◌, slice_index_or};
ghost use Rattle.proxy_pages.specs.declared.snapshot.Look.{Look as LookOf};
ghost use Rattle.proxy_stats.specs.declared.load.HostLoad.{HostLoad as HostLoadOf};
ghost use Rattle.proxy_server.specs.LookSums.{IsLookSum, is_out_at, with_load};

use limits::MAX_HOSTS;
use proxy_pages::{LineHosts, Look};
use proxy_stats::{HostLoad, Load};

pub(crate) fn no_look() -> Look
    ensures { IsLookSum [] result }
{
    Look::NONE
}

/// The sum of both.
pub(crate) fn both(one: &Look, other: &Look) -> Look
    ensures { (all : List LookOf) → IsLookSum all one.now
        → IsLookSum (all ++ other.now ∷ []) result }
{
    Look {
        steps: one.steps.saturating_add(other.steps),
        bytes: one.bytes.saturating_add(other.bytes),
        load: Load {
            connections: one.load.connections.saturating_add(other.load.connections),
            in_panic: one.load.in_panic || other.load.in_panic,
            hosts: both_hosts(&one.load.hosts, &other.load.hosts),
        },
    }
}

fn both_hosts(one: &[HostLoad; MAX_HOSTS], other: &[HostLoad; MAX_HOSTS]) -> [HostLoad; MAX_HOSTS]
    ensures { (h : ℕ) (d : HostLoadOf) → h < 64 → slice_index_or result h d
        ≡ with_load (slice_index_or one.now h d) (slice_index_or other.now h d) }
{
    let mut both = [HostLoad::NONE; MAX_HOSTS];
    for h in 0..MAX_HOSTS {
        both[h] = with_load(&one[h], &other[h]);
    }
    both
}

fn with_load(one: &HostLoad, other: &HostLoad) -> HostLoad
    ensures { result ≡ with_load one.now other.now }
{
    HostLoad {
        waiting: one.waiting.saturating_add(other.waiting),
        flying: one.flying.saturating_add(other.flying),
        is_out: one.is_out || other.is_out,
    }
}

/// Which hosts a line has out, by the look at its newest generation.
pub(crate) fn line_hosts(look: &Look) -> LineHosts
    ensures { (h : ℕ) → h < 64
        → slice_index_or result.are_out h false ≡ is_out_at look.now h }
{
    let mut are_out = [false; MAX_HOSTS];
    for h in 0..MAX_HOSTS {
        are_out[h] = look.load.hosts[h].is_out;
    }
    LineHosts { are_out }
}
