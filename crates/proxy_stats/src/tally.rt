ghost use Rattle.std.specs.Prelude.{◌≡◌, ◌<◌, ◌+◌, ℕ, slice_index, slice_index_or};
ghost use Rattle.proxy_stats.specs.Sums.{capped_sum, AreJoined, AreHostsJoined};
ghost use Rattle.proxy_stats.specs.declared.tally.HostCounts.{HostCounts};

use limits::MAX_HOSTS;

/// The number of kinds of the proxy's own answers.
pub const LOCAL_KINDS: usize = 7;

/// The counts of one host.
#[derive(Clone, Copy, Debug, PartialEq, Eq)]
pub struct HostCounts {
    /// Parts taken for it.
    pub sent: u64,

    /// Its replies.
    pub answered: u64,

    /// Its faults.
    pub faults: u64,

    /// Parts that waited for it or flew at a fault, with those without an owner.
    pub lost: u64,
}

/// The counts so far.
#[derive(Clone, Copy, Debug, PartialEq, Eq)]
pub struct Counts {
    /// Accepted commands.
    pub accepted: u64,

    /// Replies handed out.
    pub handed: u64,

    /// Parts taken.
    pub sent: u64,

    /// Hosts' replies.
    pub answered: u64,

    /// Parts that waited or flew at a fault of their host, with those without an owner.
    pub lost: u64,

    /// Ejections of hosts, by results and by sweeps.
    pub ejections: u64,

    /// Trips of hosts that stayed, by results and by sweeps.
    pub kept: u64,

    /// Parts without a usable host.
    pub no_host: u64,

    /// Parts for whose host too many others waited.
    pub busy: u64,

    /// Commands answered by the proxy itself, by the answer: Pong, Echoed, Bye, Invalid, Unsupported, WrongNumber, Broken.
    pub local: [u64; LOCAL_KINDS],

    /// The counts of each host, by its number; none for numbers without a host.
    pub hosts: [HostCounts; MAX_HOSTS],
}

impl HostCounts {
    pub(crate) const NONE: HostCounts = HostCounts {
        sent: 0,
        answered: 0,
        faults: 0,
        lost: 0,
    };

    fn plus(&self, other: &HostCounts) -> HostCounts
        ensures { AreHostsJoined self.now other.now result }
    {
        HostCounts {
            sent: self.sent.saturating_add(other.sent),
            answered: self.answered.saturating_add(other.answered),
            faults: self.faults.saturating_add(other.faults),
            lost: self.lost.saturating_add(other.lost),
        }
    }
}

impl Counts {
    /// Nothing happened.
    pub const NONE: Counts = Counts {
        accepted: 0,
        handed: 0,
        sent: 0,
        answered: 0,
        lost: 0,
        ejections: 0,
        kept: 0,
        no_host: 0,
        busy: 0,
        local: [0; LOCAL_KINDS],
        hosts: [HostCounts::NONE; MAX_HOSTS],
    };

    /// The sum of both counts; the greatest `u64` stands for any more.
    pub fn plus(&self, other: &Counts) -> Counts
        ensures { AreJoined self.now other.now result }
    {
        Counts {
            accepted: self.accepted.saturating_add(other.accepted),
            handed: self.handed.saturating_add(other.handed),
            sent: self.sent.saturating_add(other.sent),
            answered: self.answered.saturating_add(other.answered),
            lost: self.lost.saturating_add(other.lost),
            ejections: self.ejections.saturating_add(other.ejections),
            kept: self.kept.saturating_add(other.kept),
            no_host: self.no_host.saturating_add(other.no_host),
            busy: self.busy.saturating_add(other.busy),
            local: joined_numbers(&self.local, &other.local),
            hosts: joined_hosts(&self.hosts, &other.hosts),
        }
    }
}

fn joined_numbers(one: &[u64; LOCAL_KINDS], other: &[u64; LOCAL_KINDS]) -> [u64; LOCAL_KINDS]
    ensures { (i : ℕ) → i < 7
        → slice_index result i ≡ capped_sum (slice_index one.now i + slice_index other.now i) }
{
    let mut joined = [0; LOCAL_KINDS];
    for i in 0..LOCAL_KINDS {
        joined[i] = one[i].saturating_add(other[i]);
    }
    joined
}

fn joined_hosts(
    one: &[HostCounts; MAX_HOSTS],
    other: &[HostCounts; MAX_HOSTS],
) -> [HostCounts; MAX_HOSTS]
    ensures { (h : ℕ) (d : HostCounts) → h < 64 → AreHostsJoined (slice_index_or one.now h d)
        (slice_index_or other.now h d) (slice_index_or result h d) }
{
    let mut joined = [HostCounts::NONE; MAX_HOSTS];
    for h in 0..MAX_HOSTS {
        joined[h] = one[h].plus(&other[h]);
    }
    joined
}
