ghost use Rattle.std.specs.Prelude.{◌≡◌, ◌≢◌, ◌≤◌, ◌<◌, ◌++◌, [], ℕ, List, slice_index};
ghost use Rattle.proxy_histogram.specs.Values.{IsOf};
ghost use Rattle.proxy_histogram.specs.HostDurations.{AddsTo, durations_at};

use crate::histogram::Histogram;
use limits::MAX_HOSTS;

/// How long the hosts took for their replies, by the number of the host.
#[derive(Clone, Copy)]
pub struct HostDurations {
    hosts: [Histogram; MAX_HOSTS],
}

impl HostDurations {
    /// No host has replied.
    pub fn new() -> HostDurations
        ensures { (i : ℕ) → i < MAX_HOSTS → IsOf [] (durations_at result.hosts i) }
    {
        HostDurations {
            hosts: [Histogram::new(); MAX_HOSTS],
        }
    }

    /// Each host's durations, by its number.
    pub fn hosts(&self) -> &[Histogram; MAX_HOSTS]
        ensures { result.now ≡ self.now.hosts }
    {
        &self.hosts
    }

    /// Adds durations of a host. Ignored for a number past the hosts.
    pub fn add(&mut self, host: usize, durations: &Histogram)
        ensures added { host < MAX_HOSTS → AddsTo (durations_at self.old.hosts host)
            durations.now (durations_at self.new.hosts host) }
        ensures others { (i : ℕ) → i ≢ host
            → durations_at self.new.hosts i ≡ durations_at self.old.hosts i }
        ensures ignored { MAX_HOSTS ≤ host → self.new ≡ self.old }
    {
        if host < MAX_HOSTS {
            let sum = self.hosts[host].plus(durations);
            self.hosts[host] = sum;
        }
    }
}
