ghost use Rattle.std.specs.Prelude.{◌≡◌, ◌+◌, ◌-◌, ◌*◌, ◌<◌, ◌≤◌, ◌&&◌, length, map, count_by, is_some, nat_le, All};
ghost use Rattle.std.specs.Option.{ForSome};
ghost use Rattle.std.specs.List.{range_with_len};
ghost use Rattle.ejector.specs.Settings.{IsInRange};
ghost use Rattle.ejector.specs.Sweeps.{is_time_over, trips_by};
ghost use Rattle.ejector.specs.Counting.{is_returning, with_return, rate_then, in_new_interval, at_turn, is_ejected_at, is_kept_at, outs, swept_hosts, swept_counts};

use crate::answer::Swept;
use crate::counting::{may_eject, out_count, tripped};
use crate::host::HostState;
use crate::settings::Rules;
use limits::MAX_HOSTS;
use rate_core::{is_outlier, rate};

fn is_time_over(rules: &Rules, now: u64, host: HostState) -> bool
    ensures { result ≡ is_time_over rules.now now host }
{
    let settings = &rules.settings;
    let lasts = u64::from(settings.base_ms) * u64::from(host.multiplier);
    lasts.min(u64::from(settings.max_ms)) <= now.saturating_sub(host.start)
}

fn is_returning(rules: &Rules, now: u64, host: HostState) -> bool
    ensures { result ≡ is_returning rules.now now host }
{
    host.is_out && is_time_over(rules, now, host)
}

/// The multiplier of a host that isn't out falls by one.
fn with_return(rules: &Rules, now: u64, host: HostState) -> HostState
    ensures { result ≡ with_return rules.now now host }
{
    if !host.is_out {
        return HostState {
            multiplier: host.multiplier.saturating_sub(1),
            ..host
        };
    }
    if !is_time_over(rules, now, host) {
        return host;
    }
    HostState {
        is_out: false,
        streak: 0,
        ..host
    }
}

fn return_hosts(rules: &Rules, now: u64, hosts: &mut [HostState]) -> u32
    requires few { length hosts.old ≤ MAX_HOSTS }
    ensures hosts { hosts.new ≡ map (with_return rules.now now) hosts.old }
    ensures count { result ≡ count_by (is_returning rules.now now) hosts.old }
{
    let mut returned = 0;
    for host in hosts.iter_mut() {
        let before = *host;
        if is_returning(rules, now, before) {
            returned += 1;
        }
        *host = with_return(rules, now, before);
    }
    returned
}

fn rate_of(rules: &Rules, host: HostState) -> Option<u32>
    requires { host.good_results ≤ host.results }
    ensures value { result ≡ rate_then rules.now host }
    ensures within { ForSome result (λ share. share ≤ 1000000) }
{
    if host.is_out || host.results < rules.settings.request_volume {
        return None;
    }
    rate(host.good_results, host.results)
}

fn set_rates(rules: &Rules, hosts: &[HostState], rates: &mut [Option<u32>])
    requires same { length rates.old ≡ length hosts.now }
    requires share { All (λ host. host.good_results ≤ host.results) hosts.now }
    ensures value { rates.new ≡ map (rate_then rules.now) hosts.now }
    ensures within { All (λ rate. ForSome rate (λ share. share ≤ 1000000)) rates.new }
{
    for i in 0..hosts.len() {
        rates[i] = rate_of(rules, hosts[i]);
    }
}

fn known_count(rates: &[Option<u32>]) -> usize
    ensures { result ≡ count_by is_some rates.now }
{
    rates.iter().filter(|rate| rate.is_some()).count()
}

#[derive(Clone, Copy)]
struct TripCounts {
    ejected: u32,
    kept: u32,
}

fn trips(rules: &Rules, enough: bool, rates: &[Option<u32>], host: usize) -> bool
    requires range { IsInRange rules.now }
    requires same { length rates.now ≡ rules.now.hosts }
    requires within { All (λ rate. ForSome rate (λ share. share ≤ 1000000)) rates.now }
    requires among { host < rules.now.hosts }
    requires enough { enough ≡ nat_le rules.now.settings.success_hosts
        (count_by is_some rates.now) }
    ensures { result ≡ trips_by rules.now rates.now host }
{
    enough && is_outlier(rates, host, rules.settings.factor)
}

fn trip_outliers(
    rules: &Rules,
    now: u64,
    hosts: &mut [HostState],
    rates: &[Option<u32>],
) -> TripCounts
    requires range { IsInRange rules.now }
    requires all { length hosts.old ≡ rules.now.hosts }
    requires same { length rates.now ≡ rules.now.hosts }
    requires within { All (λ rate. ForSome rate (λ share. share ≤ 1000000)) rates.now }
    ensures hosts { hosts.new ≡ map (at_turn rules.now now (trips_by rules.now rates.now)
        (outs hosts.old) hosts.old)
        (range_with_len 0 rules.now.hosts) }
    ensures ejected { result.ejected ≡ count_by
        (is_ejected_at rules.now (trips_by rules.now rates.now) (outs hosts.old))
        (range_with_len 0 rules.now.hosts) }
    ensures kept { result.kept ≡ count_by (is_kept_at rules.now (trips_by rules.now rates.now)
        (outs hosts.old))
        (range_with_len 0 rules.now.hosts) }
{
    let enough = known_count(rates) >= rules.settings.success_hosts as usize;
    let mut out = out_count(hosts);
    let mut ejected = 0;
    let mut kept = 0;
    for i in 0..rates.len() {
        if trips(rules, enough, rates, i) {
            let may = may_eject(rules, out);
            let before = hosts[i];
            hosts[i] = tripped(rules, now, may, before);
            if may {
                out += 1;
                ejected += 1;
            } else {
                kept += 1;
            }
        }
    }
    TripCounts { ejected, kept }
}

fn clear_tallies(hosts: &mut [HostState])
    ensures { hosts.new ≡ map in_new_interval hosts.old }
{
    for host in hosts.iter_mut() {
        host.good_results = 0;
        host.results = 0;
    }
}

/// Hosts come back, then outliers trip, and then a new interval begins.
pub(crate) fn take_sweep(rules: &Rules, now: u64, hosts: &mut [HostState]) -> Swept
    requires range { IsInRange rules.now }
    requires all { length hosts.old ≡ rules.now.hosts }
    requires share { All (λ host. host.good_results ≤ host.results) hosts.old }
    ensures hosts { hosts.new ≡ swept_hosts rules.now now hosts.old }
    ensures swept { result ≡ swept_counts rules.now now hosts.old }
{
    let returned = return_hosts(rules, now, hosts);
    let mut places = [None; MAX_HOSTS];
    let rates = &mut places[..rules.hosts];
    set_rates(rules, hosts, rates);
    let TripCounts { ejected, kept } = trip_outliers(rules, now, hosts, rates);
    clear_tallies(hosts);
    Swept {
        returned,
        ejected,
        kept,
    }
}
