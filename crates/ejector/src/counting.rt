ghost use Rattle.std.specs.Prelude.{◌≡◌, ◌+◌, ◌-◌, ◌*◌, ◌/◌, ◌<◌, ◌≤◌, ◌==◌, ◌&&◌, length, map, replicate, slice_index_or, nat_lt, true};
ghost use Rattle.ejector.specs.Settings.{IsInRange};
ghost use Rattle.ejector.specs.CountedState.{max_multiplier};
ghost use Rattle.ejector.specs.Opening.{IsSound};
ghost use Rattle.ejector.specs.State.{fresh_host};
ghost use Rattle.ejector.specs.Trips.{may_eject};
ghost use Rattle.ejector.specs.Counting.{host_with_result, with_bad, ejected_host, kept_host, tripped_host, outs, trips_then, with_good_result, with_bad_result, trip_then, is_in};

use crate::answer::Trip;
use crate::host::HostState;
use crate::settings::Rules;

fn counted(host: HostState, ok: bool) -> HostState
    requires { host.good_results ≤ host.results }
    ensures { result ≡ host_with_result ok host }
{
    if host.results == u32::MAX {
        return host;
    }
    HostState {
        good_results: host.good_results + u32::from(ok),
        results: host.results + 1,
        ..host
    }
}

fn max_multiplier(rules: &Rules) -> u32
    requires { IsInRange rules.now }
    ensures { result ≡ max_multiplier rules.now }
{
    let settings = &rules.settings;
    (settings.max_ms + settings.base_ms - 1) / settings.base_ms
}

fn without_streak(host: HostState) -> HostState
    ensures { result ≡ kept_host host }
{
    HostState { streak: 0, ..host }
}

fn ejected(rules: &Rules, now: u64, host: HostState) -> HostState
    requires { IsInRange rules.now }
    ensures { result ≡ ejected_host rules.now now host }
{
    let raised = host.multiplier.saturating_add(1);
    HostState {
        is_out: true,
        start: now,
        streak: 0,
        multiplier: raised.min(max_multiplier(rules)),
        ..host
    }
}

/// `may`: one more host may be out.
pub(crate) fn tripped(rules: &Rules, now: u64, may: bool, host: HostState) -> HostState
    requires { IsInRange rules.now }
    ensures { result ≡ tripped_host rules.now now may host }
{
    if may {
        ejected(rules, now, host)
    } else {
        without_streak(host)
    }
}

pub(crate) fn may_eject(rules: &Rules, out: usize) -> bool
    requires range { IsInRange rules.now }
    requires few { out ≤ 128 }
    ensures { result ≡ may_eject rules.now out }
{
    out == 0 || 100 * out < rules.settings.max_percent as usize * rules.hosts
}

pub(crate) fn is_panic(rules: &Rules, out: usize) -> bool
    requires range { IsInRange rules.now }
    requires within { out ≤ rules.now.hosts }
    ensures { result ≡ nat_lt (100 * (rules.now.hosts - out))
        (rules.now.settings.panic_percent * rules.now.hosts) }
{
    100 * (rules.hosts - out) < rules.settings.panic_percent as usize * rules.hosts
}

/// Returns the number of hosts that are out.
pub(crate) fn set_in(hosts: &[HostState], places: &mut [bool]) -> usize
    requires { length places.old ≡ length hosts.now }
    ensures places { places.new ≡ map is_in hosts.now }
    ensures count { result ≡ outs hosts.now }
    ensures within { result ≤ length hosts.now }
{
    let mut out = 0;
    for i in 0..hosts.len() {
        places[i] = !hosts[i].is_out;
        if hosts[i].is_out {
            out += 1;
        }
    }
    out
}

pub(crate) fn set_all(places: &mut [bool])
    ensures { places.new ≡ replicate (length places.old) true }
{
    for i in 0..places.len() {
        places[i] = true;
    }
}

pub(crate) fn out_count(hosts: &[HostState]) -> usize
    ensures count { result ≡ outs hosts.now }
    ensures within { result ≤ length hosts.now }
{
    hosts.iter().filter(|host| host.is_out).count()
}

fn trips(rules: &Rules, host: HostState) -> bool
    requires range { IsInRange rules.now }
    requires sound { IsSound rules.now host }
    ensures { result ≡ trips_then rules.now host }
{
    let consecutive = rules.settings.consecutive;
    !host.is_out && 0 < consecutive && host.streak + 1 == consecutive
}

fn with_bad(rules: &Rules, host: HostState) -> HostState
    requires range { IsInRange rules.now }
    requires sound { IsSound rules.now host }
    ensures { result ≡ with_bad rules.now host }
{
    let is_counted = !host.is_out && rules.settings.consecutive != 0;
    HostState {
        streak: if is_counted {
            host.streak + 1
        } else {
            host.streak
        },
        ..counted(host, false)
    }
}

pub(crate) fn take_good(hosts: &mut [HostState], host: usize)
    requires among { host < length hosts.old }
    requires share { (slice_index_or hosts.old host fresh_host).good_results ≤
        (slice_index_or hosts.old host fresh_host).results }
    ensures { hosts.new ≡ with_good_result host hosts.old }
{
    let after = counted(hosts[host], true);
    hosts[host] = without_streak(after);
}

pub(crate) fn take_bad(rules: &Rules, now: u64, hosts: &mut [HostState], host: usize) -> Trip
    requires range { IsInRange rules.now }
    requires all { length hosts.old ≡ rules.now.hosts }
    requires among { host < length hosts.old }
    requires sound { IsSound rules.now (slice_index_or hosts.old host fresh_host) }
    ensures hosts { hosts.new ≡ with_bad_result rules.now now host hosts.old }
    ensures trip { result ≡ trip_then rules.now host hosts.old }
{
    let before = hosts[host];
    if !trips(rules, before) {
        hosts[host] = with_bad(rules, before);
        return Trip::None;
    }
    let may = may_eject(rules, out_count(hosts));
    hosts[host] = tripped(rules, now, may, counted(before, false));
    if may { Trip::Ejected } else { Trip::Kept }
}
