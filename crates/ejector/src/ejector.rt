ghost use Rattle.std.specs.Prelude.{◌≡◌, List, ◌∷◌, ◌<◌, ◌≤◌, IfOk, IfErr, IsOk, IsErrOf, MatchOption, None, length, map};
ghost use Rattle.ejector.specs.Settings.{first_fault};
ghost use Rattle.ejector.specs.declared.mark.Mark.{Mark};
ghost use Rattle.ejector.specs.declared.mark.Mark.TheVariants.{Sweep};
ghost use Rattle.ejector.specs.State.{State, fresh_state, host_of, hosts_of, is_out, out_count};
ghost use Rattle.ejector.specs.Opening.{IsOpening};
ghost use Rattle.ejector.specs.Trips.{most_out};
ghost use Rattle.ejector.specs.Ejection.{state, trip, sweep_answer};
ghost use Rattle.ejector.specs.UsableHosts.{is_usable, is_panic};
ghost use Rattle.ejector.specs.Ejector.{result_mark};

use crate::answer::{Swept, Trip};
use crate::counting::{is_panic, out_count, set_all, set_in, take_bad, take_good};
use crate::error::EjectError;
use crate::host::{FRESH, HostState};
use crate::settings::{Rules, Settings};
use crate::snapshot::EjectState;
use crate::sweep::take_sweep;
use limits::MAX_HOSTS;
use std::alloc::Global;
use std::marker::Model;

/// Outlier detection over the hosts 0 to `n - 1`, by results and sweeps. Only `new` and `new_from` take memory.
#[derive(Drop)]
pub struct Ejector {
    rules: Rules,
    clock: u64,
    hosts: Vec<HostState>,
}

impl Model for Ejector {
    ghost use Rattle.std.specs.Prelude.{◌≡◌, None};
    ghost use Rattle.ejector.specs.Ejector.{Ejection};
    ghost use Rattle.ejector.specs.Settings.{first_fault};
    ghost use Rattle.ejector.specs.Opening.{IsOpening};

    ghost Value = { Ejection };

    ghost view = { λ e. record {
      rules = e.rules;
      state = record { clock = e.clock; hosts = e.hosts.items };
    } };

    ghost invariant = { λ e. (first_fault e.rules ≡ None)
        × IsOpening e.rules (record { clock = e.clock; hosts = e.hosts.items }) };
}

impl Ejector {
    /// An ejector of `n` hosts without a mark.
    ///
    /// Refused 502 exactly if a field is out of its range, with the first such: `hosts` if `n` is 0 or over 64, then
    /// the settings in their order. If none is, it is refused only 501, for want of memory.
    pub fn new(alloc: Global, n: usize, settings: Settings) -> Result<Ejector, EjectError>
        ensures made { IfOk result (λ e. (e.rules ≡ record { hosts = n; settings = settings })
            × (e.state ≡ fresh_state e.rules)) }
        ensures refused { MatchOption (first_fault (record { hosts = n; settings = settings }))
            (IfErr result (λ e. e ≡ EjectError.NoMemory))
            (λ field. IsErrOf result (EjectError.BadSettings field)) }
    {
        let rules = Rules { hosts: n, settings };
        if let Some(field) = rules.first_fault() {
            return Err(EjectError::BadSettings { field });
        }
        let fresh = [FRESH; MAX_HOSTS];
        Ok(Ejector {
            rules,
            clock: 0,
            hosts: Vec::from_slice(alloc, &fresh[..n])?,
        })
    }

    /// An ejector that starts from another's state: its hosts and settings, its clock, which hosts are out and until
    /// when, and multipliers, streaks and tallies.
    ///
    /// Refused only 501, for want of memory.
    pub fn new_from(alloc: Global, from: EjectState) -> Result<Ejector, EjectError>
        ensures made { IfOk result (λ e. e ≡ from) }
        ensures refused { IfErr result (λ e. e ≡ EjectError.NoMemory) }
    {
        Ok(Ejector {
            rules: *from.rules(),
            clock: from.clock(),
            hosts: Vec::from_slice(alloc, from.hosts())?,
        })
    }

    /// The state. An ejector made from it goes on as this one would.
    pub fn snapshot(&self) -> EjectState
        ensures { result ≡ self.now }
    {
        EjectState::new(self.rules, self.clock, &self.hosts)
    }

    /// The number of hosts and the settings.
    pub fn rules(&self) -> &Rules
        ensures rules { result.now ≡ self.now.rules }
        ensures range { first_fault self.now.rules ≡ None }
        ensures opening { IsOpening self.now.rules self.now.state }
    {
        &self.rules
    }

    /// Takes a result of a host at moment `t`, and returns its effect. It is always Ok. It looks at all hosts only
    /// if the host trips.
    pub fn result(&mut self, host: usize, ok: bool, t: u64) -> Result<Trip, EjectError>
        requires { host < self.old.rules.hosts }
        ensures state { (O : State) (marks : List Mark)
            → state self.old.rules O marks ≡ self.old.state
            → self.new.state ≡ state self.old.rules O (result_mark ok host t ∷ marks) }
        ensures trip { IfOk result (λ answer. (O : State) (marks : List Mark)
            → state self.old.rules O marks ≡ self.old.state
            → answer ≡ trip self.old.rules O (result_mark ok host t) marks) }
        ensures limit { out_count self.new.state ≤ most_out self.new.rules }
        ensures succeeds { IsOk result }
        ensures rules { self.new.rules ≡ self.old.rules }
    {
        self.clock = self.clock.max(t);
        if ok {
            take_good(&mut self.hosts, host);
            return Ok(Trip::None);
        }
        Ok(take_bad(&self.rules, self.clock, &mut self.hosts, host))
    }

    /// Takes a sweep at moment `t`. It is always Ok.
    pub fn sweep(&mut self, t: u64) -> Result<Swept, EjectError>
        ensures state { (O : State) (marks : List Mark)
            → state self.old.rules O marks ≡ self.old.state
            → self.new.state ≡ state self.old.rules O (Sweep t ∷ marks) }
        ensures swept { IfOk result (λ answer. (O : State) (marks : List Mark)
            → state self.old.rules O marks ≡ self.old.state
            → answer ≡ sweep_answer self.old.rules O (Sweep t) marks) }
        ensures limit { out_count self.new.state ≤ most_out self.new.rules }
        ensures succeeds { IsOk result }
        ensures rules { self.new.rules ≡ self.old.rules }
    {
        self.clock = self.clock.max(t);
        Ok(take_sweep(&self.rules, self.clock, &mut self.hosts))
    }

    /// Whether the host isn't out, or all are used in panic.
    pub fn usable(&self, host: usize) -> bool
        requires { host < self.now.rules.hosts }
        ensures { result ≡ is_usable self.now.rules self.now.state host }
    {
        self.in_panic() || !self.is_out(host)
    }

    /// Writes whether each host may be used, in its place.
    pub fn all_usable(&self, usable: &mut [bool])
        requires { length usable.old ≡ self.now.rules.hosts }
        ensures { usable.new ≡ map (is_usable self.now.rules self.now.state)
            (hosts_of self.now.rules) }
    {
        let out = set_in(&self.hosts, usable);
        if is_panic(&self.rules, out) {
            set_all(usable);
        }
    }

    /// Whether the host is ejected.
    pub fn is_out(&self, host: usize) -> bool
        requires { host < self.now.rules.hosts }
        ensures { result ≡ is_out self.now.state host }
    {
        self.hosts[host].is_out
    }

    /// The host's last ejection lasts this many times `base_ms`. Each sweep that finds it not out lowers it by one.
    pub fn multiplier(&self, host: usize) -> u32
        requires { host < self.now.rules.hosts }
        ensures { result ≡ (host_of self.now.state host).multiplier }
    {
        self.hosts[host].multiplier
    }

    /// Whether too few hosts are available, so that all are used.
    pub fn in_panic(&self) -> bool
        ensures { result ≡ is_panic self.now.rules self.now.state }
    {
        is_panic(&self.rules, out_count(&self.hosts))
    }
}
