ghost use Rattle.std.specs.Prelude.{◌≡◌, ◌<◌, ◌*◌, length, min, None};
ghost use Rattle.ejector.specs.Settings.{first_fault};
ghost use Rattle.ejector.specs.Opening.{IsOpening};
ghost use Rattle.ejector.specs.State.{host_of, is_out};

use crate::host::{FRESH, HostState};
use crate::settings::Rules;
use limits::MAX_HOSTS;
use std::marker::Model;

/// An ejector's state, to start another from.
#[derive(Drop)]
pub struct EjectState {
    rules: Rules,
    clock: u64,
    // By number, with fresh ones behind the last host.
    hosts: [HostState; MAX_HOSTS],
}

impl Model for EjectState {
    ghost use Rattle.std.specs.Prelude.{◌≡◌, None, take};
    ghost use Rattle.ejector.specs.Ejector.{Ejection};
    ghost use Rattle.ejector.specs.Settings.{first_fault};
    ghost use Rattle.ejector.specs.Opening.{IsOpening};

    ghost Value = { Ejection };

    ghost view = { λ e. record {
      rules = e.rules;
      state = record { clock = e.clock; hosts = take e.rules.hosts e.hosts };
    } };

    ghost invariant = { λ e. (first_fault e.rules ≡ None)
        × IsOpening e.rules (record { clock = e.clock; hosts = take e.rules.hosts e.hosts }) };
}

impl EjectState {
    pub(crate) fn new(rules: Rules, clock: u64, hosts: &[HostState]) -> EjectState
        requires range { first_fault rules ≡ None }
        requires opening { IsOpening rules (record { clock = clock; hosts = hosts.now }) }
        ensures { result
            ≡ record { rules = rules; state = record { clock = clock; hosts = hosts.now } } }
    {
        let mut all = [FRESH; MAX_HOSTS];
        all[..hosts.len()].copy_from_slice(hosts);
        EjectState {
            rules,
            clock,
            hosts: all,
        }
    }

    /// The number of hosts and the settings, which allow this state.
    pub fn rules(&self) -> &Rules
        ensures rules { result.now ≡ self.now.rules }
        ensures range { first_fault self.now.rules ≡ None }
        ensures opening { IsOpening self.now.rules self.now.state }
    {
        &self.rules
    }

    /// Whether the host is ejected.
    pub fn is_out(&self, host: usize) -> bool
        requires { host < self.now.rules.hosts }
        ensures { result ≡ is_out self.now.state host }
    {
        let _rules = self.rules();
        self.hosts()[host].is_out
    }

    /// The clock at the host's last ejection, 0 without one.
    pub fn ejected_at(&self, host: usize) -> u64
        requires { host < self.now.rules.hosts }
        ensures { result ≡ (host_of self.now.state host).start }
    {
        let _rules = self.rules();
        self.hosts()[host].start
    }

    /// How long the host's ejections last now, in milliseconds.
    pub fn ejection_ms(&self, host: usize) -> u64
        requires { host < self.now.rules.hosts }
        ensures { result ≡ min (self.now.rules.settings.base_ms
            * (host_of self.now.state host).multiplier) self.now.rules.settings.max_ms }
    {
        let settings = self.rules().settings;
        let multiplier = self.hosts()[host].multiplier;
        (settings.base_ms as u64 * multiplier as u64).min(settings.max_ms as u64)
    }

    pub(crate) fn clock(&self) -> u64
        ensures { result ≡ self.now.state.clock }
    {
        self.clock
    }

    pub(crate) fn hosts(&self) -> &[HostState]
        ensures { result.now ≡ self.now.state.hosts }
    {
        &self.hosts[..self.rules.hosts]
    }
}
