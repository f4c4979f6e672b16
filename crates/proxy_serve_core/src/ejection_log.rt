ghost use Rattle.std.specs.Prelude.{◌≡◌, ◌↔◌, ◌+◌, ◌-◌, ◌/◌, IsTrue, None, replicate, slice_index_or, IfOk};
ghost use Rattle.proxy_serve_core.specs.EjectionLog.{IsNews, first_of, merged, noted};

use std::alloc::{AllocError, Global};
use std::marker::Model;

/// Why a host was put aside.
#[derive(Clone, Copy, Debug, PartialEq, Eq)]
pub enum EjectionReason {
    /// So many failures in a row.
    Streak,
    /// Its share of failures, at a sweep.
    Rate,
}

/// A host that is put aside. Moments are in milliseconds.
#[derive(Clone, Copy, Debug, PartialEq, Eq)]
pub struct EjectedHost {
    /// Why.
    pub reason: EjectionReason,
    /// Since when.
    pub at: u64,
    /// At the first sweep from then on it returns.
    pub until: u64,
}

impl EjectedHost {
    /// The seconds until it may return, rounded up.
    pub fn seconds_left(&self, now: u64) -> u64
        ensures { result ≡ (self.now.until - now + 999) / 1000 }
    {
        let ms = self.until.saturating_sub(now);
        ms.div_ceil(1_000)
    }

    /// Of two hosts that are out, the one that returns first.
    pub fn first(one: Option<EjectedHost>, other: Option<EjectedHost>) -> Option<EjectedHost>
        ensures { result ≡ first_of one other }
    {
        match (one, other) {
            (Some(one), Some(other)) if other.until < one.until => Some(other),
            (Some(one), _) => Some(one),
            (None, other) => other,
        }
    }
}

/// What the log says of each host, over all generations. Only the newest one that looked changes it, so that
/// ejections and returns of a host take turns.
#[derive(Drop)]
pub struct EjectionLog {
    newest: u64,
    hosts: Vec<Option<EjectedHost>>,
}

impl Model for EjectionLog {
    ghost use Rattle.proxy_serve_core.specs.EjectionLog.{EjectionLogState};

    ghost Value = { EjectionLogState };

    ghost view = { λ l. record { newest = l.newest; hosts = l.hosts.items } };
}

impl EjectionLog {
    /// No host is ejected. Refused only where there is no memory.
    pub fn new(alloc: Global, hosts: usize) -> Result<EjectionLog, AllocError>
        ensures { IfOk result (λ l. l ≡ record { newest = 0; hosts = replicate hosts None }) }
    {
        Ok(EjectionLog {
            newest: 0,
            hosts: vec![in alloc; None; hosts]?,
        })
    }

    /// Takes in whether a generation has the host ejected, and why; the first reason of an ejection stays. True: that it is, or
    /// that it isn't, is news to be logged. False: the log has it, a newer generation has looked, or there is no such host.
    pub fn note(&mut self, number: u64, host: usize, seen: Option<EjectedHost>) -> bool
        ensures news { IsTrue result ↔ IsNews self.old number host seen }
        ensures noted { self.new ≡ noted self.old number host seen }
    {
        if number < self.newest {
            return false;
        }
        self.newest = number;
        let Some(kept) = self.hosts.get_mut(host) else {
            return false;
        };
        let is_news = kept.is_some() != seen.is_some();
        *kept = merged(*kept, seen);
        is_news
    }

    /// The host as the log has it. `None`: it isn't ejected, or there is no such host.
    pub fn ejected(&self, host: usize) -> Option<EjectedHost>
        ensures { result ≡ slice_index_or self.now.hosts host None }
    {
        match self.hosts.get(host) {
            Some(ejected) => *ejected,
            None => None,
        }
    }
}

fn merged(kept: Option<EjectedHost>, seen: Option<EjectedHost>) -> Option<EjectedHost>
    ensures { result ≡ merged kept seen }
{
    match (kept, seen) {
        (Some(kept), Some(seen)) if kept.at == seen.at => Some(kept),
        _ => seen,
    }
}
