ghost use Rattle.std.specs.Prelude.{◌≡◌, true, ◌↔◌, ◌<◌, ◌≤◌, ◌*◌, List, ℕ, length, All, Any, IfOk, IfSome, IsOkUnless, IsErrOf, IsTrue, Contains};
ghost use Rattle.ketama.specs.Owner.{is_usable, IsOwner, owner_of};
ghost use Rattle.ketama.specs.Ketama.{AreWeights, HasSameName, IsKetamaRing};
ghost use Rattle.ketama.specs.GivenPoints.{HasBadPoint, IsRingOfPoints};

use crate::error::RingError;
use crate::name::HostName;
use crate::owner::{Pair, owner};
use crate::point::{pairs_of, put_in_order};
use crate::share::{digest_counts, sum};
use limits::{MAX_HOSTS, MAX_WEIGHT};
use std::alloc::Global;
use std::marker::Model;

/// A ring: the points of hosts, which are numbered from 0.
#[derive(Debug, Drop)]
pub struct Ring {
    hosts: usize,
    digests: u32,
    pairs: Vec<Pair>,
}

impl Model for Ring {
    ghost use Rattle.ketama.specs.Continuum.{Continuum, IsContinuum};

    ghost Value = { Continuum };

    ghost view = { λ r. record { hosts = r.hosts; digests = r.digests; pairs = r.pairs.items } };

    ghost invariant = { λ r. IsContinuum (record {
      hosts = r.hosts;
      digests = r.digests;
      pairs = r.pairs.items;
    }) };
}

impl Ring {
    /// The ring of libketama for the hosts with these names and weights.
    ///
    /// With `n` hosts and the sum of weights `W`, a host of weight `w` has `40 * n * w / W` digests, rounded down: 40
    /// where all weights are equal. Digest `k`, from 0, of the host with name `s` is the MD5 of the text `s-k`. It
    /// gives four points of four bytes, the least significant first. A host of little weight may have no point, and
    /// still counts among the hosts. A ring of no hosts has no points.
    ///
    /// Refused, in this order: `TooManyHosts` (303) with more than 64 names, `BadWeights` (304) unless each name has a
    /// weight from 1 to 100, `SameName` (302) if two names are equal, and `NoMemory` (301).
    pub fn build(alloc: Global, names: &[HostName], weights: &[u32]) -> Result<Ring, RingError>
        ensures ok { IfOk result (IsKetamaRing names.now weights.now) }

        ensures too_many { IsErrOf result RingError.TooManyHosts ↔ (MAX_HOSTS < length names.now) }
        ensures bad_weights { IsErrOf result RingError.BadWeights
            ↔ ((length names.now ≤ MAX_HOSTS) × ¬ AreWeights (length names.now) weights.now) }
        ensures same_name { IsErrOf result RingError.SameName
            ↔ ((length names.now ≤ MAX_HOSTS) × AreWeights (length names.now) weights.now
            × HasSameName names.now) }
        ensures good { length names.now ≤ MAX_HOSTS → AreWeights (length names.now) weights.now
            → ¬ HasSameName names.now → IsOkUnless result RingError.NoMemory }
    {
        if names.len() > MAX_HOSTS {
            return Err(RingError::TooManyHosts);
        }
        if !are_weights(weights, names.len()) {
            return Err(RingError::BadWeights);
        }
        if has_same_name(names) {
            return Err(RingError::SameName);
        }
        let counts = digest_counts(alloc, weights)?;
        let pairs = pairs_of(alloc, names, &counts)?;
        Ok(Ring {
            hosts: names.len(),
            digests: sum(&counts),
            pairs,
        })
    }

    /// The ring of these points, each with the number of its host, of `hosts` hosts.
    ///
    /// Refused, in this order: `TooManyHosts` (303) with more than 64 hosts, `BadPoint` (306) if a host's number isn't
    /// below `hosts`, and `NoMemory` (301).
    pub fn of_points(
        alloc: Global,
        hosts: usize,
        points: &[(u32, usize)],
    ) -> Result<Ring, RingError>
        ensures ok { IfOk result (IsRingOfPoints hosts points.now) }

        ensures too_many { IsErrOf result RingError.TooManyHosts ↔ (MAX_HOSTS < hosts) }
        ensures bad_point { IsErrOf result RingError.BadPoint
            ↔ ((hosts ≤ MAX_HOSTS) × HasBadPoint hosts points.now) }
        ensures good { hosts ≤ MAX_HOSTS → ¬ HasBadPoint hosts points.now
            → IsOkUnless result RingError.NoMemory }
    {
        if hosts > MAX_HOSTS {
            return Err(RingError::TooManyHosts);
        }
        if has_bad_point(hosts, points) {
            return Err(RingError::BadPoint);
        }
        let mut pairs = Vec::from_slice(alloc, points)?;
        put_in_order(&mut pairs);
        Ok(Ring {
            hosts,
            digests: 0,
            pairs,
        })
    }

    /// The number of hosts, at most 64.
    pub fn hosts(&self) -> usize
        ensures value { result ≡ self.now.hosts }
        ensures few { result ≤ MAX_HOSTS }
    {
        self.hosts
    }

    /// The number of digests; 0 after `of_points`.
    pub fn digests(&self) -> u32
        ensures { result ≡ self.now.digests }
    {
        self.digests
    }

    /// The usable host that owns the point: the host of the least point at or above it, or past the last point of the
    /// least of all. Of equal points the lower host's counts. `usable` says which hosts are usable. `None` exactly if
    /// no usable host has a point. Takes no memory.
    pub fn owner(&self, point: u32, usable: &[bool]) -> Option<usize>
        requires { length usable.now ≡ self.now.hosts }
        ensures owner { IsOwner self.now.pairs point usable.now result }
        ensures value { result ≡ owner_of self.now.pairs point usable.now }
        ensures usable { IfSome result (λ host. is_usable usable.now host ≡ true) }
        ensures in_range { IfSome result (λ host. host < self.now.hosts) }
    {
        owner(&self.pairs, point, usable)
    }
}

fn are_weights(weights: &[u32], hosts: usize) -> bool
    ensures { IsTrue result ↔ AreWeights hosts weights.now }
{
    weights.len() == hosts && weights.iter().all(|w| (1..=MAX_WEIGHT).contains(w))
}

fn has_same_name(names: &[HostName]) -> bool
    ensures { IsTrue result ↔ HasSameName names.now }
{
    for (j, name) in names.iter().enumerate() {
        if has_name(&names[..j], name) {
            return true;
        }
    }
    false
}

fn has_name(names: &[HostName], name: &HostName) -> bool
    ensures { IsTrue result ↔ Contains names.now name.now }
{
    names
        .iter()
        .any(|other| other.as_bytes() == name.as_bytes())
}

fn has_bad_point(hosts: usize, points: &[Pair]) -> bool
    ensures { IsTrue result ↔ HasBadPoint hosts points.now }
{
    points.iter().any(|point| point.1 >= hosts)
}
