//! The settings.
ghost use Rattle.std.specs.Prelude.{◌≡◌, IfOk, IfErr, map};
ghost use Rattle.ketama.specs.Ketama.{IsKetamaRing};
ghost use Rattle.proxy_config.specs.RingParts.{AreRingParts};

use crate::error::ConfigError;
use ejector::Settings;
use ketama::{HostName, Ring, RingError};
use std::alloc::Global;
use std::net::SocketAddr;

/// A host.
#[derive(Debug, Drop)]
pub struct Host {
    /// Its name on the ring: the text of its address, as the file has it.
    pub name: HostName,

    /// Its address.
    pub address: SocketAddr,
}

/// The settings, named as their keys in the file.
#[derive(Debug)]
pub struct Config {
    /// The address for clients. By default 127.0.0.1:6379.
    pub listen: SocketAddr,

    /// 1 to 64 hosts with distinct names. There is no default.
    pub hosts: Vec<Host>,

    /// The weight of each host on the ring, from 1 to 100. By default 1 for each.
    pub weights: Vec<u32>,

    /// The number of worker threads, 1 to 64. By default 4.
    pub workers: u32,

    /// A host's reply is late after this many milliseconds, 1 to 600,000. By default 5,000.
    pub reply_ms: u32,

    /// The settings of a core: hash tags and outlier detection. Each has the range that is told there. By default they are those
    /// of `Settings::default`, but for `max_ms` where `base_ms` is more: that is then `base_ms`.
    pub core: Settings,

    ghost parts: { ∥ AreRingParts hosts.items weights.items ∥₁ },
}

impl Drop for Config {
    fn drop(self) {
        let Config {
            listen: _,
            hosts: _,
            weights: _,
            workers: _,
            reply_ms: _,
            core: _,
        } = self;
    }
}

impl Config {
    /// The ring of the hosts, by their names and weights. Settings that were read always have one.
    /// Refused with `Memory` alone.
    pub fn ring(&self, alloc: Global) -> Result<Ring, ConfigError>
        ensures ok { IfOk result
            (IsKetamaRing (map (λ h. h.name) self.now.hosts.items) self.now.weights.items) }
        ensures memory { IfErr result (λ e. e ≡ ConfigError.Memory) }
    {
        let mut names = Vec::with_capacity(alloc, self.hosts.len())?;
        for host in &self.hosts {
            names.push(copy_of(alloc, &host.name)?)?;
        }
        match Ring::build(alloc, &names, &self.weights) {
            Ok(ring) => Ok(ring),
            Err(RingError::NoMemory) => Err(ConfigError::Memory),
            Err(_) => unreachable!(),
        }
    }
}

fn copy_of(alloc: Global, name: &HostName) -> Result<HostName, ConfigError>
    ensures ok { IfOk result (λ copy. copy ≡ name.now) }
    ensures memory { IfErr result (λ e. e ≡ ConfigError.Memory) }
{
    match HostName::read(alloc, name.as_bytes()) {
        Ok(copy) => Ok(copy),
        Err(RingError::NoMemory) => Err(ConfigError::Memory),
        Err(_) => unreachable!(),
    }
}
