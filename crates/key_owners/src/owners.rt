//! Which host owns a key.
ghost use Rattle.std.specs.Prelude.{IfOk, IfErr};
ghost use Rattle.proxy_config.specs.File.{IsRefusal};
ghost use Rattle.key_owners.specs.Owners.{AreOwnersOf, IsOwnerName};

use ketama::{Ring, point_of_key};
use proxy_config::{Config, ConfigError};
use std::alloc::Global;
use std::marker::Model;

/// The hosts of settings, and their ring. No host is ejected.
#[derive(Drop)]
pub struct KeyOwners {
    config: Config,
    ring: Ring,
    usable: Vec<bool>,
}

impl Model for KeyOwners {
    ghost use Rattle.std.specs.Prelude.{map};
    ghost use Rattle.key_owners.specs.Owners.{HasOwners, Owners};

    ghost Value = { Owners };

    ghost view = { λ k. record {
      pairs = k.ring.pairs;
      names = map (λ h. h.name) k.config.hosts.items;
      tags = k.config.core.tags;
    } };

    ghost invariant = { λ k. HasOwners k.ring
        (map (λ h. h.name) k.config.hosts.items) k.usable.items };
}

impl KeyOwners {
    /// Those of the settings in these bytes, as `serve` has them. Refused as `Config::read`, and with `Memory`.
    pub fn read(alloc: Global, bytes: &[u8]) -> Result<KeyOwners, ConfigError>
        ensures ok { IfOk result (λ owners. AreOwnersOf bytes.now owners) }
        ensures refused { IfErr result (λ e. IsRefusal bytes.now e) }
    {
        let config = Config::read(alloc, bytes)?;
        let ring = config.ring(alloc)?;
        let usable = vec![in alloc; true; config.hosts.len()]?;
        Ok(KeyOwners {
            config,
            ring,
            usable,
        })
    }

    /// The name of the key's host: its address, as in the settings.
    pub fn owner(&self, key: &[u8]) -> &[u8]
        ensures { IsOwnerName self.now key.now result.now }
    {
        let point = point_of_key(key, self.config.core.tags);
        match self.ring.owner(point, &self.usable) {
            Some(host) => self.config.hosts[host].name.as_bytes(),
            None => unreachable!(),
        }
    }
}
