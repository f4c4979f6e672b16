ghost use Rattle.std.specs.Prelude.{◌≡◌, ◌↔◌, ◌≤◌, Some, List, length, IsTrue, IfOk, IfErr, codes, Any, AllPairs, ◌≢◌};
ghost use Rattle.serde_json.specs.Data.{array};
ghost use Rattle.serde_json.specs.Find.{get};
ghost use Rattle.serde_json.specs.View.{view, items_view};
ghost use Rattle.proxy_config.specs.declared.config.Host.{Host};
ghost use Rattle.proxy_config.specs.Table.{AreHosts, host_data, IsHost};
ghost use Rattle.proxy_config.specs.Refusals.{FirstAre, IsFault};

use crate::config::Host;
use crate::error::ConfigError;
use ketama::{HostName, RingError};
use limits::MAX_HOSTS;
use serde_json::Value;
use std::alloc::Global;
use std::net::SocketAddr;

pub(crate) fn hosts(alloc: Global, file: &Value) -> Result<Vec<Host>, ConfigError>
    ensures ok { IfOk result (λ hosts. AreHosts (get (codes "hosts") (view file.now)) hosts.items) }
    ensures fault { IfErr result (λ e. ¬ (e ≡ ConfigError.Memory) → IsFault e (codes "hosts")) }
    ensures none { IfErr result (λ e. ¬ (e ≡ ConfigError.Memory)
        → (hosts : List Host) → ¬ AreHosts (get (codes "hosts") (view file.now)) hosts) }
    ensures memory { IfErr result (λ e. e ≡ ConfigError.Memory → (entries : List Value)
        × (get (codes "hosts") (view file.now) ≡ Some (array (items_view entries)))
        × (length entries ≤ 64) × FirstAre host_data IsHost entries) }
{
    match file.get("hosts").and_then(Value::as_array) {
        Some(entries) => hosts_in(alloc, entries),
        None => Err(ConfigError::Fault("hosts")),
    }
}

fn hosts_in(alloc: Global, entries: &[Value]) -> Result<Vec<Host>, ConfigError>
    ensures ok { IfOk result
        (λ hosts. AreHosts (Some (array (items_view entries.now))) hosts.items) }
    ensures fault { IfErr result (λ e. ¬ (e ≡ ConfigError.Memory) → IsFault e (codes "hosts")) }
    ensures none { IfErr result (λ e. ¬ (e ≡ ConfigError.Memory)
        → (hosts : List Host) → ¬ AreHosts (Some (array (items_view entries.now))) hosts) }
    ensures memory { IfErr result (λ e. e ≡ ConfigError.Memory
        → (length entries.now ≤ 64) × FirstAre host_data IsHost entries.now) }
{
    if entries.is_empty() || entries.len() > MAX_HOSTS {
        return Err(ConfigError::Fault("hosts"));
    }
    let mut hosts = Vec::new(alloc);
    for entry in entries {
        hosts.push(host(alloc, entry)?)?;
    }
    if !have_names_of_their_own(&hosts) {
        return Err(ConfigError::Fault("hosts"));
    }
    Ok(hosts)
}

// `Memory` only for a member that is a host.
fn host(alloc: Global, entry: &Value) -> Result<Host, ConfigError>
    ensures ok { IfOk result (λ h. (view entry.now ≡ host_data h) × IsHost h) }
    ensures fault { IfErr result (λ e. ¬ (e ≡ ConfigError.Memory) → IsFault e (codes "hosts")) }
    ensures none { IfErr result (λ e. ¬ (e ≡ ConfigError.Memory)
        → (h : Host) → ¬ ((view entry.now ≡ host_data h) × IsHost h)) }
    ensures memory { IfErr result (λ e. e ≡ ConfigError.Memory
        → (h : Host) × (view entry.now ≡ host_data h) × IsHost h) }
{
    let Some(text) = entry.as_str() else {
        return Err(ConfigError::Fault("hosts"));
    };
    let Ok(address) = text.parse::<SocketAddr>() else {
        return Err(ConfigError::Fault("hosts"));
    };
    match HostName::read(alloc, text.as_bytes()) {
        Ok(name) => Ok(Host { name, address }),
        Err(RingError::NoMemory) => Err(ConfigError::Memory),
        Err(_) => Err(ConfigError::Fault("hosts")),
    }
}

fn have_names_of_their_own(hosts: &[Host]) -> bool
    ensures { IsTrue result ↔ AllPairs (λ a b. a.name ≢ b.name) hosts.now }
{
    for (j, host) in hosts.iter().enumerate() {
        if has_name(&hosts[..j], &host.name) {
            return false;
        }
    }
    true
}

fn has_name(hosts: &[Host], name: &HostName) -> bool
    ensures { IsTrue result ↔ Any (λ host. host.name ≡ name.now) hosts.now }
{
    hosts
        .iter()
        .any(|host| host.name.as_bytes() == name.as_bytes())
}
