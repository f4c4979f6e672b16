ghost use Rattle.std.specs.Prelude.{◌≡◌, ◌<◌};
ghost use Rattle.proxy_history.specs.Setting.{hosts};
ghost use Rattle.proxy_history.specs.Proxy.{history_in};
ghost use Rattle.proxy_stats.specs.Load.{host_load_of, load_of};

use limits::MAX_HOSTS;
use proxy_core::{CoreOf, Keeping};

/// The load of one host.
#[derive(Clone, Copy, Debug, PartialEq, Eq)]
pub struct HostLoad {
    /// The parts that wait for it.
    pub waiting: u64,

    /// The parts sent to it without a reply, with those of closed connections.
    pub flying: u64,

    /// Whether it is ejected.
    pub is_out: bool,
}

/// The load of a core.
#[derive(Clone, Copy, Debug, PartialEq, Eq)]
pub struct Load {
    /// The open connections.
    pub connections: u64,

    /// Whether so few hosts are available that all are used.
    pub in_panic: bool,

    /// The load of each host, by its number; none for numbers without a host.
    pub hosts: [HostLoad; MAX_HOSTS],
}

impl HostLoad {
    /// No part waits or flies.
    pub const NONE: HostLoad = HostLoad {
        waiting: 0,
        flying: 0,
        is_out: false,
    };

    fn of<K: Keeping>(core: &CoreOf<K>, host: usize) -> HostLoad
        requires { host < hosts core.now.setting }
        ensures { result ≡ host_load_of core.now.setting (history_in core.now) host }
    {
        HostLoad {
            waiting: core.waiting(host) as u64,
            flying: core.flying(host) as u64,
            is_out: core.is_out(host),
        }
    }
}

impl Load {
    /// Nothing is open, and no part waits or flies.
    pub const NONE: Load = Load {
        connections: 0,
        in_panic: false,
        hosts: [HostLoad::NONE; MAX_HOSTS],
    };
}

/// The core's present load.
pub fn load_of<K: Keeping>(core: &CoreOf<K>) -> Load
    ensures { result ≡ load_of core.now.setting (history_in core.now) }
{
    let mut hosts = [HostLoad::NONE; MAX_HOSTS];
    for host in 0..core.hosts() {
        hosts[host] = HostLoad::of(core, host);
    }
    Load {
        connections: core.open_connections() as u64,
        in_panic: core.in_panic(),
        hosts,
    }
}
