//! Which client is stalled, with the most bytes.
ghost use Rattle.std.specs.Prelude.{◌≡◌, ◌+◌, IfSome, None};
ghost use Rattle.proxy_connections.specs.WorkerConnections.{IsMostBelow, IsMostStalled, NoneIsStalled};

use crate::client_connection::ClientConnection;
use slab::Slab;

/// A client that is stalled: more than 131,072 bytes wait for its socket, which has taken none of them for a second.
#[derive(Clone, Copy, Drop)]
pub struct Stalled {
    /// Its key.
    pub key: usize,
    /// The bytes that wait.
    pub bytes: u64,
}

/// The stalled client for which most bytes wait. `None`: none is stalled.
pub(crate) fn most_stalled(clients: &Slab<ClientConnection>, now: u64) -> Option<Stalled>
    ensures some { IfSome result (IsMostStalled now clients.now) }
    ensures none { result ≡ None → NoneIsStalled now clients.now }
{
    let mut most = Stalled { key: 0, bytes: 0 };
    for key in 0..clients.capacity() {
        most = more_stalled(clients, key, now, most);
    }
    if most.bytes == 0 { None } else { Some(most) }
}

fn more_stalled(clients: &Slab<ClientConnection>, key: usize, now: u64, most: Stalled) -> Stalled
    ensures { IsMostBelow now clients.now key most
        → IsMostBelow now clients.now (key + 1) result }
{
    let Some(client) = clients.get(key) else {
        return most;
    };
    let bytes = client.stalled_bytes(now);
    if bytes <= most.bytes {
        return most;
    }
    Stalled { key, bytes }
}
