ghost use Rattle.std.specs.Prelude.{◌≡◌, ◌≢◌, ◌<◌, ◌≤◌, ◌⊎◌, ℕ};
ghost use Rattle.proxy_notices.specs.ClientPlace.{code_of};

use limits::MAX_SOCKETS;

/// Clients of this key on are told with all others: as many keys as there may be sockets.
pub const MAX_KEYS: usize = MAX_SOCKETS as usize;

/// No client has the slot.
pub(crate) const FREE: u64 = 0;

/// The slot has several clients, or one without a code.
pub(crate) const SHARED: u64 = u64::MAX;

// Workers from this number on have no codes.
const MAX_CODED: usize = 65_536;

#[derive(Clone, Copy, Debug, PartialEq, Eq)]
pub(crate) enum ClientPlace {
    One {
        /// The worker's index.
        worker: usize,
        /// The client's key.
        key: usize,
    },
    Unknown,
}

/// `SHARED` where worker or key is too great for a code.
pub(crate) fn code_of(worker: usize, key: usize) -> u64
    ensures code { worker < 65536 → key < MAX_KEYS → result ≡ code_of worker key }
    ensures shared { (65536 ≤ worker) ⊎ (MAX_KEYS ≤ key) → result ≡ SHARED }
{
    if worker >= MAX_CODED || key >= MAX_KEYS {
        return SHARED;
    }
    (worker * MAX_KEYS + key) as u64 + 1
}

pub(crate) fn place_of(code: u64) -> ClientPlace
    ensures one { (worker key : ℕ) → key < MAX_KEYS → code ≢ SHARED → code ≡ code_of worker key
        → result ≡ ClientPlace.One worker key }
    ensures unknown { (code ≡ FREE) ⊎ (code ≡ SHARED) → result ≡ ClientPlace.Unknown }
{
    if code == FREE || code == SHARED {
        return ClientPlace::Unknown;
    }
    let place = code as usize - 1;
    ClientPlace::One {
        worker: place / MAX_KEYS,
        key: place % MAX_KEYS,
    }
}
