//! A room's ledger behind its lock. It has a name, by which contracts tell whose steps a worker has.
ghost use Rattle.std.specs.Prelude.{◌≡◌};
ghost use Rattle.std.specs.Sync.Mutex.{mutex_guard_value};

use journal_budget::Ledger;
use std::marker::Model;
use std::snapshot::Snapshot;
use std::sync::ledger::Blank;
use std::sync::{Mutex, MutexGuard, Wait};

/// The name of a ledger, which no other has. It takes no bytes: only contracts see it.
#[derive(Drop)]
pub(crate) struct LedgerName {
    blank: Snapshot<Blank>,
}

impl Model for LedgerName {
    ghost use Rattle.std.specs.Prelude.{ℕ};

    ghost Value = { ℕ };

    ghost view = { λ n. n.blank.value.name };
}

impl LedgerName {
    fn new() -> LedgerName {
        LedgerName {
            blank: Snapshot::of(&Blank::new(0)),
        }
    }
}

/// What lies under the lock.
#[derive(Drop)]
pub(crate) struct NamedLedger {
    pub(crate) ledger: Ledger,
    name: Snapshot<LedgerName>,
}

impl NamedLedger {
    fn new(name: &LedgerName) -> NamedLedger {
        NamedLedger {
            ledger: Ledger::new(),
            name: Snapshot::of(name),
        }
    }
}

#[derive(Drop)]
pub(crate) struct RoomLedger {
    name: LedgerName,
    lock: Mutex<NamedLedger>,
}

impl RoomLedger {
    pub(crate) fn new() -> RoomLedger {
        let name = LedgerName::new();
        let lock = Mutex::new(NamedLedger::new(&name));
        RoomLedger { name, lock }
    }

    /// That it gives this ledger, and no other, rests on its body alone.
    pub(crate) fn lock<R: Wait>(&self, rt: &R) -> MutexGuard<'_, NamedLedger>
        ensures { (mutex_guard_value result).name.value ≡ self.now.name }
    {
        let mut named = self.lock.lock(rt);
        named.name = Snapshot::of(&self.name);
        named
    }
}

/// The ledger that a worker used last, as it found it. It takes no bytes.
#[derive(Drop)]
pub(crate) struct LastLedger {
    found: Snapshot<NamedLedger>,
}

impl Model for LastLedger {
    ghost use Rattle.journal_room.specs.LastLedger.{UsedLedger};

    ghost Value = { UsedLedger };

    ghost view = { λ l. record {
      name = l.found.value.name.value;
      found = l.found.value.ledger;
    } };
}

impl LastLedger {
    /// None was used yet: this one has a name of its own.
    pub(crate) fn none() -> LastLedger {
        LastLedger::found(&NamedLedger::new(&LedgerName::new()))
    }

    #[inline(always)]
    pub(crate) fn found(named: &NamedLedger) -> LastLedger
        ensures { result ≡ record { name = named.now.name.value; found = named.now.ledger } }
    {
        LastLedger {
            found: Snapshot::of(named),
        }
    }
}
