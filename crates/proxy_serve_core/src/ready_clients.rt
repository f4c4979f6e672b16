ghost use Rattle.std.specs.Prelude.{◌≡◌, ◌≤◌, OnOk, IfSome, IfNone};
ghost use Rattle.std.specs.Bool.{OnTrue, OnFalse};
ghost use Rattle.proxy_serve_core.specs.KeySet.{AddsKeyIfItFits, AddsKeysBelow, AddsWordIfItFits, DropsKey, HasNone, IsNext, JoinsKeys, SameKeys, capacity_of};

use crate::key_set::KeySet;
use std::alloc::{AllocError, Global};
use std::marker::Model;

/// Which clients a worker's next round looks at, and which ones wait for replies.
#[derive(Drop)]
pub struct ReadyClients {
    ready: KeySet,
    awaiting: KeySet,
}

impl Model for ReadyClients {
    ghost use Rattle.std.specs.Prelude.{◌≤◌};
    ghost use Rattle.proxy_serve_core.specs.KeySet.{capacity_of};
    ghost use Rattle.proxy_serve_core.specs.ReadyClients.{ReadyClientsState};

    ghost Value = { ReadyClientsState };

    ghost view = { λ r. record {
      ready = r.ready;
      awaiting = r.awaiting;
    } };

    ghost invariant = { λ r. capacity_of r.awaiting ≤ capacity_of r.ready };
}

impl ReadyClients {
    /// No client is ready, and none waits.
    pub fn new(alloc: Global) -> ReadyClients
        ensures ready { HasNone result.ready 0 }
        ensures awaiting { HasNone result.awaiting 0 }
    {
        ReadyClients {
            ready: KeySet::new(alloc),
            awaiting: KeySet::new(alloc),
        }
    }

    /// Makes room for the keys below this number. Without memory no key changes.
    pub fn reserve(&mut self, capacity: usize) -> Result<(), AllocError>
        ensures room { OnOk result (capacity ≤ capacity_of self.new.awaiting) }
        ensures ready { SameKeys self.old.ready self.new.ready }
        ensures awaiting { SameKeys self.old.awaiting self.new.awaiting }
    {
        self.ready.reserve(capacity)?;
        self.awaiting.reserve(capacity)
    }

    /// The next round looks at this client. Ignored without room for its key.
    pub fn make_ready(&mut self, key: usize)
        ensures adds { AddsKeyIfItFits key self.old.ready self.new.ready }
        ensures rest { self.new ≡ record self.old { ready = self.new.ready } }
    {
        self.ready.insert(key);
    }

    /// The same for each key below this number, as far as there is room.
    pub fn make_all_ready(&mut self, count: usize)
        ensures adds { AddsKeysBelow count self.old.ready self.new.ready }
        ensures rest { self.new ≡ record self.old { ready = self.new.ready } }
    {
        self.ready.insert_all_below(count);
    }

    /// The client was looked at: it isn't ready any more.
    pub fn begin(&mut self, key: usize)
        ensures drops { DropsKey key self.old.ready self.new.ready }
        ensures rest { self.new ≡ record self.old { ready = self.new.ready } }
    {
        self.ready.remove(key);
    }

    /// The client's round ended: whether it is ready again, and whether it waits. Ignored without room.
    pub fn end(&mut self, key: usize, is_ready: bool, awaits: bool)
        ensures ready { OnTrue is_ready (AddsKeyIfItFits key self.old.ready self.new.ready) }
        ensures idle { OnFalse is_ready (self.new.ready ≡ self.old.ready) }
        ensures awaits { OnTrue awaits (AddsKeyIfItFits key self.old.awaiting self.new.awaiting) }
        ensures answered { OnFalse awaits (DropsKey key self.old.awaiting self.new.awaiting) }
    {
        if is_ready {
            self.make_ready(key);
        }
        if awaits {
            self.awaiting.insert(key);
        } else {
            self.awaiting.remove(key);
        }
    }

    /// The client is gone.
    pub fn forget(&mut self, key: usize)
        ensures ready { DropsKey key self.old.ready self.new.ready }
        ensures awaiting { DropsKey key self.old.awaiting self.new.awaiting }
    {
        self.begin(key);
        self.end(key, false, false);
    }

    /// Makes clients ready: bit i of `bits` stands for key 64 `index` + i. Ignored without room.
    pub fn make_word_ready(&mut self, index: usize, bits: u64)
        ensures adds { AddsWordIfItFits index bits self.old.ready self.new.ready }
        ensures rest { self.new ≡ record self.old { ready = self.new.ready } }
    {
        self.ready.insert_word(index, bits);
    }

    /// The next round looks at all clients that wait for replies.
    pub fn make_awaiting_ready(&mut self)
        ensures joins { JoinsKeys self.old.ready self.old.awaiting self.new.ready }
        ensures rest { self.new ≡ record self.old { ready = self.new.ready } }
    {
        self.ready.insert_all_of(&self.awaiting);
    }

    /// The ready client with the least key at or after this number.
    pub fn next(&self, from: usize) -> Option<usize>
        ensures found { IfSome result (IsNext self.now.ready from) }
        ensures none { IfNone result (HasNone self.now.ready from) }
    {
        self.ready.next(from)
    }
}
