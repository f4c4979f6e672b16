ghost use Rattle.std.specs.Prelude.{◌<◌};
ghost use Rattle.proxy_notices.specs.HostBits.{AreHostsOf};

use crate::client_place::{ClientPlace, FREE, MAX_KEYS, SHARED, code_of, place_of};
use crate::place::{Place, worker_of_host};
use crate::worker_notices::{ReadyWord, WorkerNotices};
use crossbeam_utils::CachePadded;
use limits::MAX_HOSTS;
use std::alloc::{AllocError, Global};
use std::sync::atomic::{AtomicU64, Ordering};

fn own_hosts(place: Place) -> u64
    requires { 0 < place.workers }
    ensures { AreHostsOf result place }
{
    let mut own = 0;
    for host in 0..MAX_HOSTS {
        if place.has(host) {
            own |= 1 << host;
        }
    }
    own
}

/// What the workers of a generation are to know of turns. Where a `u64` is a set of hosts, bit h stands for host h.
///
/// The core's turns write it, and each worker takes what concerns it. Nothing is lost. More may be told than is so.
pub struct Notices {
    workers: Vec<CachePadded<WorkerNotices>>,
    // By the connection's number: the code of its client.
    clients: Vec<AtomicU64>,
    // Clients must be held back until the host's worker has looked at it.
    pressed: CachePadded<AtomicU64>,
}

impl Drop for Notices {
    fn drop(self) {
        let Notices {
            workers: _,
            clients: _,
            pressed: _,
        } = self;
    }
}

impl Notices {
    /// Nothing to know, for this many workers. Refused for want of memory.
    pub fn new(alloc: Global, workers: usize) -> Result<Notices, AllocError> {
        let mut all = Vec::with_capacity(alloc, workers)?;
        for index in 0..workers {
            let own = own_hosts(Place { index, workers });
            all.push(CachePadded::new(WorkerNotices::new(alloc, own)?))?;
        }
        let mut clients = Vec::with_capacity(alloc, MAX_KEYS)?;
        for _ in 0..MAX_KEYS {
            clients.push(AtomicU64::new(FREE))?;
        }
        Ok(Notices {
            workers: all,
            clients,
            pressed: CachePadded::new(AtomicU64::new(0)),
        })
    }

    fn slot(&self, conn: u64) -> Option<&AtomicU64> {
        self.clients.get((conn % MAX_KEYS as u64) as usize)
    }

    /// The connection has this client. If its slot is another's too, replies to both are told to all workers.
    pub fn add_client(&self, conn: u64, worker: usize, key: usize) {
        if let Some(slot) = self.slot(conn) {
            let code = code_of(worker, key);
            if slot
                .compare_exchange(FREE, code, Ordering::SeqCst, Ordering::SeqCst)
                .is_err()
            {
                slot.store(SHARED, Ordering::SeqCst);
            }
        }
    }

    /// The connection's client is gone.
    pub fn remove_client(&self, conn: u64, worker: usize, key: usize) {
        if let Some(slot) = self.slot(conn) {
            let code = code_of(worker, key);
            if code != SHARED {
                let _ = slot.compare_exchange(code, FREE, Ordering::SeqCst, Ordering::SeqCst);
            }
        }
    }

    fn place(&self, conn: u64) -> ClientPlace {
        match self.slot(conn) {
            Some(slot) => place_of(slot.load(Ordering::SeqCst)),
            None => ClientPlace::Unknown,
        }
    }

    fn worker(&self, worker: usize) -> Option<&WorkerNotices> {
        match self.workers.get(worker) {
            Some(notices) => Some(&**notices),
            None => None,
        }
    }

    /// The connection's client is ready.
    #[inline(always)]
    pub fn reply_came(&self, conn: u64) {
        match self.place(conn) {
            ClientPlace::One { worker, key } => match self.worker(worker) {
                Some(notices) => notices.add_key(key),
                None => self.replies_came(),
            },
            ClientPlace::Unknown => self.replies_came(),
        }
    }

    /// Replies may have come to any client of any worker.
    pub fn replies_came(&self) {
        for notices in &self.workers {
            notices.add_all();
        }
    }

    /// Parts came for the host, for which none waited.
    pub fn parts_came(&self, host: usize) {
        let workers = self.workers.len();
        if workers > 0 {
            if let Some(notices) = self.worker(worker_of_host(host, workers)) {
                notices.add_host(host);
            }
        }
    }

    /// Clients must be held back for the host until its worker has looked.
    pub fn press(&self, host: usize) {
        if host < MAX_HOSTS {
            self.pressed.fetch_or(1 << host, Ordering::SeqCst);
        }
    }

    /// Whether the worker has any of these hosts.
    pub fn has_any_of(&self, worker: usize, hosts: u64) -> bool {
        match self.worker(worker) {
            Some(notices) => notices.own() & hosts != 0,
            None => false,
        }
    }

    /// The worker has looked at its own of these hosts. True: clients may have been held back.
    pub fn mark_seen(&self, worker: usize, hosts: u64) -> bool {
        let seen = match self.worker(worker) {
            Some(notices) => notices.own() & hosts,
            None => 0,
        };
        seen != 0 && self.pressed.fetch_and(!seen, Ordering::SeqCst) & seen != 0
    }

    /// The hosts for which clients must be held back.
    #[inline(always)]
    pub fn pressed(&self) -> u64 {
        self.pressed.load(Ordering::SeqCst)
    }

    /// Whether the worker has something to take.
    #[inline(always)]
    pub fn concern(&self, worker: usize) -> bool {
        match self.worker(worker) {
            Some(notices) => notices.are_any(),
            None => false,
        }
    }

    /// Takes the worker's hosts for which parts came.
    pub fn take_hosts(&self, worker: usize) -> u64 {
        match self.worker(worker) {
            Some(notices) => notices.take_hosts(),
            None => 0,
        }
    }

    /// Takes whether replies may have come to any client.
    pub fn take_all(&self, worker: usize) -> bool {
        match self.worker(worker) {
            Some(notices) => notices.take_all(),
            None => false,
        }
    }

    /// Takes ready clients of the worker, if any.
    pub fn take_word(&self, worker: usize) -> Option<ReadyWord> {
        match self.worker(worker) {
            Some(notices) => notices.take_word(),
            None => None,
        }
    }
}
