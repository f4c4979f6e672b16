use crate::client_place::MAX_KEYS;
use limits::MAX_HOSTS;
use std::alloc::{AllocError, Global};
use std::sync::atomic::{AtomicBool, AtomicU64, Ordering};

const BITS: usize = 64;

/// The words of all keys.
pub const MAX_WORDS: usize = MAX_KEYS / BITS;

/// Ready clients of one word.
#[derive(Clone, Copy, Debug, PartialEq, Eq)]
pub struct ReadyWord {
    /// The word's index: its first key divided by 64.
    pub index: usize,
    /// Bit i: the client of its i-th key is ready.
    pub bits: u64,
}

#[derive(Drop)]
pub(crate) struct WorkerNotices {
    // Bit h: host h is the worker's.
    own: u64,
    // Bit h: parts came for host h, for which none waited.
    hosts: AtomicU64,
    // Replies may have come to any client.
    is_for_all: AtomicBool,
    // Bit i: word i may have a key.
    words: AtomicU64,
    // Bit i of word j: the client of key 64 j + i is ready.
    keys: Vec<AtomicU64>,
}

impl WorkerNotices {
    pub(crate) fn new(alloc: Global, own: u64) -> Result<WorkerNotices, AllocError> {
        let mut keys = Vec::with_capacity(alloc, MAX_WORDS)?;
        for _ in 0..MAX_WORDS {
            keys.push(AtomicU64::new(0))?;
        }
        Ok(WorkerNotices {
            own,
            hosts: AtomicU64::new(0),
            is_for_all: AtomicBool::new(false),
            words: AtomicU64::new(0),
            keys,
        })
    }

    pub(crate) fn own(&self) -> u64 {
        self.own
    }

    #[inline(always)]
    pub(crate) fn are_any(&self) -> bool {
        self.words.load(Ordering::SeqCst) != 0
            || self.hosts.load(Ordering::SeqCst) != 0
            || self.is_for_all.load(Ordering::SeqCst)
    }

    pub(crate) fn add_host(&self, host: usize) {
        if host < MAX_HOSTS {
            self.hosts.fetch_or(1 << host, Ordering::SeqCst);
        }
    }

    #[inline(always)]
    pub(crate) fn add_key(&self, key: usize) {
        if key >= MAX_KEYS {
            self.add_all();
            return;
        }
        let index = key / BITS;
        let Some(word) = self.keys.get(index) else {
            return;
        };
        let bit = 1 << (key % BITS);
        if word.load(Ordering::SeqCst) & bit == 0
            && word.fetch_or(bit, Ordering::SeqCst) & bit == 0
        {
            self.words.fetch_or(1 << index, Ordering::SeqCst);
        }
    }

    pub(crate) fn add_all(&self) {
        self.is_for_all.store(true, Ordering::SeqCst);
    }

    pub(crate) fn take_hosts(&self) -> u64 {
        if self.hosts.load(Ordering::SeqCst) == 0 {
            return 0;
        }
        self.hosts.swap(0, Ordering::SeqCst)
    }

    pub(crate) fn take_all(&self) -> bool {
        self.is_for_all.load(Ordering::SeqCst) && self.is_for_all.swap(false, Ordering::SeqCst)
    }

    pub(crate) fn take_word(&self) -> Option<ReadyWord> {
        let words = self.words.load(Ordering::SeqCst);
        if words == 0 {
            return None;
        }
        let index = words.trailing_zeros() as usize;
        self.words.fetch_and(!(1 << index), Ordering::SeqCst);
        let bits = match self.keys.get(index) {
            Some(word) => word.swap(0, Ordering::SeqCst),
            None => 0,
        };
        Some(ReadyWord { index, bits })
    }
}
