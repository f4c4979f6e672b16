//! The threads in which generations run.

use limits::MAX_GENERATIONS;
use proxy_rounds::Line;
use std::alloc::{AllocError, Global};
use std::collections::VecDeque;
use std::thread::{JoinHandle, Threads};

// The thread of one generation.
#[derive(Drop)]
struct GenerationThread {
    number: u64,
    handle: JoinHandle<()>,
}

/// The threads of the latest generations of a line, the oldest first. All but one of these have connections; that closes its gate.
#[derive(Drop)]
pub(crate) struct GenerationThreads {
    threads: VecDeque<GenerationThread>,
}

impl GenerationThreads {
    /// No generation has a thread yet. There is room for as many as there can be.
    pub(crate) fn new(alloc: Global) -> Result<GenerationThreads, AllocError> {
        Ok(GenerationThreads {
            threads: VecDeque::with_capacity(alloc, MAX_GENERATIONS + 1)?,
        })
    }

    /// Makes room for one more thread: waits for those of generations without connections, but for one. This bounds the
    /// number of journals.
    pub(crate) fn make_room<R: Threads>(&mut self, rt: &R, line: &Line) {
        let mut spared = false;
        for _ in 0..self.threads.len() {
            let Some(thread) = self.threads.pop_back() else {
                return;
            };
            if line.has_connections(thread.number) {
                self.keep(rt, thread);
            } else if spared {
                thread.handle.join(rt);
            } else {
                spared = true;
                self.keep(rt, thread);
            }
        }
    }

    // Puts a thread at the front. (There is room for all.)
    fn keep<R: Threads>(&mut self, rt: &R, thread: GenerationThread) {
        if let Err(refused) = self.threads.push_front(thread) {
            refused.value.handle.join(rt);
        }
    }

    /// Adds the newest generation's thread.
    pub(crate) fn add<R: Threads>(&mut self, rt: &R, number: u64, handle: JoinHandle<()>) {
        if let Err(refused) = self.threads.push_back(GenerationThread { number, handle }) {
            refused.value.handle.join(rt);
        }
    }

    /// Waits until all generations' threads have ended.
    pub(crate) fn join_all<R: Threads>(&mut self, rt: &R) {
        for _ in 0..self.threads.len() {
            if let Some(thread) = self.threads.pop_front() {
                thread.handle.join(rt);
            }
        }
    }
}
