//! What the generations that drain are to do, readable without a lock.

use crate::line::Inherited;
use crate::words::{NOBODY, Shown, anew, free_place, pack, task_in};
use limits::MAX_GENERATIONS;
use proxy_generations::{Generations, Phase};
use std::alloc::{AllocError, Global};
use std::sync::atomic::{AtomicU64, Ordering};

/// The most generations that drain at a time.
pub(crate) const MAX_DRAINING: usize = MAX_GENERATIONS - 1;

/// A word of each generation that drains, which keeps its place until that has drained.
#[derive(Drop)]
pub(crate) struct TaskWords {
    words: Vec<AtomicU64>,
}

/// The newest open generation, of which it may be shown that it is that: the words of the others are shown.
#[derive(Clone, Copy, Drop)]
pub(crate) struct NewestToShow {
    number: Option<u64>,
}

impl NewestToShow {
    pub(crate) fn number(self) -> Option<u64> {
        self.number
    }
}

impl TaskWords {
    pub(crate) fn new(alloc: Global) -> Result<TaskWords, AllocError> {
        let mut words = Vec::new(alloc);
        for _ in 0..MAX_DRAINING {
            words.push(AtomicU64::new(NOBODY))?;
        }
        Ok(TaskWords { words })
    }

    /// Shows what these generations are to do, but for the newest one.
    pub(crate) fn show(&self, generations: &Generations<Inherited>) -> NewestToShow {
        for word in self.words.iter() {
            word.store(
                anew(word.load(Ordering::SeqCst), generations),
                Ordering::SeqCst,
            );
        }
        for index in 0..MAX_DRAINING {
            if let Some(number) = generations.older_at(index) {
                self.show_task(number, generations.task(number));
            }
        }
        NewestToShow {
            number: generations.newest(),
        }
    }

    // (one that is shown already has its task)
    fn show_task(&self, number: u64, task: Option<Phase>) {
        let words = self.read();
        if task_in(&words, number).is_some() {
            return;
        }
        if let (Some(place), Some(task)) = (free_place(&words), task) {
            if let Some(word) = self.words.get(place) {
                word.store(pack(Shown { number, task }), Ordering::SeqCst);
            }
        }
    }

    pub(crate) fn read(&self) -> [u64; MAX_DRAINING] {
        let mut words = [NOBODY; MAX_DRAINING];
        for place in 0..MAX_DRAINING {
            if let Some(word) = self.words.get(place) {
                words[place] = word.load(Ordering::SeqCst);
            }
        }
        words
    }
}
