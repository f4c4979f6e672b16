//! What each generation is to do, readable without a lock. Atomics carry here what `words.rt` and `seen.rt` decide.

use crate::line::Inherited;
use crate::newest::Newest;
use crate::seen::Seen;
use crate::task_words::TaskWords;
use proxy_generations::{Generations, Phase};
use std::alloc::{AllocError, Global};

/// The newest open generation, and the tasks of those that drain.
#[derive(Drop)]
pub(crate) struct Board {
    newest: Newest,
    tasks: TaskWords,
}

impl Board {
    pub(crate) fn new(alloc: Global) -> Result<Board, AllocError> {
        Ok(Board {
            newest: Newest::new(),
            tasks: TaskWords::new(alloc)?,
        })
    }

    /// Shows what these generations are to do. Who reads the newest one first, and then the tasks, sees a phase that there was.
    pub(crate) fn show(&self, generations: &Generations<Inherited>) {
        let newest = self.tasks.show(generations);
        self.newest.show(newest);
    }

    fn seen(&self, number: u64) -> Seen {
        let newest = self.newest.number();
        if newest == Some(number) {
            Seen::of_newest(number)
        } else {
            Seen::new(number, newest, &self.tasks.read())
        }
    }

    /// What a generation is to do.
    pub(crate) fn phase(&self, number: u64) -> Phase {
        self.seen(number).phase()
    }

    /// Whether the generation is the newest open one, or drains.
    pub(crate) fn has_connections(&self, number: u64) -> bool {
        self.seen(number).has_connections()
    }
}
