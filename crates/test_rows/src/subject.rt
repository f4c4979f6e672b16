use anyhow::Result;
use std::alloc::Global;

/// What a row's actions are made on.
pub trait Subject: Drop + Sized {
    /// Begins a row by its subject and arguments.
    fn open(alloc: Global, words: &str) -> Result<Self>;

    /// Makes one action, and returns its answer.
    fn act(&mut self, alloc: Global, line: &str) -> Result<String>;
}
