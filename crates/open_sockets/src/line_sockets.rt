//! Which line of generations gets a socket.
ghost use Rattle.std.specs.Prelude.{◌≡◌, ◌≤◌, ◌<◌, ◌+◌, [], ◌∷◌, ◌++◌, ℕ, List, IfOk, length, replicate};
ghost use Rattle.open_sockets.specs.Lines.{AreCounted, HasFewest};

use std::alloc::{AllocError, Global};
use std::marker::Model;

/// How many open sockets each line has. A socket stays in its line until it is gone.
#[derive(Drop)]
pub struct LineSockets {
    counts: Vec<u64>,
}

impl Model for LineSockets {
    ghost use Rattle.std.specs.Prelude.{ℕ, List};

    ghost Value = { List ℕ };

    ghost view = { λ l. l.counts.items };
}

impl LineSockets {
    /// These many lines without a socket. Refused for want of memory.
    pub fn new(alloc: Global, lines: usize) -> Result<LineSockets, AllocError>
        ensures { IfOk result (λ l. l ≡ replicate lines 0) }
    {
        Ok(LineSockets {
            counts: vec![in alloc; 0u64; lines]?,
        })
    }

    /// The number of lines.
    pub fn lines(&self) -> usize
        ensures { result ≡ length self.now }
    {
        self.counts.len()
    }

    /// A line with the fewest sockets, the first of these.
    pub fn fewest(&self) -> usize
        ensures within { 0 < length self.now → result < length self.now }
        ensures fewest { HasFewest self.now result }
    {
        let mut fewest = 0usize;
        for line in 0..self.counts.len() {
            if self.counts[line] < self.counts[fewest] {
                fewest = line;
            }
        }
        fewest
    }

    /// One more socket is in this line.
    pub fn add(&mut self, line: usize)
        ensures lines { length self.new ≡ length self.old }
        ensures added { (sockets : List ℕ) → AreCounted self.old sockets
            → length sockets < 18446744073709551615
            → AreCounted self.new (sockets ++ line ∷ []) }
    {
        if line < self.counts.len() {
            self.counts[line] = self.counts[line].saturating_add(1);
        }
    }

    /// A socket of this line is gone.
    pub fn remove(&mut self, line: usize)
        ensures lines { length self.new ≡ length self.old }
        ensures gone { (before after : List ℕ) → AreCounted self.old (before ++ line ∷ after)
            → AreCounted self.new (before ++ after) }
    {
        if line < self.counts.len() {
            self.counts[line] = self.counts[line].saturating_sub(1);
        }
    }
}
