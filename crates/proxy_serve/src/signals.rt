//! What the process's pending signals ask for.
ghost use Rattle.std.specs.Prelude.{◌≤◌, length};

use limits::SIGNAL_MS;
use proxy_serve_core::{Asked, TermEffect, asked_by_signals, effect_of_term};
use std::fs::File;
use std::io::{Read, Seek, SeekFrom};

// The most bytes read of the process's status.
const MAX_STATUS: usize = 4_096;

/// Pending signals, as the system reports them.
#[derive(Drop)]
pub(crate) struct Signals {
    // The process's status, read anew each time; without it no signal is seen.
    status: Option<File>,
    // When it was last read, in milliseconds.
    looked: u64,
}

impl Signals {
    /// Those that this status shows. It wasn't read yet.
    pub(crate) fn new(status: Option<File>) -> Signals {
        Signals { status, looked: 0 }
    }

    /// What signals ask for now. The status is read once in `SIGNAL_MS` milliseconds; in between nothing is asked.
    pub(crate) fn asked(&mut self, now: u64) -> Asked {
        if now.saturating_sub(self.looked) < SIGNAL_MS {
            return Asked::Nothing;
        }
        self.looked = now;
        let mut text = [0u8; MAX_STATUS];
        let count = self.read(&mut text);
        asked_by_signals(&text[..count])
    }

    /// What SIGTERM does to the process.
    pub(crate) fn effect_of_term(&mut self) -> TermEffect {
        let mut text = [0u8; MAX_STATUS];
        let count = self.read(&mut text);
        effect_of_term(&text[..count])
    }

    fn read(&mut self, text: &mut [u8]) -> usize
        ensures { result ≤ length text.old }
    {
        let Some(status) = &mut self.status else {
            return 0;
        };
        if status.seek(SeekFrom::Start(0)).is_err() {
            return 0;
        }
        match status.read(text) {
            Ok(count) => count.min(text.len()),
            Err(_) => 0,
        }
    }
}
