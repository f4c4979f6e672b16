//! What the system tells of the process.
ghost use Rattle.std.specs.Prelude.{◌≤◌, length};

use proxy_pages::ProcessUse;
use std::fs::File;
use std::io::{Read, Seek, SeekFrom};

// The most bytes read of the process's numbers.
const MAX_LINE: usize = 1_024;

// Where numbers stand behind the name; times are in hundredths of a second.
const OWN_TIME: usize = 11;

const SYSTEM_TIME: usize = 12;

const PAGES: usize = 21;

const TICK_US: u64 = 10_000;

const PAGE_BYTES: u64 = 4_096;

/// The files that tell what the process uses.
#[derive(Drop)]
pub struct ProcessFiles {
    /// `/proc/self/stat`; `None`: memory and processor time aren't known.
    pub stat: Option<File>,
    /// `/proc/self/fd`, whose length is the number of open files since Linux 6.2; `None`: it isn't known.
    pub files: Option<File>,
    /// When the process began, in seconds since 1970.
    pub began: u64,
}

impl ProcessFiles {
    /// What it uses now.
    pub(crate) fn process_use(&mut self) -> ProcessUse {
        let mut line = [0u8; MAX_LINE];
        let count = self.read(&mut line);
        let numbers = behind_name(&line[..count]);
        let ticks = number_at(numbers, OWN_TIME).saturating_add(number_at(numbers, SYSTEM_TIME));
        ProcessUse {
            resident: number_at(numbers, PAGES).saturating_mul(PAGE_BYTES),
            cpu_us: ticks.saturating_mul(TICK_US),
            files: self.count_files(),
            began: self.began,
        }
    }

    fn count_files(&self) -> u64 {
        let Some(files) = &self.files else {
            return 0;
        };
        match files.metadata() {
            Ok(metadata) => metadata.len(),
            Err(_) => 0,
        }
    }

    fn read(&mut self, line: &mut [u8]) -> usize
        ensures { result ≤ length line.old }
    {
        let Some(stat) = &mut self.stat else {
            return 0;
        };
        if stat.seek(SeekFrom::Start(0)).is_err() {
            return 0;
        }
        match stat.read(line) {
            Ok(count) => count.min(line.len()),
            Err(_) => 0,
        }
    }
}

// What stands behind the program's name, which ends with the last bracket.
fn behind_name(line: &[u8]) -> &[u8] {
    let mut start = 0;
    for i in 0..line.len() {
        if line[i] == b')' {
            start = i;
        }
    }
    match line.get(start.saturating_add(2)..) {
        Some(numbers) => numbers,
        None => &[],
    }
}

// The word with this index from 0 on, as a number; 0 where it is none.
fn number_at(words: &[u8], index: usize) -> u64 {
    let (mut at, mut number) = (0usize, 0u64);
    for byte in words {
        match *byte {
            b' ' => at = at.saturating_add(1),
            digit @ b'0'..=b'9' if at == index => {
                number = number
                    .saturating_mul(10)
                    .saturating_add(u64::from(digit - b'0'));
            }
            _ => {}
        }
    }
    number
}
