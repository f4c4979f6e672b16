use crate::again;
use crate::shown::shown;
use anyhow::Result;
use std::alloc::Global;

/// Answers in their order, printed by runs of equal ones or of ones that count up.
#[derive(Drop)]
pub struct Series {
    alloc: Global,
    ended: String,
    run: Option<Run>,
}

#[derive(Drop)]
struct Run {
    first: String,
    last: String,
    count: u64,
    counts_up: bool,
}

impl Series {
    /// No answers.
    pub fn new(alloc: Global) -> Series {
        Series {
            alloc,
            ended: String::new(alloc),
            run: None,
        }
    }

    /// Adds an answer.
    pub fn add(&mut self, answer: String) -> Result<()> {
        match &mut self.run {
            Some(run) if run.goes_on_with(answer.as_str()) => {
                run.add(answer);
                Ok(())
            }
            _ => self.begin(answer),
        }
    }

    fn begin(&mut self, answer: String) -> Result<()> {
        let fresh = Run::of(self.alloc, answer)?;
        if let Some(run) = self.run.replace(fresh) {
            let told = run.tell(self.alloc, &mut self.ended);
            drop(run);
            told?;
        }
        Ok(())
    }

    /// Each run's length with its answer, or the first and the last where they count up.
    pub fn text(self) -> Result<String> {
        let Series { alloc, ended, run } = self;
        let mut text = ended;
        if let Some(run) = run {
            run.tell(alloc, &mut text)?;
        }
        Ok(text)
    }
}

impl Run {
    fn of(alloc: Global, answer: String) -> Result<Run> {
        Ok(Run {
            first: shown(alloc, answer.as_str())?,
            last: answer,
            count: 1,
            counts_up: false,
        })
    }

    fn goes_on_with(&self, answer: &str) -> bool {
        let last = self.last.as_str();
        if self.count > 1 && self.counts_up {
            is_next(last, answer)
        } else {
            last == answer || self.count == 1 && is_next(last, answer)
        }
    }

    fn add(&mut self, answer: String) {
        self.counts_up = self.last.as_str() != answer.as_str();
        self.last = answer;
        self.count = self.count.saturating_add(1);
    }

    fn tell(&self, alloc: Global, text: &mut String) -> Result<()> {
        let told = self.text(alloc)?;
        if !text.is_empty() {
            again!(text.push_str("; "))?;
        }
        again!(text.push_str(told.as_str()))?;
        Ok(())
    }

    fn text(&self, alloc: Global) -> Result<String> {
        let (count, first, last) = (self.count, &self.first, &self.last);
        if self.counts_up {
            shown(alloc, format_args!("{count} times {first} to {last}"))
        } else {
            shown(alloc, format_args!("{count} times {first}"))
        }
    }
}

// They differ only in their first numbers, and the second's is greater by one.
fn is_next(one: &str, other: &str) -> bool {
    match (Numbered::of(one), Numbered::of(other)) {
        (Some(one), Some(other)) => {
            one.before == other.before
                && one.number.checked_add(1) == Some(other.number)
                && one.behind == other.behind
        }
        _ => false,
    }
}

#[derive(Clone, Copy)]
struct Numbered<'a> {
    before: &'a [u8],
    number: u64,
    behind: &'a [u8],
}

impl<'a> Numbered<'a> {
    fn of(text: &'a str) -> Option<Numbered<'a>> {
        let (before, rest) = cut_at(text.as_bytes(), true);
        let (digits, behind) = cut_at(rest, false);
        if digits.is_empty() {
            return None;
        }
        Some(Numbered {
            before,
            number: number_of(digits),
            behind,
        })
    }
}

fn cut_at(text: &[u8], digit: bool) -> (&[u8], &[u8]) {
    for at in 0..text.len() {
        if text[at].is_ascii_digit() == digit {
            return text.split_at(at);
        }
    }
    text.split_at(text.len())
}

// The greatest number if it doesn't fit.
fn number_of(digits: &[u8]) -> u64 {
    let mut number = 0u64;
    for digit in digits {
        number = number
            .saturating_mul(10)
            .saturating_add(u64::from(digit.saturating_sub(b'0')));
    }
    number
}
