//! Random marks for an ejector, and sums of its answers.
//!
//! `outside/ejection_marks.py` makes the same marks, and computes the expected sums by the rules.

use anyhow::Result;
use ejector::{Ejector, Swept, Trip};
use std::alloc::Global;
use test_rows::numbers::Numbers;
use test_rows::shown::shown;
use test_rows::text::{first_word, number};

// Sums of results and sweeps, and a number that mixes in each answer and state.
#[derive(Clone, Copy)]
struct Tally {
    results: [u64; 3],
    sweeps: u64,
    swept: [u64; 3],
    check: u32,
}

/// Gives the ejector the marks of the words `SEED MARKS MOMENT`, the first at that moment or later, and returns their sums.
pub(crate) fn played(alloc: Global, ejector: &mut Ejector, words: &str) -> Result<String> {
    let (seed, rest) = first_word(words);
    let (marks, moment) = first_word(rest);
    let mut numbers = Numbers(number(seed)?);
    let mut moment: u64 = number(moment)?;
    let marks: u64 = number(marks)?;
    let mut tally = Tally::new();
    for _ in 0..marks {
        moment = moment.saturating_add(numbers.below(700));
        tally.take(ejector, &mut numbers, moment);
        tally.look(ejector);
    }
    tally.text(alloc)
}

impl Tally {
    fn new() -> Tally {
        Tally {
            results: [0; 3],
            sweeps: 0,
            swept: [0; 3],
            check: 0,
        }
    }

    // Hosts with higher numbers fail more often.
    fn take(&mut self, ejector: &mut Ejector, numbers: &mut Numbers, moment: u64) {
        if numbers.below(20) == 0 {
            match ejector.sweep(moment) {
                Ok(swept) => self.add_sweep(swept),
                Err(_) => unreachable!(),
            }
            return;
        }
        let hosts = ejector.rules().hosts;
        let host = numbers.below(hosts as u64) as usize;
        let ok = numbers.below(12) >= host as u64;
        if host < hosts {
            match ejector.result(host, ok, moment) {
                Ok(trip) => self.add_trip(trip),
                Err(_) => unreachable!(),
            }
        }
    }

    fn add_trip(&mut self, trip: Trip) {
        let kind = match trip {
            Trip::None => 0,
            Trip::Ejected => 1,
            Trip::Kept => 2,
        };
        self.results[kind] = self.results[kind].saturating_add(1);
        self.add(kind as u32);
    }

    fn add_sweep(&mut self, swept: Swept) {
        self.sweeps = self.sweeps.saturating_add(1);
        let counts = [swept.returned, swept.ejected, swept.kept];
        for kind in 0..3 {
            self.swept[kind] = self.swept[kind].saturating_add(u64::from(counts[kind]));
            self.add(counts[kind]);
        }
    }

    fn look(&mut self, ejector: &Ejector) {
        self.add(u32::from(ejector.in_panic()));
        for host in 0..ejector.rules().hosts {
            let twice = ejector.multiplier(host).wrapping_mul(2);
            self.add(twice.wrapping_add(u32::from(ejector.is_out(host))));
        }
    }

    fn add(&mut self, code: u32) {
        self.check = self.check.wrapping_mul(31).wrapping_add(code);
    }

    fn text(&self, alloc: Global) -> Result<String> {
        let [none, ejected, kept] = self.results;
        let [returned, out, stayed] = self.swept;
        let (sweeps, check) = (self.sweeps, self.check);
        shown(
            alloc,
            format_args!(
                "results: {none} None, {ejected} Ejected, {kept} Kept; {sweeps} sweeps: returned {returned}, ejected {out}, kept {stayed}; check {check}"
            ),
        )
    }
}
