//! Runs of random events.

use crate::agreement::agreed;
use crate::outcome::outcome;
use crate::proxies::Proxies;
use crate::proxy::Proxy;
use crate::random;
use crate::setting::Setting;
use anyhow::Result;
use proxy_core::{Core, Event};
use std::alloc::Global;
use test_reference::Reference;
use test_rows::again;
use test_rows::numbers::Numbers;
use test_rows::shown::shown;
use test_rows::text::{first_word, number};

const PASS: u64 = 3;

/// Random events at the moments 0, 1, 2 and so on.
#[derive(Clone, Copy)]
pub struct Randomly {
    /// The first state of the random numbers.
    pub numbers: Numbers,
    /// The number of events.
    pub events: u64,
}

impl Randomly {
    /// Makes the events on both. Returns the first whose answers differ, with both answers, if there is one.
    pub(crate) fn first_difference(
        self,
        alloc: Global,
        core: &mut Core,
        plain: &mut Reference,
    ) -> Result<Option<String>> {
        let mut numbers = self.numbers;
        for t in 0..self.events {
            let draw = Draw {
                numbers,
                epochs: epochs(core),
                t,
            };
            let (from_core, rest) = draw.taken_by(alloc, core)?;
            let (from_plain, _) = draw.taken_by(alloc, plain)?;
            if from_core.as_str() != from_plain.as_str() {
                return difference(alloc, t, from_core, from_plain);
            }
            numbers = rest;
        }
        Ok(None)
    }
}

fn difference(alloc: Global, t: u64, core: String, plain: String) -> Result<Option<String>> {
    let text = agreed(alloc, core, plain)?;
    Ok(Some(shown(alloc, format_args!("event {t} {text}"))?))
}

#[derive(Clone, Copy)]
struct Draw {
    numbers: Numbers,
    epochs: [u64; 3],
    t: u64,
}

impl Draw {
    fn taken_by<P: Proxy>(self, alloc: Global, proxy: &mut P) -> Result<(String, Numbers)> {
        let (event, rest) = again!(self.event(alloc))?;
        Ok((outcome(alloc, proxy, PASS, event)?, rest))
    }

    fn event(self, alloc: Global) -> Result<(Event, Numbers)> {
        let mut numbers = self.numbers;
        let event = random::event(&mut numbers, alloc, self.epochs, self.t)?;
        Ok((event, numbers))
    }
}

fn epochs(core: &Core) -> [u64; 3] {
    if core.hosts() == 3 {
        [core.epoch(0), core.epoch(1), core.epoch(2)]
    } else {
        [0; 3]
    }
}

/// Makes random events for each seed; the words are the numbers of both. Returns how many were answered, or the first
/// whose answers differ.
pub(crate) fn run_each(alloc: Global, words: &str) -> Result<String> {
    let (seeds, events) = first_word(words);
    let (seeds, events): (u64, u64) = (number(seeds)?, number(events)?);
    let mut answered = 0usize;
    for seed in 1..=seeds {
        match run_seed(alloc, seed, events)? {
            Ok(steps) => answered = answered.saturating_add(steps),
            Err(text) => return shown(alloc, format_args!("seed {seed}, {text}")),
        }
    }
    let all = seeds.saturating_mul(events);
    shown(
        alloc,
        format_args!("{answered} of {all} answered, none differs"),
    )
}

fn run_seed(alloc: Global, seed: u64, events: u64) -> Result<Result<usize, String>> {
    let mut numbers = Numbers(0x9e37_79b9_7f4a_7c15 ^ (seed << 20));
    let setting = Setting::of(alloc, random::settings(&mut numbers))?;
    let mut proxies = Proxies::on(alloc, "both", setting)?;
    let told = proxies.run_randomly(alloc, Randomly { numbers, events });
    drop(proxies);
    told
}
