//! Rows of success rates.
ghost use Rattle.std.specs.Prelude.{◌≤◌, All, IsTrue};
ghost use Rattle.std.specs.Option.{ForSome};

use anyhow::{Result, bail};
use rate_core::{is_outlier, rate};
use std::alloc::Global;
use test_rows::again;
use test_rows::shown::shown;
use test_rows::text::{first_word, number, unknown};

/// Makes one action: `rate GOOD TOTAL`, or `is_outlier FACTOR HOST RATES`, where a rate is a number or `None`.
pub(crate) fn act(alloc: Global, line: &str) -> Result<String> {
    let (verb, rest) = first_word(line);
    match verb {
        "rate" => share(alloc, rest),
        "is_outlier" => outlier(alloc, rest),
        _ => unknown("action", verb),
    }
}

fn share(alloc: Global, words: &str) -> Result<String> {
    let (good, total) = first_word(words);
    let (good, total) = (number(good)?, number(total)?);
    if good > total {
        bail!("more good results than results");
    }
    match rate(good, total) {
        Some(share) => shown(alloc, share),
        None => shown(alloc, "None"),
    }
}

fn outlier(alloc: Global, words: &str) -> Result<String> {
    let (factor, rest) = first_word(words);
    let (host, rates) = first_word(rest);
    let factor: u32 = number(factor)?;
    let host: usize = number(host)?;
    let rates = again!(rates_of(alloc, rates))?;
    if rates.len() > 64
        || host >= rates.len()
        || factor > 100_000
        || !are_shares(rates.as_slice())
    {
        bail!("no such rates");
    }
    let is_outlier = is_outlier(rates.as_slice(), host, factor);
    shown(alloc, is_outlier)
}

fn rates_of(alloc: Global, words: &str) -> Result<Vec<Option<u32>>> {
    let mut rates = Vec::new(alloc);
    for word in words.split(' ') {
        rates.push(match word {
            "None" => None,
            share => Some(number(share)?),
        })?;
    }
    Ok(rates)
}

fn are_shares(rates: &[Option<u32>]) -> bool
    ensures { IsTrue result → All (λ rate. ForSome rate (λ share. share ≤ 1000000)) rates.now }
{
    rates.iter().all(|rate| match *rate {
        Some(share) => share <= 1_000_000,
        None => true,
    })
}
