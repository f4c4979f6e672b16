//! Rows of outlier detection.

use crate::marks;
use anyhow::{Result, bail};
use ejector::{EjectError, Ejector, Settings};
use std::alloc::Global;
use std::ops::RangeInclusive;
use test_rows::again;
use test_rows::series::Series;
use test_rows::settings::{bad_settings, set_field, set_tags};
use test_rows::shown::{refusal_words, shown};
use test_rows::text::{first_word, number, unknown};

/// Makes one action on the row's latest ejector: `new HOSTS KEY=N ..`, or an action of `told`.
pub(crate) fn act(alloc: Global, ejector: &mut Option<Ejector>, line: &str) -> Result<String> {
    let (verb, rest) = first_word(line);
    if verb == "new" {
        return make(alloc, ejector, rest);
    }
    match ejector {
        Some(ejector) => told(alloc, ejector, verb, rest),
        None => bail!("no ejector is made"),
    }
}

fn make(alloc: Global, kept: &mut Option<Ejector>, words: &str) -> Result<String> {
    let (hosts, fields) = first_word(words);
    let hosts = number(hosts)?;
    let settings = settings_of(fields)?;
    match again!(Ejector::new(alloc, hosts, settings)) {
        Ok(ejector) => {
            drop(kept.replace(ejector));
            shown(alloc, "Ok")
        }
        Err(error) => error_text(alloc, error),
    }
}

// The default settings with these fields changed.
fn settings_of(fields: &str) -> Result<Settings> {
    let mut settings = Settings::default();
    for field in fields.split_whitespace() {
        match field.split_once('=') {
            Some((key, text)) => set_field(&mut settings, key, number(text)?)?,
            None => set_tags(&mut settings, field)?,
        }
    }
    Ok(settings)
}

// The ejector's answer to `good HOSTS MOMENT`, `bad HOSTS MOMENT`, `mixed HOST MOMENT` (a good and a bad result),
// `sweep MOMENT`, `marks SEED MARKS MOMENT`, `go_on`, or an action of `seen`. `HOSTS` is one, or the first and the
// last. `go_on` replaces it by an ejector that starts from its state.
fn told(alloc: Global, ejector: &mut Ejector, verb: &str, words: &str) -> Result<String> {
    match verb {
        "good" => results(alloc, ejector, true, words),
        "bad" => results(alloc, ejector, false, words),
        "mixed" => mixed(alloc, ejector, words),
        "sweep" => sweep(alloc, ejector, number(words)?),
        "marks" => marks::played(alloc, ejector, words),
        "go_on" => go_on(alloc, ejector),
        _ => seen(alloc, ejector, verb, words),
    }
}

fn go_on(alloc: Global, ejector: &mut Ejector) -> Result<String> {
    match again!(Ejector::new_from(alloc, ejector.snapshot())) {
        Ok(next) => {
            *ejector = next;
            shown(alloc, "Ok")
        }
        Err(error) => error_text(alloc, error),
    }
}

// Actions that don't change it: `is_out HOST`, `usable HOST`, `multiplier HOST`, `all_usable`, `in_panic`, `rules`.
fn seen(alloc: Global, ejector: &Ejector, verb: &str, words: &str) -> Result<String> {
    match verb {
        "all_usable" => again!(all_usable(alloc, ejector)),
        "in_panic" => shown(alloc, ejector.in_panic()),
        "rules" => rules_text(alloc, ejector),
        _ => seen_of(alloc, ejector, verb, number(words)?),
    }
}

fn seen_of(alloc: Global, ejector: &Ejector, verb: &str, host: usize) -> Result<String> {
    if host >= ejector.rules().hosts {
        bail!("there is no host {host}");
    }
    match verb {
        "is_out" => shown(alloc, ejector.is_out(host)),
        "usable" => shown(alloc, ejector.usable(host)),
        "multiplier" => shown(alloc, ejector.multiplier(host)),
        _ => unknown("action", verb),
    }
}

fn results(alloc: Global, ejector: &mut Ejector, ok: bool, words: &str) -> Result<String> {
    let (hosts, moment) = first_word(words);
    let moment = number(moment)?;
    let Some((first, last)) = hosts.split_once('-') else {
        return result(alloc, ejector, number(hosts)?, ok, moment);
    };
    results_of(alloc, ejector, number(first)?..=number(last)?, ok, moment)
}

fn results_of(
    alloc: Global,
    ejector: &mut Ejector,
    hosts: RangeInclusive<usize>,
    ok: bool,
    moment: u64,
) -> Result<String> {
    let mut series = Series::new(alloc);
    for host in hosts {
        series.add(result(alloc, ejector, host, ok, moment)?)?;
    }
    series.text()
}

fn mixed(alloc: Global, ejector: &mut Ejector, words: &str) -> Result<String> {
    let (host, moment) = first_word(words);
    let (host, moment) = (number(host)?, number(moment)?);
    let good = result(alloc, ejector, host, true, moment)?;
    let bad = result(alloc, ejector, host, false, moment)?;
    shown(alloc, format_args!("{good} {bad}"))
}

fn result(
    alloc: Global,
    ejector: &mut Ejector,
    host: usize,
    ok: bool,
    moment: u64,
) -> Result<String> {
    if host >= ejector.rules().hosts {
        bail!("there is no host {host}");
    }
    match again!(ejector.result(host, ok, moment)) {
        Ok(trip) => shown(alloc, format_args!("{trip:?}")),
        Err(error) => error_text(alloc, error),
    }
}

fn sweep(alloc: Global, ejector: &mut Ejector, moment: u64) -> Result<String> {
    match again!(ejector.sweep(moment)) {
        Ok(swept) => {
            let (returned, ejected, kept) = (swept.returned, swept.ejected, swept.kept);
            shown(
                alloc,
                format_args!("returned {returned}, ejected {ejected}, kept {kept}"),
            )
        }
        Err(error) => error_text(alloc, error),
    }
}

fn all_usable(alloc: Global, ejector: &Ejector) -> Result<String> {
    let mut usable = vec![in alloc; false; ejector.rules().hosts]?;
    ejector.all_usable(usable.as_mut_slice());
    listed(alloc, usable.as_slice())
}

fn listed(alloc: Global, truths: &[bool]) -> Result<String> {
    let mut text = String::new(alloc);
    for is_so in truths {
        if !text.is_empty() {
            text.push(' ')?;
        }
        write!(text, "{is_so}")?;
    }
    Ok(text)
}

fn rules_text(alloc: Global, ejector: &Ejector) -> Result<String> {
    let rules = ejector.rules();
    let fault = rules.first_fault();
    shown(alloc, format_args!("{rules:?}, fault {fault:?}"))
}

fn error_text(alloc: Global, error: EjectError) -> Result<String> {
    match error {
        EjectError::BadSettings { field } => bad_settings(alloc, error.number(), field),
        EjectError::NoMemory => refusal_words(alloc, error.number(), &error),
    }
}
