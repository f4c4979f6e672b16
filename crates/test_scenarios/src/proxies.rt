//! The core and the plain program side by side: each action is made on both, and their answers must be equal.

use crate::agreement::agreement;
use crate::answers::{all_refusals, refusal_text};
use crate::events::event_of;
use crate::outcome::outcome;
use crate::proxy::Proxy;
use crate::questions::{core_answer, is_question, plain_answer};
use crate::random_runs::{Randomly, run_each};
use crate::run::Run;
use crate::setting::Setting;
use anyhow::{Result, bail};
use proxy_core::{Core, Refusal};
use std::alloc::Global;
use std::mem;
use test_reference::Reference;
use test_rows::again;
use test_rows::numbers::Numbers;
use test_rows::shown::shown;
use test_rows::subject::Subject;
use test_rows::text::{first_word, number, unknown};

// The pass of a row's events, until an action names another.
const FIRST_PASS: u64 = 7;

const MADE: &str = "made";

/// The core, the plain program, or both, on one setting.
#[derive(Drop)]
pub struct Proxies {
    core: Option<Core>,
    // The core made by `hand_over`, or the one that this one starts from.
    other: Option<Core>,
    plain: Option<Reference>,
    pass: u64,
    run: Option<Run>,
}

impl Subject for Proxies {
    fn open(alloc: Global, words: &str) -> Result<Proxies> {
        let (name, arguments) = first_word(words);
        match name {
            "core" | "plain" | "both" => {
                Proxies::on(alloc, name, Setting::read(alloc, arguments)?)
            }
            _ => unknown("subject", name),
        }
    }

    /// Makes one action: an event, a question, or one of these:
    ///
    /// - `new ARGUMENTS` starts again;
    /// - `pass N` sets the pass of all later events;
    /// - the events between `run` and `end` are taken by one call;
    /// - `random SEED EVENTS` makes this many random events;
    /// - `random_runs SEEDS EVENTS` makes this many on fresh proxies for each seed;
    /// - `refusals` lists all refusals;
    /// - `hand_over ARGUMENTS` makes a core from this one's state on another setting, and `other` switches between the two.
    fn act(&mut self, alloc: Global, line: &str) -> Result<String> {
        let (name, rest) = first_word(line);
        match name {
            "new" => self.begin(alloc, rest),
            "pass" => self.set_pass(alloc, rest),
            "run" => self.begin_run(alloc),
            "end" => self.end_run(alloc),
            "random" => self.random(alloc, rest),
            "random_runs" => run_each(alloc, rest),
            "refusals" => all_refusals(alloc),
            "hand_over" => self.hand_over(alloc, rest),
            "other" => self.turn_to_other(alloc),
            _ if is_question(name) => self.question(alloc, line),
            _ => self.event(alloc, line),
        }
    }
}

impl Proxies {
    pub(crate) fn on(alloc: Global, name: &str, setting: Setting) -> Result<Proxies> {
        let mut proxies = Proxies {
            core: None,
            other: None,
            plain: None,
            pass: FIRST_PASS,
            run: None,
        };
        let made = proxies.make(alloc, name, &setting);
        drop(setting);
        match made {
            Ok(()) => Ok(proxies),
            Err(cause) => {
                drop(proxies);
                Err(cause)
            }
        }
    }

    fn make(&mut self, alloc: Global, name: &str, setting: &Setting) -> Result<()> {
        if name != "plain" {
            drop(self.core.replace(setting.core(alloc)?));
        }
        if name != "core" {
            drop(self.plain.replace(setting.plain(alloc)?));
        }
        Ok(())
    }

    fn begin(&mut self, alloc: Global, arguments: &str) -> Result<String> {
        let setting = Setting::read(alloc, arguments)?;
        let core = begun(alloc, &mut self.core, setting.core(alloc));
        let plain = begun(alloc, &mut self.plain, setting.plain(alloc));
        drop(setting);
        agreement(alloc, core, plain)
    }

    // Returns the length of this one's journal.
    fn hand_over(&mut self, alloc: Global, arguments: &str) -> Result<String> {
        let Some(core) = &self.core else {
            bail!("only a core hands over");
        };
        let handover = core.hand_over();
        let (steps, bytes) = (handover.steps(), handover.bytes());
        let setting = Setting::read(alloc, arguments)?;
        let made = setting.core_from(alloc, core);
        drop(setting);
        let told = self.keep_other(alloc, made)?;
        shown(alloc, format_args!("{steps} steps, {bytes} bytes, {told}"))
    }

    fn keep_other(&mut self, alloc: Global, made: Result<Core, Refusal>) -> Result<String> {
        match made {
            Ok(core) => {
                drop(self.other.replace(core));
                shown(alloc, MADE)
            }
            Err(cause) => refusal_text(alloc, cause),
        }
    }

    fn turn_to_other(&mut self, alloc: Global) -> Result<String> {
        mem::swap(&mut self.core, &mut self.other);
        Ok(String::new(alloc))
    }

    fn set_pass(&mut self, alloc: Global, pass: &str) -> Result<String> {
        self.pass = number(pass)?;
        Ok(String::new(alloc))
    }

    fn begin_run(&mut self, alloc: Global) -> Result<String> {
        drop(self.run.replace(Run::new(alloc)));
        Ok(String::new(alloc))
    }

    fn end_run(&mut self, alloc: Global) -> Result<String> {
        let Some(run) = self.run.take() else {
            bail!("no run has begun");
        };
        let core = run.on_core(alloc, &mut self.core);
        let plain = run.on_plain(alloc, &mut self.plain);
        drop(run);
        agreement(alloc, core, plain)
    }

    fn random(&mut self, alloc: Global, words: &str) -> Result<String> {
        let (seed, events) = first_word(words);
        let run = Randomly {
            numbers: Numbers(number(seed)?),
            events: number(events)?,
        };
        match self.run_randomly(alloc, run)? {
            Ok(_) => shown(alloc, "none differs"),
            Err(text) => Ok(text),
        }
    }

    /// The number of steps after random events, or the first event whose answers differ.
    pub(crate) fn run_randomly(
        &mut self,
        alloc: Global,
        run: Randomly,
    ) -> Result<Result<usize, String>> {
        let (Some(core), Some(plain)) = (&mut self.core, &mut self.plain) else {
            bail!("random events need the core and the plain program");
        };
        match run.first_difference(alloc, core, plain)? {
            Some(text) => Ok(Err(text)),
            None => Ok(Ok(core.journal().len())),
        }
    }

    fn question(&self, alloc: Global, question: &str) -> Result<String> {
        let core = core_answer(alloc, &self.core, question);
        let plain = plain_answer(alloc, &self.plain, question);
        agreement(alloc, core, plain)
    }

    fn event(&mut self, alloc: Global, line: &str) -> Result<String> {
        if let Some(run) = &mut self.run {
            run.add(alloc, self.pass, line)?;
            return Ok(String::new(alloc));
        }
        let core = taken_by(alloc, &mut self.core, self.pass, line);
        let plain = taken_by(alloc, &mut self.plain, self.pass, line);
        agreement(alloc, core, plain)
    }
}

// Nothing is replaced if there is no proxy, or the setting has an error.
fn begun<P: Drop>(
    alloc: Global,
    proxy: &mut Option<P>,
    fresh: Result<P, Refusal>,
) -> Result<Option<String>> {
    if proxy.is_none() {
        return Ok(None);
    }
    match fresh {
        Ok(fresh) => {
            drop(proxy.replace(fresh));
            Ok(Some(shown(alloc, MADE)?))
        }
        Err(cause) => Ok(Some(refusal_text(alloc, cause)?)),
    }
}

fn taken_by<P: Proxy>(
    alloc: Global,
    proxy: &mut Option<P>,
    pass: u64,
    line: &str,
) -> Result<Option<String>> {
    let Some(proxy) = proxy else {
        return Ok(None);
    };
    let event = again!(event_of(alloc, line))?;
    Ok(Some(outcome(alloc, proxy, pass, event)?))
}
