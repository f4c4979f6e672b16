//! A core that plays a script.

use crate::script::{Told, told_of};
use crate::setting::core_of;
use anyhow::{Result, bail};
use proxy_core::Core;
use proxy_record::{Beside, Payloads, put_end, put_step};
use std::alloc::{AllocError, Global};

/// A core behind a script, and what the script knows of each step: its moment, and whether an integer is in the clear.
#[derive(Drop)]
pub(crate) struct Played {
    core: Core,
    payloads: Payloads,
    known: Vec<(u64, bool)>,
}

impl Played {
    /// Plays a script.
    pub(crate) fn of(alloc: Global, script: &str) -> Result<Played> {
        let mut lines = script.lines();
        let (mut core, payloads) = core_of(alloc, lines.next().unwrap_or(""))?;
        let mut known = Vec::new(alloc);
        for line in lines {
            let Told {
                pass,
                at,
                is_sum,
                event,
            } = told_of(alloc, line)?;
            if core.turn(pass, event).is_ok() {
                known.push((at, is_sum))?;
            }
        }
        Ok(Played {
            core,
            payloads,
            known,
        })
    }

    /// The number of its steps.
    pub(crate) fn steps(&self) -> usize {
        self.core.journal().len()
    }

    /// Appends the line of step `i`; behind the last step, the last line.
    pub(crate) fn put_line(
        &self,
        alloc: Global,
        i: usize,
        out: &mut Vec<u8>,
    ) -> Result<(), AllocError> {
        let journal = self.core.journal();
        match (journal.get(i), self.known.get(i)) {
            (Some(step), Some((at, is_sum))) => {
                let beside = Beside {
                    number: i as u64,
                    at: Some(*at),
                    is_sum: *is_sum,
                    is_cut: false,
                };
                put_step(alloc, step, &self.payloads, beside, out)
            }
            _ => put_end(alloc, journal.len() as u64, journal.bytes(), out),
        }
    }
}

/// The lines of the journal that a script makes.
pub(crate) fn record_of(alloc: Global, script: &str) -> Result<String> {
    let played = Played::of(alloc, script)?;
    let mut out = Vec::new(alloc);
    for i in 0..=played.steps() {
        played.put_line(alloc, i, &mut out)?;
    }
    drop(played);
    match String::from_utf8(out) {
        Ok(text) => Ok(text),
        Err(_) => bail!("the record is no text"),
    }
}
