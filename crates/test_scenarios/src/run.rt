use crate::answers::{answer_text, put_answer, refusal_text};
use crate::events::event_of;
use crate::outcome::outcome;
use anyhow::Result;
use proxy_core::{Answer, Core, Event, Refusal};
use std::alloc::Global;
use test_reference::Reference;
use test_rows::again;

/// Events as lines, each with its pass.
#[derive(Drop)]
pub struct Run {
    lines: Vec<(u64, String)>,
}

impl Run {
    pub(crate) fn new(alloc: Global) -> Run {
        Run {
            lines: Vec::new(alloc),
        }
    }

    pub(crate) fn add(&mut self, alloc: Global, pass: u64, line: &str) -> Result<()> {
        self.lines.push((pass, String::from_str(alloc, line)?))?;
        Ok(())
    }

    /// Gives all events to the core in one call, made again where memory was refused. `None`: there is no core.
    pub(crate) fn on_core(&self, alloc: Global, core: &mut Option<Core>) -> Result<Option<String>> {
        let Some(core) = core else {
            return Ok(None);
        };
        let answers = again!(self.taken_by(alloc, core))?;
        let text = all_answers(alloc, answers.as_slice());
        drop(answers);
        Ok(Some(text?))
    }

    fn taken_by(&self, alloc: Global, core: &mut Core) -> Result<Vec<Result<Answer, Refusal>>> {
        Ok(core.run(self.pairs(alloc)?)?)
    }

    fn pairs(&self, alloc: Global) -> Result<Vec<(u64, Event)>> {
        let mut pairs = Vec::new(alloc);
        for (pass, line) in &self.lines {
            pairs.push((*pass, event_of(alloc, line.as_str())?))?;
        }
        Ok(pairs)
    }

    /// Gives the events to the plain program, one after another. `None`: there is none.
    pub(crate) fn on_plain(
        &self,
        alloc: Global,
        plain: &mut Option<Reference>,
    ) -> Result<Option<String>> {
        let Some(plain) = plain else {
            return Ok(None);
        };
        let mut text = String::new(alloc);
        for (pass, line) in &self.lines {
            let event = event_of(alloc, line.as_str())?;
            put_answer(&mut text, outcome(alloc, plain, *pass, event)?)?;
        }
        Ok(Some(text))
    }
}

fn all_answers(alloc: Global, answers: &[Result<Answer, Refusal>]) -> Result<String> {
    let mut text = String::new(alloc);
    for answer in answers {
        put_answer(&mut text, one_text(alloc, answer)?)?;
    }
    Ok(text)
}

fn one_text(alloc: Global, answer: &Result<Answer, Refusal>) -> Result<String> {
    match answer {
        Ok(answer) => answer_text(alloc, answer),
        Err(cause) => refusal_text(alloc, *cause),
    }
}
