//! The common interface of the core and the plain program.

use proxy_core::{Answer, Core, Event, Refusal, Refused, Step};
use test_reference::Reference;

/// A proxy that takes one event after another, and keeps a step for each that it answered.
pub trait Proxy {
    /// Takes an event of a pass. Returns the answer if the call has it beside the step.
    fn turn(&mut self, pass: u64, event: Event) -> Result<Option<Answer>, (Refusal, Event)>;

    /// The number of steps.
    fn steps(&self) -> usize;

    /// Step `i`, counted from 0 at the oldest.
    fn step(&self, i: usize) -> Option<&Step<Event, Answer>>;
}

impl Proxy for Core {
    fn turn(&mut self, pass: u64, event: Event) -> Result<Option<Answer>, (Refusal, Event)> {
        match Core::turn(self, pass, event) {
            Ok(answer) => Ok(Some(answer)),
            Err(Refused { cause, event }) => Err((cause, event)),
        }
    }

    fn steps(&self) -> usize {
        self.journal().len()
    }

    fn step(&self, i: usize) -> Option<&Step<Event, Answer>> {
        self.journal().get(i)
    }
}

impl Proxy for Reference {
    fn turn(&mut self, pass: u64, event: Event) -> Result<Option<Answer>, (Refusal, Event)> {
        Reference::turn(self, pass, event)?;
        Ok(None)
    }

    fn steps(&self) -> usize {
        Reference::steps(self).len()
    }

    fn step(&self, i: usize) -> Option<&Step<Event, Answer>> {
        Reference::steps(self).get(i)
    }
}
