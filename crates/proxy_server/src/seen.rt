//! What a thread reads of the board about one generation.
ghost use Rattle.std.specs.Prelude.{◌≡◌, ◌↔◌, ◌⊎◌, List, Some, IsTrue, IsSome};
ghost use Rattle.proxy_generations.specs.Events.{Event, newest};
ghost use Rattle.proxy_generations.specs.History.{IsHistory};
ghost use Rattle.proxy_generations.specs.Phase.{IsPhase, IsTask};
ghost use Rattle.proxy_server.specs.Board.{Shows};

use crate::line::Inherited;
use crate::words::task_in;
use proxy_generations::{Generations, Phase, generations_follow};

/// A generation, the newest open one, and the task of the first by the words on the board.
#[derive(Clone, Copy, Drop)]
pub(crate) struct Seen {
    number: u64,
    newest: Option<u64>,
    task: Option<Phase>,
}

impl Seen {
    pub(crate) fn new(number: u64, newest: Option<u64>, words: &[u64]) -> Seen
        ensures number { result.number ≡ number }
        ensures newest { result.newest ≡ newest }
        ensures task { (es : List (Event Inherited)) → Shows words.now es
            → IsTask result.task es number }
    {
        Seen {
            number,
            newest,
            task: task_in(words, number),
        }
    }

    /// The newest open generation, of which no word needs to be read.
    pub(crate) fn of_newest(number: u64) -> Seen
        ensures number { result.number ≡ number }
        ensures newest { result.newest ≡ Some number }
        ensures task { (es : List (Event Inherited)) → IsHistory es → newest es ≡ Some number
            → IsTask result.task es number }
    {
        generations_follow::<Inherited>();
        Seen {
            number,
            newest: Some(number),
            task: None,
        }
    }

    /// What the generation is to do.
    pub(crate) fn phase(&self) -> Phase
        ensures { (es : List (Event Inherited)) → IsHistory es → self.now.newest ≡ newest es
            → IsTask self.now.task es self.now.number → IsPhase result es self.now.number }
    {
        Generations::<Inherited>::phase_by(self.newest, self.task, self.number)
    }

    /// Whether the generation is the newest open one, or drains.
    pub(crate) fn has_connections(&self) -> bool
        ensures { IsTrue result
            ↔ ((self.now.newest ≡ Some self.now.number) ⊎ IsSome self.now.task) }
    {
        self.newest == Some(self.number) || self.task.is_some()
    }
}
