//! A generation that drains and its task as one word, so that both are read and shown at once.
ghost use Rattle.std.specs.Prelude.{◌≡◌, ◌<◌, ℕ, Some, IfSome, IfNone, List, length, slice_index};
ghost use Rattle.proxy_generations.specs.declared.phase.Phase.{Phase as PhaseOf};
ghost use Rattle.proxy_generations.specs.Events.{Event};
ghost use Rattle.proxy_generations.specs.GenerationsState.{Settings, Stands};
ghost use Rattle.proxy_server.specs.Board.{IsAnew};
ghost use Rattle.proxy_server.specs.Words.{AreShown, FitsWord, IsWord, code_of};

use crate::line::Inherited;
use proxy_generations::{Generations, Phase, draining_are_older};

/// The word that shows no generation.
pub(crate) const NOBODY: u64 = 3;

// Greater numbers don't fit a word.
const MAX_NUMBER: u64 = (1 << 62) - 1;

/// A generation that drains, and what it is to do.
#[derive(Clone, Copy, Drop)]
pub(crate) struct Shown {
    pub(crate) number: u64,
    pub(crate) task: Phase,
}

fn code(task: Phase) -> u64
    ensures { result ≡ code_of task }
{
    match task {
        Phase::Draining => 0,
        Phase::GivingUp => 1,
        Phase::Stopped => 2,
        Phase::Unopened | Phase::Serving => 3,
    }
}

/// The word of this generation with this task; `NOBODY` where no word can show it.
pub(crate) fn pack(shown: Shown) -> u64
    ensures shown { FitsWord shown.number shown.task → IsWord result shown.number shown.task }
    ensures nobody { ¬ FitsWord shown.number shown.task → result ≡ NOBODY }
{
    let code = code(shown.task);
    if code < NOBODY && shown.number <= MAX_NUMBER {
        4 * shown.number + code
    } else {
        NOBODY
    }
}

/// What a word shows.
pub(crate) fn unpack(word: u64) -> Option<Shown>
    ensures told { (number : ℕ) (task : PhaseOf) → IsWord word number task
        → result ≡ Some (record { number = number; task = task }) }
    ensures some { IfSome result (λ shown. IsWord word shown.number shown.task) }
{
    let number = word / 4;
    match word % 4 {
        0 => Some(Shown {
            number,
            task: Phase::Draining,
        }),
        1 => Some(Shown {
            number,
            task: Phase::GivingUp,
        }),
        2 => Some(Shown {
            number,
            task: Phase::Stopped,
        }),
        _ => None,
    }
}

fn task_of(word: u64, number: u64) -> Option<Phase>
    ensures some { IfSome result (λ task. IsWord word number task) }
    ensures none { IfNone result ((task : PhaseOf) → ¬ IsWord word number task) }
{
    let Some(shown) = unpack(word) else {
        return None;
    };
    if shown.number == number {
        Some(shown.task)
    } else {
        None
    }
}

/// The task of this generation, by the first word that shows it.
pub(crate) fn task_in(words: &[u64], number: u64) -> Option<Phase>
    ensures shown { IfSome result (λ task. AreShown words.now number task) }
    ensures none { IfNone result ((task : PhaseOf) → ¬ AreShown words.now number task) }
{
    for word in words {
        if let Some(task) = task_of(*word, number) {
            return Some(task);
        }
    }
    None
}

/// The first place whose word shows no generation.
pub(crate) fn free_place(words: &[u64]) -> Option<usize>
    ensures free { IfSome result (λ place. (number : ℕ) (task : PhaseOf)
        → ¬ IsWord (slice_index words.now place) number task) }
    ensures within { IfSome result (λ place. place < length words.now) }
{
    for place in 0..words.len() {
        match unpack(words[place]) {
            None => return Some(place),
            Some(_) => {}
        }
    }
    None
}

/// The word that comes in the place of this one, now that these generations have changed.
pub(crate) fn anew(word: u64, generations: &Generations<Inherited>) -> u64
    ensures { (s : Settings) (es : List (Event Inherited)) → Stands generations.now s es
        → IsAnew word es result }
{
    draining_are_older::<Inherited>();
    let Some(shown) = unpack(word) else {
        return NOBODY;
    };
    match generations.task(shown.number) {
        Some(task) => pack(Shown {
            number: shown.number,
            task,
        }),
        None => NOBODY,
    }
}
