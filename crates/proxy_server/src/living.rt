//! The newest looks at the generations that live.
ghost use Rattle.std.specs.Prelude.{◌≡◌, ◌+◌, [], ◌∷◌, List, filter, map, sum_by, IfSome, IfNone};
ghost use Rattle.proxy_generations.specs.Events.{Event};
ghost use Rattle.proxy_generations.specs.GenerationsState.{Settings, Stands};
ghost use Rattle.proxy_stats.specs.Sums.{capped_sum};
ghost use Rattle.proxy_server.specs.Living.{is_beside, is_draining, is_number, look_at, seen_of};
ghost use Rattle.proxy_server.specs.CountSums.{AreSums};
ghost use Rattle.proxy_server.specs.LookSums.{IsLookSum};
ghost use Rattle.proxy_server.specs.NameSums.{AreNameSums};

use crate::line::Inherited;
use crate::look_sum::{both, no_look};
use proxy_generations::Generations;
use proxy_pages::Look;
use proxy_stats::{Counts, RefusedNames, Sight};

/// The newest look at a generation.
#[derive(Clone, Copy, Drop)]
pub(crate) struct Living {
    pub(crate) number: u64,
    pub(crate) counts: Counts,
    pub(crate) refused_names: RefusedNames,
    pub(crate) look: Look,
}

impl Living {
    pub(crate) fn new(number: u64, sight: &Sight) -> Living
        ensures { result ≡ seen_of number sight.now }
    {
        Living {
            number,
            counts: sight.counts,
            refused_names: sight.refused_names,
            look: Look {
                steps: sight.handover.steps(),
                bytes: sight.handover.bytes(),
                load: sight.load,
            },
        }
    }
}

fn no_counts() -> Counts
    ensures { AreSums [] result }
{
    Counts::NONE
}

/// The sum of these counts and of all looks.
pub(crate) fn counts(past: &Counts, living: &[Living]) -> Counts
    ensures { AreSums (past.now ∷ map (λ l. l.counts) living.now) result }
{
    let mut counts = no_counts().plus(past);
    for one in living {
        counts = counts.plus(&one.counts);
    }
    counts
}

fn no_names() -> RefusedNames
    ensures { AreNameSums [] result }
{
    RefusedNames::NONE
}

/// The sum of these names and of all looks.
pub(crate) fn refused_names(past: &RefusedNames, living: &[Living]) -> RefusedNames
    ensures { AreNameSums (past.now ∷ map (λ l. l.refused_names) living.now) result }
{
    let mut names = no_names().plus(past);
    for one in living {
        names = names.plus(&one.refused_names);
    }
    names
}

fn is_number(number: Option<u64>, this: u64) -> bool
    ensures { result ≡ is_number number this }
{
    match number {
        None => false,
        Some(number) => number == this,
    }
}

/// The look at the generation of this number; `Look::NONE` if there is none.
pub(crate) fn look(number: Option<u64>, living: &[Living]) -> Look
    ensures found { IfSome (look_at number living.now) (λ l. result ≡ l.look) }
    ensures none { IfNone (look_at number living.now) (result ≡ Look.NONE) }
{
    for one in living {
        if is_number(number, one.number) {
            return one.look;
        }
    }
    Look::NONE
}

fn is_draining(generations: &Generations<Inherited>, number: u64) -> bool
    ensures { (s : Settings) (es : List (Event Inherited)) → Stands generations.now s es
        → result ≡ is_draining es number }
{
    generations.drains(number)
}

fn is_beside(generations: &Generations<Inherited>, number: u64) -> bool
    ensures { (s : Settings) (es : List (Event Inherited)) → Stands generations.now s es
        → result ≡ is_beside es number }
{
    !(is_number(generations.newest(), number) || is_draining(generations, number))
}

/// The sum of the looks at those that drain.
pub(crate) fn draining(generations: &Generations<Inherited>, living: &[Living]) -> Look
    ensures { (s : Settings) (es : List (Event Inherited)) → Stands generations.now s es
        → IsLookSum (map (λ l. l.look) (filter (λ l. is_draining es l.number) living.now)) result }
{
    let mut look = no_look();
    for one in living {
        if is_draining(generations, one.number) {
            look = both(&look, &one.look);
        }
    }
    look
}

/// These steps and those of generations that live without connections.
pub(crate) fn steps_beside(
    past: u64,
    generations: &Generations<Inherited>,
    living: &[Living],
) -> u64
    ensures { (s : Settings) (es : List (Event Inherited)) → Stands generations.now s es
        → result ≡ capped_sum (past
        + sum_by (λ l. l.look.steps) (filter (λ l. is_beside es l.number) living.now)) }
{
    let mut steps = past;
    for one in living {
        if is_beside(generations, one.number) {
            steps = steps.saturating_add(one.look.steps);
        }
    }
    steps
}
