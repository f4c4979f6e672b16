//! The numbers of a run.
ghost use Rattle.std.specs.Prelude.{◌≡◌, ◌≤◌, ◌<◌, ◌+◌, [], ◌∷◌, ◌++◌, ℕ, List, length, filter, map, sum_by, vec_capacity, vec_len, IfOk, IfSome, IfNone};
ghost use Rattle.proxy_generations.specs.Events.{Event};
ghost use Rattle.proxy_generations.specs.GenerationsState.{Settings, Stands};
ghost use Rattle.proxy_histogram.specs.Values.{IsOf};
ghost use Rattle.proxy_stats.specs.RefusedNames.{AreAdded};
ghost use Rattle.proxy_stats.specs.Sums.{AreJoined, capped_sum};
ghost use Rattle.proxy_server.specs.Living.{is_beside, is_draining, look_at, seen_of, with_look, without};
ghost use Rattle.proxy_server.specs.CountSums.{AreSums};
ghost use Rattle.proxy_server.specs.LookSums.{IsLookSum};
ghost use Rattle.proxy_server.specs.NameSums.{AreNameSums};
ghost use Rattle.proxy_server.specs.declared.stats.TheConstants.{MAX_LIVING};

use crate::line::Inherited;
use crate::living::{self, Living};
use limits::MAX_GENERATIONS;
use proxy_generations::Generations;
use proxy_histogram::Histogram;
use proxy_pages::Look;
use proxy_stats::{Counts, RefusedNames, Sight};
use std::alloc::{AllocError, Global};

// Generations with connections, those closing their gates, and one that opens.
const MAX_LIVING: usize = MAX_GENERATIONS + 2;

#[derive(Drop)]
pub(crate) struct Stats {
    generations: u64,
    // Of generations that are gone.
    past: Counts,
    past_names: RefusedNames,
    past_steps: u64,
    living: Vec<Living>,
    durations: Histogram,
    ghost roomy: { MAX_LIVING ≤ vec_capacity living },
}

impl Stats {
    pub(crate) fn new(alloc: Global) -> Result<Stats, AllocError>
        ensures generations { IfOk result (λ s. s.generations ≡ 0) }
        ensures past { IfOk result (λ s. s.past ≡ Counts.NONE) }
        ensures names { IfOk result (λ s. s.past_names ≡ RefusedNames.NONE) }
        ensures steps { IfOk result (λ s. s.past_steps ≡ 0) }
        ensures living { IfOk result (λ s. s.living.items ≡ []) }
        ensures durations { IfOk result (λ s. IsOf [] s.durations) }
    {
        Ok(Stats {
            generations: 0,
            past: Counts::NONE,
            past_names: RefusedNames::NONE,
            past_steps: 0,
            living: Vec::with_capacity(alloc, MAX_LIVING)?,
            durations: Histogram::new(),
        })
    }

    pub(crate) fn opened(&mut self)
        ensures { self.new ≡ record self.old {
          generations = capped_sum (self.old.generations + 1);
        } }
    {
        self.generations = self.generations.saturating_add(1);
    }

    pub(crate) fn looked(&mut self, number: u64, sight: &Sight)
        ensures newest { length (without number self.old.living.items) < MAX_LIVING
            → self.new.living.items
            ≡ with_look (seen_of number sight.now) self.old.living.items }
        ensures rest { self.new
            ≡ record self.old { living = self.new.living; roomy = self.new.roomy } }
    {
        forget(&mut self.living, number);
        push_within(&mut self.living, Living::new(number, sight));
    }

    pub(crate) fn gone(&mut self, number: u64, counts: &Counts, names: &RefusedNames, steps: u64)
        ensures living { self.new.living.items ≡ without number self.old.living.items }
        ensures past { AreJoined self.old.past counts.now self.new.past }
        ensures names { AreAdded self.old.past_names names.now self.new.past_names }
        ensures steps { self.new.past_steps ≡ capped_sum (self.old.past_steps + steps) }
        ensures rest { self.new ≡ record self.old {
          living = self.new.living;
          roomy = self.new.roomy;
          past = self.new.past;
          past_names = self.new.past_names;
          past_steps = self.new.past_steps;
        } }
    {
        forget(&mut self.living, number);
        self.past = self.past.plus(counts);
        self.past_names = self.past_names.plus(names);
        self.past_steps = self.past_steps.saturating_add(steps);
    }

    pub(crate) fn add_durations(&mut self, durations: &Histogram)
        ensures sum { (mine others : List ℕ) → IsOf mine self.old.durations
            → IsOf others durations.now → IsOf (mine ++ others) self.new.durations }
        ensures rest { self.new ≡ record self.old { durations = self.new.durations } }
    {
        self.durations = self.durations.plus(durations);
    }

    pub(crate) fn generations(&self) -> u64
        ensures { result ≡ self.now.generations }
    {
        self.generations
    }

    /// The journal steps of all generations without connections.
    pub(crate) fn steps_beside(&self, generations: &Generations<Inherited>) -> u64
        ensures { (s : Settings) (es : List (Event Inherited)) → Stands generations.now s es
            → result ≡ capped_sum (self.now.past_steps + sum_by (λ l. l.look.steps)
            (filter (λ l. is_beside es l.number) self.now.living.items)) }
    {
        living::steps_beside(self.past_steps, generations, self.living.as_slice())
    }

    pub(crate) fn durations(&self) -> &Histogram
        ensures { result.now ≡ self.now.durations }
    {
        &self.durations
    }

    /// The counts of all generations: of those that are gone, and of the newest look at each that lives.
    pub(crate) fn counts(&self) -> Counts
        ensures { AreSums (self.now.past ∷ map (λ l. l.counts) self.now.living.items) result }
    {
        living::counts(&self.past, self.living.as_slice())
    }

    /// The names of refused commands of all generations.
    pub(crate) fn refused_names(&self) -> RefusedNames
        ensures { AreNameSums (self.now.past_names
            ∷ map (λ l. l.refused_names) self.now.living.items) result }
    {
        living::refused_names(&self.past_names, self.living.as_slice())
    }

    pub(crate) fn look(&self, number: Option<u64>) -> Look
        ensures found { IfSome (look_at number self.now.living.items) (λ l. result ≡ l.look) }
        ensures none { IfNone (look_at number self.now.living.items) (result ≡ Look.NONE) }
    {
        living::look(number, self.living.as_slice())
    }

    pub(crate) fn draining(&self, generations: &Generations<Inherited>) -> Look
        ensures { (s : Settings) (es : List (Event Inherited)) → Stands generations.now s es
            → IsLookSum (map (λ l. l.look)
            (filter (λ l. is_draining es l.number) self.now.living.items)) result }
    {
        living::draining(generations, self.living.as_slice())
    }
}

fn forget(living: &mut Vec<Living>, number: u64)
    ensures items { living.new.items ≡ without number living.old.items }
    ensures capacity { vec_capacity living.new ≡ vec_capacity living.old }
{
    living.retain(|one| one.number != number);
}

// Without room and memory it is left out.
fn push_within(living: &mut Vec<Living>, one: Living)
    ensures items { vec_len living.old < vec_capacity living.old
        → living.new.items ≡ living.old.items ++ one ∷ [] }
    ensures capacity { vec_capacity living.old ≤ vec_capacity living.new }
{
    let _ = living.push(one);
}
