//! A core that tallies what it does.
ghost use Rattle.std.specs.Prelude.{◌≡◌, ◌∷◌, [], ◌++◌, List, IfOk, IfSome};
ghost use Rattle.proxy_history.specs.History.{Step as StepOf};
ghost use Rattle.proxy_stats.specs.Counts.{AreKept, HasCounted, counts_of};
ghost use Rattle.proxy_stats.specs.RefusedNames.{AreNamesOf, no_names};
ghost use Rattle.proxy_stats.specs.Refusals.{noted_in, refused_in, refused_names_of};
ghost use Rattle.proxy_stats.specs.Sums.{AreCounts};

use crate::load::{Load, load_of};
use crate::refused_names::RefusedNames;
use crate::tally::Counts;
use crate::telling::{Teller, concern_of};
use ejector::EjectState;
use ketama::Ring;
use proxy_core::{Answer, CoreState, CountingCore, Event, Handover, Journal, Refusal};
use proxy_notices::Notices;
use std::alloc::{AllocError, Global};
use std::boxed::Box;
use std::marker::Model;
use std::sync::Arc;
use ticket_gate::Recorded;

/// A core with its counts, which tells workers what its turns brought them.
pub struct TalliedCore {
    core: CountingCore,
    // On the heap, since a gate moves its state in and out at each turn.
    counts: Box<Counts>,
    names: Box<RefusedNames>,
    teller: Box<Teller>,
}

impl Drop for TalliedCore {
    fn drop(self) {
        let TalliedCore {
            core: _,
            counts: _,
            names: _,
            teller: _,
        } = self;
    }
}

/// The sight of a core that counts, all of one moment.
#[derive(Drop)]
pub struct Sight {
    /// The state that another core can start from.
    pub handover: Handover,

    /// The counts so far.
    pub counts: Counts,

    /// The names of the refused commands so far.
    pub refused_names: RefusedNames,

    /// The core's load.
    pub load: Load,
}

impl Model for TalliedCore {
    ghost use Rattle.proxy_history.specs.Proxy.{Proxy};

    ghost Value = { Proxy };

    ghost use Rattle.std.specs.Coded.{codes};
    ghost use Rattle.resp_core.specs.Code.{tree_code};
    ghost use Rattle.proxy_stats.specs.Refusals.{AreTallied};

    ghost coded = { Prim.hlevel (codes, tree_code) };

    ghost view = { λ c. c.core };

    ghost invariant = { λ c. AreTallied c.core.steps c.counts.value c.names.value };
}

impl TalliedCore {
    /// Counts the steps of a core that has none yet, and tells of them by the notices.
    ///
    /// Refused where there is no memory for the counts; the core is dropped.
    pub fn new(
        alloc: Global,
        core: CountingCore,
        notices: Arc<Notices>,
    ) -> Result<TalliedCore, AllocError>
        requires { core.steps ≡ [] }
        ensures { IfOk result (λ c. c ≡ core) }
    {
        let Some(counts) = boxed(alloc, counts_of_nothing()) else {
            return Err(AllocError);
        };
        let Some(names) = boxed(alloc, no_refused_names()) else {
            return Err(AllocError);
        };
        match boxed(alloc, Teller::new(notices)) {
            Some(teller) => Ok(TalliedCore {
                core,
                counts,
                names,
                teller,
            }),
            None => Err(AllocError),
        }
    }

    /// The counts so far: sums over the steps of the core's journal. Its time doesn't depend on their number.
    pub fn counts(&self) -> &Counts
        ensures sums { AreCounts self.now.steps result.now }
        ensures value { result.now ≡ counts_of self.now.steps }
    {
        let _journal = self.core.journal();
        &self.counts
    }

    /// The names of the commands so far that the core refused as unsupported.
    pub fn refused_names(&self) -> &RefusedNames
        ensures names { AreNamesOf (refused_in self.now.steps) result.now }
        ensures value { result.now ≡ refused_names_of self.now.steps }
    {
        let _journal = self.core.journal();
        &self.names
    }

    /// The core.
    pub fn core(&self) -> &CountingCore
        ensures { result.now ≡ self.now }
    {
        &self.core
    }
}

impl Recorded for TalliedCore {
    ghost use Rattle.proxy_core.specs.Recorded.{journal_of, made_with, IsLegalJournal, IsCauseIn, legal_at_first, legal_before};
    ghost use Rattle.proxy_stats.specs.Sight.{sight_of};

    type Event = Event;

    type Answer = Answer;

    type Refusal = Refusal;

    type Setting = (Ring, EjectState);

    type Sight = Sight;

    ghost journal = { journal_of };

    ghost setting = { made_with };

    ghost legal = { IsLegalJournal };

    ghost cause = { IsCauseIn };

    ghost sight_of = { sight_of };

    fn sight(&self) -> Sight {
        Sight {
            handover: Recorded::sight(&self.core),
            counts: *self.counts(),
            refused_names: *self.refused_names(),
            load: load_of(&self.core),
        }
    }

    #[inline(always)]
    fn turn(&mut self, pass: u64, event: Event) -> Result<Answer, (Refusal, Event)> {
        let concern = concern_of(&self.core, &event);
        let result = Recorded::turn(&mut self.core, pass, event);
        if let Ok(_) = &result {
            count_last(self.core.journal(), &mut self.counts, &mut self.names);
            self.teller.tell(&self.core, concern);
        }
        result
    }

    ghost legal_at_first = { legal_at_first };

    ghost legal_before = { legal_before };
}

impl CoreState for TalliedCore {
    ghost use Rattle.proxy_core.specs.JournalLaws.{core_laws};

    ghost laws = { core_laws };
}

// The counts of no steps.
fn counts_of_nothing() -> Counts
    ensures { AreKept [] result }
{
    Counts::NONE
}

// The names of no steps.
fn no_refused_names() -> RefusedNames
    ensures { result ≡ no_names }
{
    RefusedNames::NONE
}

// `None`: there is no memory, and the value is dropped.
fn boxed<T: Drop>(alloc: Global, value: T) -> Option<Box<T>>
    ensures { IfSome result (λ b. b.value ≡ value) }
{
    match Box::new(alloc, value) {
        Ok(boxed) => Some(boxed),
        Err(refused) => {
            drop(refused);
            None
        }
    }
}

fn count_last(journal: &Journal<Event, Answer>, counts: &mut Counts, names: &mut RefusedNames)
    ensures counts { (steps : List StepOf) (step : StepOf) → journal.now.steps ≡ steps ++ step ∷ []
        → HasCounted counts.old step counts.new }
    ensures names { (steps : List StepOf) (step : StepOf) → journal.now.steps ≡ steps ++ step ∷ []
        → names.new ≡ noted_in names.old step }
{
    if let Some(step) = journal.last() {
        counts.add(step);
        names.note_refused(step);
    }
}
