ghost use Rattle.std.specs.Prelude.{◌≡◌, ◌-◌, ◌≤◌, ◌<◌, ◌⊎◌, ◌↔◌, ◌&&◌, Some, None, [], length, IfOk, IfErr, IsErrOf, IsOk, IsTrue, OnOk, OnErr, MatchOption};
ghost use Rattle.ejector.specs.Settings.{IsInRange, first_difference, first_fault};
ghost use Rattle.ejector.specs.Opening.{IsOpening};
ghost use Rattle.ejector.specs.State.{is_out};
ghost use Rattle.ejector.specs.UsableHosts.{is_panic};
ghost use Rattle.proxy_history.specs.Setting.{hosts};
ghost use Rattle.proxy_history.specs.History.{epoch, openings, times, is_any_closing, is_open};
ghost use Rattle.proxy_history.specs.Past.{past};
ghost use Rattle.proxy_history.specs.Waiting.{waiting_parts, flying_count};
ghost use Rattle.proxy_history.specs.Cause.{is_ready, own_cause};
ghost use Rattle.proxy_history.specs.Legal.{IsLegal, IsCause};
ghost use Rattle.proxy_history.specs.Payload.{payload};
ghost use Rattle.proxy_history.specs.Proxy.{history_in, rules_of, setting_from, setting_of, IsStep};
ghost use Rattle.proxy_core.specs.Pipelines.{next_connection, pipeline_of};
ghost use Rattle.proxy_core.specs.Machine.{IsKept};
ghost use Rattle.proxy_core.specs.Core.{IsMade, IsLeft, IsSettled, IsTurn, IsRun, detector_state, refusal_for};
ghost use Rattle.journal_core.specs.Journal.{IsFull};

use crate::handover::Handover;
use crate::keeping::{Counting, Keeping, Recording};
use crate::refused::Refused;
use crate::state::connections::Connections;
use crate::state::pipelines::Pipelines;
use ejector::{EjectError, EjectState, Ejector, Rules, Settings};
use journal_core::{Journal, JournalError, Step};
use ketama::Ring;
use limits::MAX_HOSTS;
use proxy_history::{Answer, Event, Refusal};
use resp_core::Texts;
use std::alloc::Global;
use std::boxed::Box;
use std::marker::{Model, PhantomData};
use std::snapshot::Snapshot;
use ticket_gate::Recorded;

/// The core of a proxy: it takes one event after another. `K` says what its journal keeps.
///
/// Contracts see its setting, and its steps, which are a legal history.
pub struct CoreOf<K: Keeping> {
    // On the heap, since a gate moves its state in and out at each turn.
    machine: Box<Machine>,
    keeping: PhantomData<K>,
}

/// A core that keeps all its steps.
pub type Core = CoreOf<Recording>;

/// A core that keeps its newest step alone. It answers and is refused as `Core` is, but takes no memory for steps.
pub type CountingCore = CoreOf<Counting>;

impl<K: Keeping> Drop for CoreOf<K> {
    fn drop(self) {
        let CoreOf {
            machine: _,
            keeping: _,
        } = self;
    }
}

impl<K: Keeping> Model for CoreOf<K> {
    ghost use Rattle.std.specs.Prelude.{◌≡◌};
    ghost use Rattle.proxy_history.specs.Proxy.{Proxy};
    ghost use Rattle.proxy_core.specs.Machine.{IsKept, setting_in};

    ghost Value = { Proxy };

    ghost use Rattle.std.specs.Coded.{codes};
    ghost use Rattle.resp_core.specs.Code.{tree_code};

    ghost coded = { Prim.hlevel (codes, tree_code) };

    ghost view = { λ c. record {
      setting = setting_in c.machine.value;
      steps = c.machine.value.journal.steps;
    } };

    ghost invariant = { λ c. IsKept c.machine.value
        × (c.machine.value.journal.records ≡ K.records) };
}

impl<K: Keeping> CoreOf<K> {
    /// A core to which nothing has happened.
    ///
    /// Refused 1011 with the first setting out of its range, or `hosts` where the ring has none; else refused only
    /// 1001 (no memory).
    pub fn new(alloc: Global, ring: Ring, settings: Settings) -> Result<CoreOf<K>, Refusal>
        ensures made { IfOk result (λ c. (c.setting ≡ setting_of ring settings) × (c.steps ≡ [])) }
        ensures refused { MatchOption (first_fault (setting_of ring settings).rules)
            (IfErr result (λ e. e ≡ Refusal.NoMemory))
            (λ field. IsErrOf result (Refusal.BadSettings field)) }
    {
        match Ejector::new(alloc, ring.hosts(), settings) {
            Ok(ejector) => CoreOf::with(alloc, ring, ejector),
            Err(error) => {
                drop(ring);
                Err(refusal_of(error))
            }
        }
    }

    /// A core that starts from another's handover. Its journal is empty. Its hosts keep their ejections, streaks,
    /// tallies and multipliers. Epochs and connection numbers begin at 0.
    ///
    /// Refused 1011 with the first field in which ring and settings differ from the handover's: `hosts`, then the
    /// settings in their order. If none differs, it is refused only 1001, for want of memory.
    pub fn new_from(
        alloc: Global,
        ring: Ring,
        settings: Settings,
        from: Handover,
    ) -> Result<CoreOf<K>, Refusal>
        ensures made { IfOk result (λ c. (c.setting ≡ setting_from ring from.detection)
            × (c.steps ≡ [])) }
        ensures rules { IfOk result (λ c. c.setting.rules ≡ rules_of ring settings) }
        ensures state { IfOk result (λ c. detector_state c ≡ from.detection.state) }
        ensures refused { MatchOption
            (first_difference (rules_of ring settings) from.detection.rules)
            (IfErr result (λ e. e ≡ Refusal.NoMemory))
            (λ field. IsErrOf result (Refusal.BadSettings field)) }
    {
        let rules = Rules {
            hosts: ring.hosts(),
            settings,
        };
        if let Some(field) = rules.first_difference(from.rules()) {
            return Err(Refusal::BadSettings { field });
        }
        match Ejector::new_from(alloc, from.into_detection()) {
            Ok(ejector) => CoreOf::with(alloc, ring, ejector),
            Err(_) => Err(Refusal::NoMemory),
        }
    }

    // A core with an empty journal and this state of outlier detection.
    fn with(alloc: Global, ring: Ring, ejector: Ejector) -> Result<CoreOf<K>, Refusal>
        requires { ejector.rules.hosts ≡ ring.hosts }
        ensures made { IfOk result (λ c. (c.setting ≡ setting_from ring ejector)
            × (c.steps ≡ [])) }
        ensures refused { IfErr result (λ e. e ≡ Refusal.NoMemory) }
    {
        let rules = ejector.rules();
        let pipelines = Pipelines::new(alloc, rules.hosts)?;
        let journal = new_journal(alloc, K::keeps_all());
        let machine = Machine {
            alloc,
            ring,
            opening: Snapshot::of(&ejector),
            ejector,
            journal,
            connections: Connections::new(alloc),
            pipelines,
            texts: Texts::new(alloc),
        };
        match Box::new(alloc, machine) {
            Ok(machine) => Ok(CoreOf {
                machine,
                keeping: PhantomData,
            }),
            Err(refused) => {
                drop(refused);
                Err(Refusal::NoMemory)
            }
        }
    }

    /// The state that another core can start from: outlier detection after all steps so far, and the journal's
    /// length.
    pub fn hand_over(&self) -> Handover
        ensures rules { result.detection.rules ≡ self.now.setting.rules }
        ensures state { result.detection.state ≡ detector_state self.now }
        ensures steps { result.steps ≡ length self.now.steps }
        ensures bytes { result.bytes ≡ payload (history_in self.now) }
    {
        let journal = &self.machine.journal;
        Handover::new(
            self.machine.ejector.snapshot(),
            journal.len() as u64,
            journal.bytes(),
        )
    }

    /// Takes one event of the pass `pass`: answers it as a legal history does, and adds its step with this answer.
    ///
    /// Refused by the first cause of the event's own that holds (1003 to 1010, 1012, 1013), else with 1002 where the
    /// journal would be full. It may be refused 1001, for want of memory, only where it has no cause of its own and its
    /// step fits the journal. (`Handed` may also where its step doesn't fit: its text takes memory before its length is
    /// known.) The event comes back, and nothing has changed.
    #[inline(always)]
    pub fn turn(&mut self, pass: u64, event: Event) -> Result<Answer, Refused>
        ensures step { IfOk result
            (λ a. IsStep self.old self.new pass event
            (record { pass = pass; event = event; answer = a })) }
        ensures legal { IsLegal self.new.setting (history_in self.new) }
        ensures event { IfErr result (λ r. r.event ≡ event) }
        ensures cause { IfErr result
            (λ r. IsCause self.old.setting (history_in self.old) event r.cause) }
        ensures err { OnErr result (self.new ≡ self.old) }
    {
        self.machine.turn(pass, event)
    }

    /// Takes one event after another, each of its pass. Item `i` of the result is the answer to pair `i`, or its
    /// refusal.
    ///
    /// Refused 1001 where there is no memory for the answers: no event was taken.
    pub fn run(&mut self, pairs: Vec<(u64, Event)>) -> Result<Vec<Result<Answer, Refusal>>, Refusal>
        ensures run { IfOk result
            (λ answers. IsRun self.old.setting (history_in self.old) pairs.items answers.items
            (history_in self.new)) }
        ensures legal { IsLegal self.new.setting (history_in self.new) }
        ensures setting { self.new.setting ≡ self.old.setting }
        ensures empty { pairs.items ≡ [] → IsOk result }
        ensures refused { IfErr result (λ r. r ≡ Refusal.NoMemory) }
        ensures err { OnErr result (self.new ≡ self.old) }
    {
        let mut answers = Vec::with_capacity(self.machine.alloc, pairs.len())?;
        for (pass, event) in pairs {
            answers.push_reserved(self.answer(pass, event));
        }
        Ok(answers)
    }

    // Takes one event, and drops it if it is refused.
    fn answer(&mut self, pass: u64, event: Event) -> Result<Answer, Refusal>
        ensures turn { IsTurn self.old.setting (history_in self.old) pass event result
            (history_in self.new) }
        ensures setting { self.new.setting ≡ self.old.setting }
    {
        match self.turn(pass, event) {
            Ok(answer) => Ok(answer),
            Err(Refused { cause, event }) => {
                drop(event);
                Err(cause)
            }
        }
    }

    /// The journal: the steps so far, which are a legal history, and the bytes of their payload. That of a `Core` keeps
    /// all steps, that of a `CountingCore` the newest alone.
    pub fn journal(&self) -> &Journal<Event, Answer>
        ensures steps { result.now.steps ≡ self.now.steps }
        ensures records { result.now.records ≡ K.records }
        ensures bytes { result.now.bytes ≡ payload (history_in self.now) }
        ensures legal { IsLegal self.now.setting (history_in self.now) }
    {
        &self.machine.journal
    }

    /// The number of the ring's hosts, 1 to 64.
    pub fn hosts(&self) -> usize
        ensures hosts { result ≡ hosts self.now.setting }
        ensures ring { result ≡ self.now.setting.ring.hosts }
        ensures range { IsInRange self.now.setting.rules }
        ensures opening { IsOpening self.now.setting.rules self.now.setting.opening }
        ensures some { 1 ≤ result }
        ensures few { result ≤ MAX_HOSTS }
    {
        self.machine.pipelines.len()
    }

    /// The epoch of a host: the number of its faults.
    pub fn epoch(&self, host: usize) -> u64
        requires { host < hosts self.now.setting }
        ensures { result ≡ epoch host (history_in self.now) }
    {
        self.machine.pipelines.epoch(host)
    }

    /// The number of parts that wait for a host.
    pub fn waiting(&self, host: usize) -> usize
        requires { host < hosts self.now.setting }
        ensures { result ≡ length (waiting_parts host
            (past self.now.setting (history_in self.now))) }
    {
        self.machine.pipelines.waiting(host)
    }

    /// The number of parts sent to a host in its epoch without a reply, with those of closed connections.
    pub fn flying(&self, host: usize) -> usize
        requires { host < hosts self.now.setting }
        ensures { result ≡ flying_count host (past self.now.setting (history_in self.now)) }
    {
        self.machine.pipelines.flying(host)
    }

    /// The connection to which the host's next reply belongs. `None` if no part flies to it, or if that connection
    /// is closed.
    pub fn next_owner(&self, host: usize) -> Option<u64>
        requires { host < hosts self.now.setting }
        ensures { result ≡ next_connection
            (pipeline_of (past self.now.setting (history_in self.now)) host).flying }
    {
        self.machine.pipelines.next_connection(host)
    }

    /// Whether the connection is open and all parts of its oldest command that isn't handed out have their values.
    /// Exactly then an event `Handed` for it has no cause of its own to be refused.
    pub fn is_ready(&self, conn: u64) -> bool
        ensures ready { result ≡ (is_open conn (history_in self.now)
            && is_ready conn (past self.now.setting (history_in self.now))) }
        ensures handed { IsTrue result ↔ (own_cause self.now.setting
            (past self.now.setting (history_in self.now)) (Event.Handed conn) ≡ None) }
    {
        self.machine.connections.is_ready(conn)
    }

    /// The number of open connections.
    pub fn open_connections(&self) -> usize
        ensures { result ≡ openings (history_in self.now)
            - times is_any_closing (history_in self.now) }
    {
        self.machine.connections.open_count()
    }

    /// Whether the host is ejected.
    pub fn is_out(&self, host: usize) -> bool
        requires { host < hosts self.now.setting }
        ensures { result ≡ is_out (detector_state self.now) host }
    {
        self.machine.ejector.is_out(host)
    }

    /// Whether so few hosts are available that all are used.
    pub fn in_panic(&self) -> bool
        ensures { result ≡ is_panic self.now.setting.rules (detector_state self.now) }
    {
        self.machine.ejector.in_panic()
    }
}

impl<K: Keeping> Recorded for CoreOf<K> {
    ghost use Rattle.proxy_core.specs.Recorded.{journal_of, made_with, IsLegalJournal, IsCauseIn, handover_of, legal_at_first, legal_before};

    type Event = Event;

    type Answer = Answer;

    type Refusal = Refusal;

    type Setting = (Ring, EjectState);

    type Sight = Handover;

    ghost journal = { journal_of };

    ghost setting = { made_with };

    ghost legal = { IsLegalJournal };

    ghost cause = { IsCauseIn };

    ghost sight_of = { handover_of };

    fn sight(&self) -> Handover {
        self.hand_over()
    }

    // Inlined, which saves a move of event and answer.
    #[inline(always)]
    fn turn(&mut self, pass: u64, event: Event) -> Result<Answer, (Refusal, Event)> {
        match CoreOf::turn(self, pass, event) {
            Ok(answer) => Ok(answer),
            Err(refused) => Err((refused.cause, refused.event)),
        }
    }

    ghost legal_at_first = { legal_at_first };

    ghost legal_before = { legal_before };
}

fn new_journal(alloc: Global, keeps_all: bool) -> Journal<Event, Answer>
    ensures steps { result.steps ≡ [] }
    ensures bytes { result.bytes ≡ 0 }
    ensures records { result.records ≡ keeps_all }
{
    if keeps_all {
        Journal::new(alloc)
    } else {
        Journal::counting()
    }
}

// The refusal of a core whose ejector was refused.
fn refusal_of(error: EjectError) -> Refusal
    ensures { result ≡ refusal_for error }
{
    match error {
        EjectError::BadSettings { field } => Refusal::BadSettings { field },
        EjectError::NoMemory => Refusal::NoMemory,
    }
}

/// The ring, and the state that the events have left.
#[derive(Drop)]
pub(crate) struct Machine {
    pub alloc: Global,
    pub ring: Ring,
    // Its rules are the core's.
    pub ejector: Ejector,
    // The state of outlier detection before the first step. Only contracts read it.
    pub opening: Snapshot<Ejector>,
    pub journal: Journal<Event, Answer>,
    pub connections: Connections,
    pub pipelines: Pipelines,
    // Writes the texts of parts and replies.
    pub texts: Texts,
}

/// The result of an event, before its step is added.
#[derive(Drop)]
pub(crate) struct Done {
    pub answer: Answer,
    /// The same answer, for the step.
    pub recorded: Answer,
    pub bytes: u64,
}

/// Where a reply or a fault comes from: a host, in one of its epochs.
#[derive(Clone, Copy)]
pub(crate) struct HostEpoch {
    pub host: usize,
    pub epoch: u64,
}

impl Machine {
    #[inline(always)]
    fn turn(&mut self, pass: u64, event: Event) -> Result<Answer, Refused>
        requires { IsKept self.old }
        ensures answered { IfOk result (λ a. IsMade self.old self.new pass event a) }
        ensures refused { IfErr result (λ r. IsLeft self.old self.new event r) }
    {
        match event {
            Event::Opened => self.turn_opened(pass),
            Event::Arrived { conn, request } => self.turn_arrived(pass, conn, request),
            Event::Finished { conn } => self.turn_finished(pass, conn),
            Event::Taken { host } => self.turn_taken(pass, host),
            Event::Answered {
                host,
                epoch,
                value,
                t,
            } => self.turn_answered(pass, HostEpoch { host, epoch }, value, t),
            Event::Failed {
                host,
                epoch,
                kind,
                t,
            } => self.turn_failed(pass, HostEpoch { host, epoch }, kind, t),
            Event::Swept { t } => self.turn_swept(pass, t),
            Event::Handed { conn } => self.turn_handed(pass, conn),
            Event::Closed { conn } => self.turn_closed(pass, conn),
        }
    }

    // Adds an event's step, or returns the event with its refusal. Callers know the kind of the event, so little is
    // moved.
    #[inline(always)]
    pub(crate) fn add_step(
        &mut self,
        pass: u64,
        event: Event,
        done: Result<Done, Refusal>,
    ) -> Result<Answer, Refused>
        requires { IfOk done (λ d. self.old.journal.room ≡ Some d.bytes) }
        ensures answered { IfOk result (λ a. IsSettled self.old self.new pass event done a) }
        ensures refused { IfErr result (λ r. (r.event ≡ event) × (done ≡ Err r.cause)
            × (self.new ≡ self.old)) }
    {
        match done {
            Ok(done) => {
                let answer = done.recorded;
                let step = Step {
                    pass,
                    event,
                    answer,
                };
                self.journal.add(step, done.bytes);
                Ok(done.answer)
            }
            Err(cause) => Err(Refused { cause, event }),
        }
    }
}

/// Makes room in a journal for a step with this many bytes of payload.
#[inline(always)]
pub(crate) fn make_room(journal: &mut Journal<Event, Answer>, bytes: u64) -> Result<(), Refusal>
    ensures room { OnOk result ((journal.new.room ≡ Some bytes) × (IsFull journal.old bytes → ⊥)) }
    ensures refused { IfErr result (λ r. ((r ≡ Refusal.NoMemory) × (IsFull journal.old bytes → ⊥))
        ⊎ ((r ≡ Refusal.JournalFull) × IsFull journal.old bytes)) }
    ensures steps { journal.new.steps ≡ journal.old.steps }
    ensures bytes { journal.new.bytes ≡ journal.old.bytes }
    ensures records { journal.new.records ≡ journal.old.records }
{
    match journal.room(bytes) {
        Ok(()) => Ok(()),
        Err(JournalError::NoMemory) => Err(Refusal::NoMemory),
        Err(JournalError::JournalFull) => Err(Refusal::JournalFull),
    }
}
