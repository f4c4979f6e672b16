ghost use Rattle.std.specs.Prelude.{◌≡◌, ◌≢◌, ◌⊎◌, ◌↔◌, ℕ, List, [], Option, Some, None, IfOk, IfErr, IfSome, IsSome, OnOk, OnErr, true, false, unwrap_or, IsTrue};
ghost use Rattle.std.specs.Borrow.{sem};
ghost use Rattle.proxy_history.specs.History.{History};
ghost use Rattle.proxy_history.specs.OwnSteps.{host_steps};
ghost use Rattle.proxy_history.specs.declared.event.Event.{Event};
ghost use Rattle.proxy_history.specs.declared.refusal.Refusal.{Refusal};
ghost use Rattle.proxy_engines.specs.Turns.{KeepsTurns, own_history};
ghost use Rattle.proxy_engines.specs.OneTurn.{HasHeld};
ghost use Rattle.proxy_engines.specs.Moves.{AsTold, told_by_turn};
ghost use Rattle.proxy_engines.specs.Faults.{HasNoFaultOn, IsLate, IsDueErrorOn, IsPlain};
ghost use Rattle.proxy_engines.specs.Ends.{HasGivenAll};
ghost use Rattle.proxy_engines.specs.Host.{LinkState, CarriesHost};
ghost use Rattle.proxy_engines.specs.HostTurns.{MakesStep, ReceivesHost, RecordsFault, RestsSending, MovesEnds, MovesHost, SendsHost, TakesOne, TellsHost, call_of};
ghost use Rattle.proxy_engines.specs.HostStep.{TellsFault, after_fault, answer_of, ends_of, given_up, refused_link};
ghost use Rattle.proxy_engines.specs.LinkFaults.{Names};

use crate::client::Progress;
use crate::host_outbox::HostOutbox;
use crate::link::{Link, Outcome};
use crate::link_fault::LinkFault;
use engine_work::EngineError;
use proxy_core::{CoreTurns, Kind};
use proxy_devices::{ReadTally, WriteTally};
use std::alloc::Global;
use std::marker::Model;
use std::sync::Wait;

/// A host's engine: takes and writes waiting parts, and turns input into replies.
pub struct HostEngine<R: ReadTally, W: WriteTally> {
    alloc: Global,
    outbox: HostOutbox,
    link: Option<Link<R, W>>,
    fault: Option<Kind>,
    last_fault: Option<LinkFault>,
}

impl<R: ReadTally + Drop, W: WriteTally + Drop> Drop for HostEngine<R, W> {
    fn drop(self) {
        let HostEngine {
            alloc: _,
            outbox: _,
            link: _,
            fault: _,
            last_fault: _,
        } = self;
    }
}

// The result of a step that recorded an earlier fault first.
fn after_fault(told: Result<Progress, EngineError>) -> Result<Progress, EngineError>
    ensures { result ≡ after_fault told }
{
    match told {
        Ok(Progress::NeedsLink) => Ok(Progress::NeedsLink),
        Ok(_) => Ok(Progress::Moved),
        Err(error) => Err(error),
    }
}

impl<R: ReadTally, W: WriteTally> Model for HostEngine<R, W> {
    ghost use Rattle.proxy_engines.specs.HostStep.{HostState, IsWhole};
    ghost use Rattle.proxy_engines.specs.LinkFaults.{NamesUnrecorded};

    ghost Value = { HostState };

    ghost use Rattle.resp_core.specs.contracts.value.Value as value;
    ghost use Rattle.std.specs.Coded.{codes};
    ghost use Rattle.resp_core.specs.Code.{tree_code};

    ghost coded = { Prim.hlevel (codes, tree_code, value.the_row.coded) };

    ghost view = { λ e. record {
      outbox = e.outbox;
      link = e.link;
      fault = e.fault;
      last_fault = e.last_fault;
    } };

    ghost invariant = { λ e. IsWhole e.fault e.link
        × NamesUnrecorded e.fault e.link e.last_fault };
}

impl<R: ReadTally, W: WriteTally> HostEngine<R, W> {
    /// A host's engine without a link. A reply is late `reply_ms` milliseconds after its part was taken.
    pub fn new(alloc: Global, host: usize, reply_ms: u64) -> HostEngine<R, W>
        ensures outbox { result.outbox ≡ record {
          host = host;
          reply_ms = reply_ms;
          epoch = 0;
          pending
              = [];
          moments = [];
          is_astray = false;
        } }
        ensures link { (result.link ≡ None) × (result.fault ≡ None) }
        ensures last_fault { result.last_fault ≡ None }
        ensures carries { (H : History) → host_steps host H ≡ []
            → CarriesHost result.outbox result.link H [] [] }
    {
        HostEngine {
            alloc,
            outbox: HostOutbox::new(alloc, host, reply_ms),
            link: None,
            fault: None,
            last_fault: None,
        }
    }
}

#[tactic(auto, using(crate::proofs::HostLemmas::works_on, crate::proofs::HostLemmas::works_left, crate::proofs::HostLemmas::works_told))]
impl<R: ReadTally + Drop, W: WriteTally + Drop> HostEngine<R, W> {
    ghost use Rattle.proxy_devices.specs.Device.{reader_state, writer_state};
    ghost use Rattle.proxy_engines.specs.Lends.{lends_host_reader, lends_host_writer, with_link, with_link_reader, with_link_writer};

    /// The host's number.
    pub fn host(&self) -> usize
        ensures { result ≡ self.now.outbox.host }
    {
        self.outbox.host()
    }

    /// Whether a part was taken that has no reply yet.
    pub fn awaits_reply(&self) -> bool
        ensures { IsTrue result ↔ self.now.outbox.moments ≢ [] }
    {
        self.outbox.awaits_reply()
    }

    /// Why the last link ended, or none was made; `None` before the first fault.
    pub fn last_fault(&self) -> Option<LinkFault>
        ensures { result ≡ self.now.last_fault }
    {
        self.last_fault
    }

    /// The link's reader, if there is a link.
    pub fn reader(&self) -> Option<&R>
        ensures there { IsSome result ↔ IsSome self.now.link }
        ensures value { IfSome result (λ r. self.now
            ≡ with_link self.now (λ k. with_link_reader k
            (reader_state R.remaining R.told R.counts r.now))) }
    {
        match &self.link {
            Some(link) => Some(link.reader()),
            None => None,
        }
    }

    /// The link's reader, if there is a link, for calls that read nothing for the engine. Where these leave its log as
    /// it was, the engine's facts stay true.
    pub fn reader_mut(&mut self) -> Option<&mut R>
        ensures* writes_back { sem 𝓛 (lends_host_reader R.row W.row (record { told = R.told })
            (record { remaining = R.remaining }) (record { counts = R.counts })
            (record { taken = W.taken; passed = W.passed }) (record { contents = W.contents })
            (record { counts = W.counts }) self.entry result) }
        ensures there { IsSome result ↔ IsSome self.old.link }
        ensures value { IfSome result (λ r. self.old
            ≡ with_link self.old (λ k. with_link_reader k
            (reader_state R.remaining R.told R.counts r.now))) }
    {
        match &mut self.link {
            Some(link) => Some(link.reader_mut()),
            None => None,
        }
    }

    /// The link's writer, if there is a link.
    pub fn writer(&self) -> Option<&W>
        ensures there { IsSome result ↔ IsSome self.now.link }
        ensures value { IfSome result (λ r. self.now
            ≡ with_link self.now (λ k. with_link_writer k
            (writer_state W.contents W.taken W.passed W.counts r.now))) }
    {
        match &self.link {
            Some(link) => Some(link.writer()),
            None => None,
        }
    }

    /// The link's writer, if there is a link, for calls that write nothing for the engine. Where these leave its log as
    /// it was, the engine's facts stay true.
    pub fn writer_mut(&mut self) -> Option<&mut W>
        ensures* writes_back { sem 𝓛 (lends_host_writer R.row W.row (record { told = R.told })
            (record { remaining = R.remaining }) (record { counts = R.counts })
            (record { taken = W.taken; passed = W.passed }) (record { contents = W.contents })
            (record { counts = W.counts }) self.entry result) }
        ensures there { IsSome result ↔ IsSome self.old.link }
        ensures value { IfSome result (λ r. self.old
            ≡ with_link self.old (λ k. with_link_writer k
            (writer_state W.contents W.taken W.passed W.counts r.now))) }
    {
        match &mut self.link {
            Some(link) => Some(link.writer_mut()),
            None => None,
        }
    }

    // If the turn is refused, the next step makes it first.
    fn record_fault<Rt: Wait, T: CoreTurns>(
        &mut self,
        rt: &Rt,
        turns: &mut T,
        kind: Kind,
        moment: u64,
    ) -> Result<(), EngineError>
        requires named { Names kind self.old.link self.old.last_fault }
        ensures records { RecordsFault T.cause (T.facts turns.old) (T.facts turns.new)
            self.old self.new kind moment result }
    {
        self.fault = Some(kind);
        self.outbox.fail(rt, turns, kind, moment)?;
        drop(self.link.take());
        self.fault = None;
        Ok(())
    }

    /// Attaches a link. The host must have none, and no fault that isn't recorded.
    ///
    /// Refused 1401: the reader and the writer come back, and the engine hasn't changed.
    pub fn attach(&mut self, reader: R, writer: W) -> Result<(), (EngineError, R, W)>
        requires none { self.old.link ≡ None }
        requires no_fault { self.old.fault ≡ None }
        ensures outbox { self.new.outbox ≡ self.old.outbox }
        ensures fault { self.new.fault ≡ None }
        ensures link { OnOk result ((k : LinkState) × (self.new.link ≡ Some k)
            × (k.inbox.left ≡ R.remaining reader) × (k.held ≡ W.contents writer)
            × (k.inbox.told ≡ R.told reader) × (k.taken ≡ W.taken writer)) }
        ensures carries { OnOk result ((H : History) → CarriesHost self.old.outbox None H [] []
            → CarriesHost self.new.outbox self.new.link H [] []) }
        ensures err { IfErr result (λ e. (self.new ≡ self.old) × (e.0 ≡ EngineError.NoMemory)
            × (e.1 ≡ reader) × (e.2 ≡ writer)) }
    {
        match Link::new(self.alloc, reader, writer) {
            Ok(link) => {
                drop(self.link.replace(link));
                Ok(())
            }
            Err((reader, writer)) => Err((EngineError::NoMemory, reader, writer)),
        }
    }

    /// Records that no link to the host could be made: one Failed turn of kind Refused. There must be no link.
    ///
    /// Refused 1404: the next step makes that turn first.
    pub fn refused<Rt: Wait, T: CoreTurns>(
        &mut self,
        rt: &Rt,
        turns: &mut T,
        moment: u64,
    ) -> Result<(), EngineError>
        requires none { self.old.link ≡ None }
        ensures records { RecordsFault T.cause (T.facts turns.old) (T.facts turns.new)
            (refused_link self.old) self.new Kind.Refused moment result }
    {
        self.fault = Some(Kind::Refused);
        self.last_fault = Some(LinkFault::Refused);
        self.record_fault(rt, turns, Kind::Refused, moment)
    }

    /// Gives up the host's parts: one Failed turn of kind Dropped, and a link is dropped. A fault that isn't recorded
    /// yet gives its own kind instead. A value that waits for its turn is dropped with the link.
    ///
    /// Refused 1404: the next step makes that turn first.
    pub fn give_up<Rt: Wait, T: CoreTurns>(
        &mut self,
        rt: &Rt,
        turns: &mut T,
        moment: u64,
    ) -> Result<(), EngineError>
        ensures records { RecordsFault T.cause (T.facts turns.old) (T.facts turns.new)
            (given_up self.old) self.new (unwrap_or self.old.fault Kind.Dropped) moment result }
    {
        let Some(kind) = self.fault else {
            self.last_fault = Some(LinkFault::GivenUp);
            return self.record_fault(rt, turns, Kind::Dropped, moment);
        };
        self.record_fault(rt, turns, kind, moment)
    }

    fn tell_fault<Rt: Wait, T: CoreTurns>(
        &mut self,
        rt: &Rt,
        turns: &mut T,
        kind: Kind,
        error: Option<EngineError>,
        moment: u64,
    ) -> Result<Progress, EngineError>
        requires named { Names kind self.old.link self.old.last_fault }
        ensures turns { KeepsTurns (T.facts turns.old) (T.facts turns.new) }
        ensures tells { TellsFault (call_of T.cause (T.facts turns.old) (T.facts turns.new)
            self.old self.new moment) kind error result }
        ensures due { (result ≡ answer_of error) ⊎ IfErr result (IsDueErrorOn
            (T.cause (T.facts turns.old).setting) (T.facts turns.new).seen self.new.outbox) }
    {
        self.record_fault(rt, turns, kind, moment)?;
        match error {
            None => Ok(Progress::Moved),
            Some(error) => Err(error),
        }
    }

    fn go_on_link<Rt: Wait, T: CoreTurns>(
        &mut self,
        rt: &Rt,
        turns: &mut T,
        moment: u64,
    ) -> Result<Progress, EngineError>
        requires some { self.old.link ≢ None }
        requires no_fault { self.old.fault ≡ None }
        ensures moves { MovesHost T.cause (T.facts turns.old) (T.facts turns.new)
            self.old self.new moment result }
    {
        let Some(link) = &mut self.link else {
            unreachable!()
        };
        match link.step(&mut self.outbox, rt, turns, moment)? {
            Outcome::Idle => Ok(Progress::Idle),
            Outcome::Moved => Ok(Progress::Moved),
            Outcome::Fault { kind, error } => {
                self.last_fault = Some(LinkFault::of(kind, link.passed_limit()));
                self.fault = Some(kind);
                self.tell_fault(rt, turns, kind, error, moment)
            }
        }
    }

    // Takes one part, if none is pending.
    fn take_one<Rt: Wait, T: CoreTurns>(
        &mut self,
        rt: &Rt,
        turns: &mut T,
        moment: u64,
    ) -> Result<bool, EngineError>
        requires none { self.old.link ≡ None }
        ensures moves { MovesEnds T.cause (T.facts turns.old) (T.facts turns.new)
            (ends_of self.old) (ends_of self.new) moment (told_by_turn result) result }
        ensures takes { TakesOne (T.cause (T.facts turns.old).setting) (T.facts turns.new).seen
            self.old self.new result }
    {
        if self.outbox.is_empty() {
            self.outbox.take(rt, turns, moment)
        } else {
            Ok(false)
        }
    }

    fn go_on_alone<Rt: Wait, T: CoreTurns>(
        &mut self,
        rt: &Rt,
        turns: &mut T,
        moment: u64,
    ) -> Result<Progress, EngineError>
        requires none { self.old.link ≡ None }
        requires no_fault { self.old.fault ≡ None }
        ensures moves { MovesHost T.cause (T.facts turns.old) (T.facts turns.new)
            self.old self.new moment result }
        ensures link { self.new.link ≡ None }
    {
        let taken = self.take_one(rt, turns, moment)?;
        if self.outbox.is_late(moment) {
            self.last_fault = Some(LinkFault::Late);
            return self.tell_fault(rt, turns, Kind::Late, None, moment);
        }
        if !self.outbox.is_empty() {
            return Ok(Progress::NeedsLink);
        }
        if taken {
            Ok(Progress::Moved)
        } else {
            Ok(Progress::Idle)
        }
    }

    // One step without an unrecorded fault.
    fn go_on<Rt: Wait, T: CoreTurns>(
        &mut self,
        rt: &Rt,
        turns: &mut T,
        moment: u64,
    ) -> Result<Progress, EngineError>
        requires no_fault { self.old.fault ≡ None }
        ensures moves { MovesHost T.cause (T.facts turns.old) (T.facts turns.new)
            self.old self.new moment result }
        ensures alone { self.old.link ≡ None → self.new.link ≡ None }
    {
        if self.link.is_some() {
            self.go_on_link(rt, turns, moment)
        } else {
            self.go_on_alone(rt, turns, moment)
        }
    }

    fn send_on<Rt: Wait, T: CoreTurns>(
        &mut self,
        rt: &Rt,
        turns: &mut T,
        moment: u64,
    ) -> Result<Progress, EngineError>
        requires no_fault { self.old.fault ≡ None }
        ensures { SendsHost T.cause (T.facts turns.old) (T.facts turns.new)
            self.old self.new moment result }
    {
        let Some(link) = &mut self.link else {
            return Ok(Progress::Idle);
        };
        match link.send(&mut self.outbox, rt, turns, moment)? {
            Outcome::Idle => Ok(Progress::Idle),
            Outcome::Moved => Ok(Progress::Moved),
            Outcome::Fault { kind, error } => {
                self.last_fault = Some(LinkFault::of(kind, link.passed_limit()));
                self.fault = Some(kind);
                self.tell_fault(rt, turns, kind, error, moment)
            }
        }
    }

    /// Sends at this moment, in milliseconds, and reads nothing: on a link it writes pending bytes once, or takes one
    /// part if none are pending. `Moved`: the writer took bytes, or a part was taken. `Idle`: the writer paused, no part
    /// waits, there is no link, or an earlier fault is to be recorded first. So all parts that wait are sent before the
    /// link is read.
    ///
    /// A failed write is a fault of kind Dropped, as in [`step`](HostEngine::step), and refused 1403. Refused 1401 for
    /// want of memory and 1404 where a turn was refused; the next call then continues at the same place.
    pub fn send<Rt: Wait, T: CoreTurns>(
        &mut self,
        rt: &Rt,
        turns: &mut T,
        moment: u64,
    ) -> Result<Progress, EngineError>
        ensures sends { self.old.fault ≡ None → SendsHost T.cause
            (T.facts turns.old) (T.facts turns.new) self.old self.new moment result }
        ensures rests { self.old.fault ≢ None → RestsSending T.cause
            (T.facts turns.old) (T.facts turns.new) self.old self.new result }
    {
        if self.fault.is_some() {
            return Ok(Progress::Idle);
        }
        self.send_on(rt, turns, moment)
    }

    fn receive_on<Rt: Wait, T: CoreTurns>(
        &mut self,
        rt: &Rt,
        turns: &mut T,
        moment: u64,
    ) -> Result<Progress, EngineError>
        requires no_fault { self.old.fault ≡ None }
        ensures { ReceivesHost T.cause (T.facts turns.old) (T.facts turns.new)
            self.old self.new moment result }
    {
        let Some(link) = &mut self.link else {
            return Ok(Progress::Idle);
        };
        match link.receive_in_time(&mut self.outbox, rt, turns, moment)? {
            Outcome::Idle => Ok(Progress::Idle),
            Outcome::Moved => Ok(Progress::Moved),
            Outcome::Fault { kind, error } => {
                self.last_fault = Some(LinkFault::of(kind, link.passed_limit()));
                self.fault = Some(kind);
                self.tell_fault(rt, turns, kind, error, moment)
            }
        }
    }

    /// Makes a step at this moment, in milliseconds. It records an earlier fault. It writes pending bytes once, or
    /// takes one part. On a link it makes a reply of each value read, reads once, and makes a reply of each value that
    /// came. Last, a late reply is a fault.
    ///
    /// A fault is recorded and the link dropped. It is Dropped at the end of the input or where a device failed,
    /// Garbled for a refused byte or an unasked value, or Late. `NeedsLink`: bytes are pending and there is no link.
    ///
    /// Refused 1402 or 1403 where the reader or the writer failed in this call; the fault was then recorded. Refused
    /// 1401 for want of memory and 1404 where a turn was refused; the next step then continues at the same place.
    pub fn step<Rt: Wait, T: CoreTurns>(
        &mut self,
        rt: &Rt,
        turns: &mut T,
        moment: u64,
    ) -> Result<Progress, EngineError>
        ensures makes { MakesStep T.cause (T.facts turns.old) (T.facts turns.new)
            self.old self.new moment result }
        ensures tells { TellsHost T.cause (T.facts turns.old) (T.facts turns.new)
            self.old self.new moment result }
    {
        let Some(kind) = self.fault else {
            return self.go_on(rt, turns, moment);
        };
        self.record_fault(rt, turns, kind, moment)?;
        after_fault(self.go_on(rt, turns, moment))
    }

    /// Makes the part of a [`step`](HostEngine::step) that reads, at this moment in milliseconds, and sends nothing; or a
    /// whole one where an earlier fault is to be recorded. `Idle`: the reader paused, or there is no link. So all replies
    /// of one read can be made in one stay inside a gate.
    ///
    /// Faults come as there, and so do the refusals 1401, 1402 and 1404. 1403 comes of a whole step alone.
    pub fn receive<Rt: Wait, T: CoreTurns>(
        &mut self,
        rt: &Rt,
        turns: &mut T,
        moment: u64,
    ) -> Result<Progress, EngineError>
        ensures makes { MakesStep T.cause (T.facts turns.old) (T.facts turns.new)
            self.old self.new moment result }
        ensures receives { self.old.fault ≡ None → ReceivesHost T.cause
            (T.facts turns.old) (T.facts turns.new) self.old self.new moment result }
        ensures tells { self.old.fault ≢ None → TellsHost T.cause
            (T.facts turns.old) (T.facts turns.new) self.old self.new moment result }
    {
        if self.fault.is_some() {
            return self.step(rt, turns, moment);
        }
        self.receive_on(rt, turns, moment)
    }
}
