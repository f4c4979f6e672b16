//! A host's connection, as its worker holds it.
ghost use Rattle.std.specs.Prelude.{◌≡◌, ◌↔◌, ◌⊎◌, [], None, Some, IfOk, IsTrue};
ghost use Rattle.journal_budget.specs.Budget.{free_steps};
ghost use Rattle.proxy_history.specs.History.{History};
ghost use Rattle.proxy_engines.specs.HostStep.{ends_of};
ghost use Rattle.proxy_engines.specs.Turns.{own_history};
ghost use Rattle.proxy_connections.specs.Sockets.{KeepsHost};
ghost use Rattle.proxy_connections.specs.WorkerConnections.{CarriesLink};

use crate::host_fault::{HostFault, LostLink};
use crate::host_link::{HostLink, LinkState};
use crate::round::HostRound;
use crate::socket::{Reader, Socket, Writer, note_readable, note_writable};
use crate::step_error::StepError;
use fresh_stream::{Connected, FreshStream};
use journal_room::{HeldTurns, JournalRoom, MeteredTurns, TurnCounts};
use limits::MAX_HOSTS;
use mio::event::Event as Readiness;
use open_sockets::Traffic;
use proxy_engines::{EngineError, HostEngine, Progress};
use proxy_exit_status::Ending;
use proxy_histogram::{Flights, Histogram};
use proxy_serve_core::Refusals;
use std::alloc::Global;
use std::net::{Net, SocketAddr};
use std::sync::{Arc, Wait};

// The most steps of one host in a round, and the most sends before each step.
const MAX_HOST_STEPS: u32 = 4_096;

// A host is looked at after this many milliseconds at the latest, so that a late reply is noticed.
const LOOK_MS: u64 = 10;

type Engine = HostEngine<Reader, Writer>;

#[derive(Clone, Copy, Drop)]
enum HostMoved {
    On,
    Waits,
}

/// What came of a host's round.
#[derive(Clone, Copy, Drop)]
pub enum HostStepped {
    /// No link ended on which something was asked.
    Done,
    /// A link ended so, or none could be made.
    Faulty(LostLink),
}

/// How long a host took for replies.
#[derive(Clone, Copy, Drop)]
pub struct HostTime {
    /// The host's number.
    pub host: usize,
    /// From each part's sending to its reply.
    pub durations: Histogram,
}

pub(crate) struct HostConnection {
    alloc: Global,
    engine: Engine,
    link: HostLink,
    looked: u64,
    // The last round ended before all was done.
    has_more: bool,
    refusals: Refusals,
    // The bytes that had come on the link when a reply was last taken.
    begun: u64,
    // The bytes of a large unfinished reply that were reported.
    coming: u64,
    // A part had no reply at the last look.
    is_asked: bool,
    // It is still to be told.
    lost_link: Option<LostLink>,
    flights: Flights,
    // What its links have moved, beside those of the worker's other hosts.
    traffic: Arc<Traffic>,
}

impl Drop for HostConnection {
    fn drop(self) {
        let HostConnection {
            alloc: _,
            engine: _,
            link: _,
            looked: _,
            has_more: _,
            refusals: _,
            begun: _,
            coming: _,
            is_asked: _,
            lost_link: _,
            flights: _,
            traffic: _,
        } = self;
    }
}

impl HostConnection {
    pub(crate) fn new(
        alloc: Global,
        host: usize,
        link: HostLink,
        reply_ms: u64,
        traffic: Arc<Traffic>,
    ) -> HostConnection
        ensures host { result.engine.outbox.host ≡ host }
        ensures address { result.link ≡ link }
        ensures carries { CarriesLink [] result }
    {
        HostConnection {
            alloc,
            engine: HostEngine::new(alloc, host, reply_ms),
            link,
            looked: 0,
            has_more: true,
            refusals: Refusals::new(),
            begun: 0,
            coming: 0,
            is_asked: false,
            lost_link: None,
            flights: Flights::new(alloc),
            traffic,
        }
    }

    /// Takes the durations of its replies since the last call. `None`: there were no replies.
    pub(crate) fn take_time(&mut self) -> Option<HostTime>
        ensures engine { self.new.engine ≡ self.old.engine }
        ensures address { self.new.link ≡ self.old.link }
    {
        let durations = self.flights.take_durations();
        if durations.total == 0 {
            return None;
        }
        Some(HostTime {
            host: self.engine.host(),
            durations,
        })
    }

    /// Host h has bit h.
    pub(crate) fn bit(&self) -> u64 {
        let host = self.engine.host();
        if host < MAX_HOSTS { 1 << host } else { 0 }
    }

    pub(crate) fn address(&self) -> SocketAddr {
        self.link.address()
    }

    pub(crate) fn is_connecting(&self, now: u64) -> bool {
        self.link.is_connecting(now)
    }

    pub(crate) fn on_readiness(&mut self, event: &Readiness)
        ensures engine { self.new.engine ≡ self.old.engine }
        ensures address { self.new.link ≡ self.old.link }
    {
        self.link.on_readiness();
        if let Some(reader) = self.engine.reader_mut() {
            note_readable(reader, event);
        }
        if let Some(writer) = self.engine.writer_mut() {
            note_writable(writer, event);
        }
    }

    /// No part was sent without a reply, and none waited when the last round ended.
    pub(crate) fn is_at_rest(&self) -> bool {
        !self.has_more
            && !self.engine.awaits_reply()
            && !matches!(self.link.state(), LinkState::Connecting { .. })
    }

    /// Whether a round can make progress, where no new parts wait.
    pub(crate) fn may_go(&self, now: u64) -> bool {
        self.has_more || now.saturating_sub(self.looked) >= LOOK_MS || self.has_event()
    }

    fn has_event(&self) -> bool {
        match self.link.state() {
            LinkState::Down => false,
            LinkState::Connecting { has_event, .. } => *has_event,
            LinkState::Up(_) => {
                self.may_read()
                    || match self.engine.writer() {
                        Some(writer) => writer.may_write(),
                        None => false,
                    }
            }
        }
    }

    /// Steps the engine until it has to wait, writes what it buffered, and connects where a link is needed.
    pub(crate) fn run_once<R: Wait + Net, T: HeldTurns>(
        &mut self,
        rt: &R,
        turns: &mut MeteredTurns<T>,
        buffer: &mut Vec<u8>,
        round: HostRound<'_>,
    ) -> Result<HostStepped, StepError>
        ensures keeps { KeepsHost (ends_of self.old.engine) (ends_of self.new.engine)
            (own_history (T.facts turns.old.turns))
            (own_history (T.facts turns.new.turns)) }
        ensures address { self.new.link ≡ self.old.link }
    {
        self.has_more = false;
        self.looked = round.now;
        self.lend_buffer(buffer);
        self.flights.begin_round();
        let stepped = self.step_engine(rt, turns, round);
        let counts = turns.leave_with_counts();
        self.flights.note(round.now_us, counts.sent, counts.matched);
        self.write_out(buffer);
        self.has_more = self.has_more || stepped.is_err();
        match stepped {
            Ok(()) => Ok(self.take_stepped()),
            Err(StepError::Memory) if self.refusals.refused() => Err(StepError::Ends(
                Ending::Memory,
            )),
            Err(error) => Err(error),
        }
    }

    fn take_stepped(&mut self) -> HostStepped
        ensures engine { self.new.engine ≡ self.old.engine }
        ensures address { self.new.link ≡ self.old.link }
    {
        match self.lost_link.take() {
            Some(lost_link) => HostStepped::Faulty(lost_link),
            None => HostStepped::Done,
        }
    }

    fn lend_buffer(&mut self, buffer: &mut Vec<u8>)
        ensures engine { self.new.engine ≡ self.old.engine }
        ensures address { self.new.link ≡ self.old.link }
    {
        if let Some(writer) = self.engine.writer_mut() {
            writer.lend_buffer(buffer);
        }
    }

    // Once a write has failed reads fail too.
    fn write_out(&mut self, buffer: &mut Vec<u8>)
        ensures engine { self.new.engine ≡ self.old.engine }
        ensures address { self.new.link ≡ self.old.link }
    {
        if let Some(writer) = self.engine.writer_mut() {
            writer.write_out(buffer);
        }
        if self.is_broken() {
            self.break_off_reads();
        }
    }

    fn is_broken(&self) -> bool {
        match self.engine.writer() {
            Some(writer) => writer.is_broken(),
            None => false,
        }
    }

    fn break_off_reads(&mut self)
        ensures engine { self.new.engine ≡ self.old.engine }
        ensures address { self.new.link ≡ self.old.link }
    {
        if let Some(reader) = self.engine.reader_mut() {
            reader.break_off();
        }
    }

    // It stops after `MAX_HOST_STEPS`, and behind a fault that is to be told.
    fn step_engine<R: Wait + Net, T: HeldTurns>(
        &mut self,
        rt: &R,
        turns: &mut MeteredTurns<T>,
        round: HostRound<'_>,
    ) -> Result<(), StepError>
        ensures keeps { KeepsHost (ends_of self.old.engine) (ends_of self.new.engine)
            (own_history (T.facts turns.old.turns))
            (own_history (T.facts turns.new.turns)) }
        ensures address { self.new.link ≡ self.old.link }
    {
        for _ in 0..MAX_HOST_STEPS {
            match self.go_on_noting(rt, turns, round)? {
                HostMoved::On => {}
                HostMoved::Waits => return Ok(()),
            }
        }
        self.has_more = true;
        Ok(())
    }

    // As `go_on`. A fault that is to be told ends the round.
    fn go_on_noting<R: Wait + Net, T: HeldTurns>(
        &mut self,
        rt: &R,
        turns: &mut MeteredTurns<T>,
        round: HostRound<'_>,
    ) -> Result<HostMoved, StepError>
        ensures keeps { KeepsHost (ends_of self.old.engine) (ends_of self.new.engine)
            (own_history (T.facts turns.old.turns))
            (own_history (T.facts turns.new.turns)) }
        ensures address { self.new.link ≡ self.old.link }
    {
        let before = *turns.counts();
        self.is_asked = self.engine.awaits_reply();
        let moved = self.go_on(rt, turns, round);
        self.note_fault(&before, turns.counts(), round);
        self.end_behind_fault(moved)
    }

    fn note_fault(&mut self, before: &TurnCounts, now: &TurnCounts, round: HostRound<'_>)
        ensures engine { self.new.engine ≡ self.old.engine }
        ensures address { self.new.link ≡ self.old.link }
    {
        if now.faults == before.faults {
            return;
        }
        // (the engine has taken one part at most since)
        self.flights.note(round.now_us, now.sent, now.matched);
        self.flights
            .forget(round.now_us, self.engine.awaits_reply());
        let lost = now.lost.saturating_sub(before.lost);
        if let Some(fault) = self.engine.last_fault() {
            let host = self.engine.host();
            self.lost_link = match HostFault::of(fault, self.is_asked, round.gives_up) {
                Some(fault) => Some(LostLink { host, fault, lost }),
                None => None,
            };
        }
    }

    fn end_behind_fault(
        &mut self,
        moved: Result<HostMoved, StepError>,
    ) -> Result<HostMoved, StepError>
        ensures engine { self.new.engine ≡ self.old.engine }
        ensures address { self.new.link ≡ self.old.link }
    {
        match moved {
            Ok(_) if self.lost_link.is_some() => {
                self.has_more = true;
                Ok(HostMoved::Waits)
            }
            moved => moved,
        }
    }

    // Where a link is needed it is made, or the waiting parts are given up.
    fn go_on<R: Wait + Net, T: HeldTurns>(
        &mut self,
        rt: &R,
        turns: &mut MeteredTurns<T>,
        round: HostRound<'_>,
    ) -> Result<HostMoved, StepError>
        ensures keeps { KeepsHost (ends_of self.old.engine) (ends_of self.new.engine)
            (own_history (T.facts turns.old.turns))
            (own_history (T.facts turns.new.turns)) }
        ensures address { self.new.link ≡ self.old.link }
    {
        match self.step(rt, turns, round)? {
            Progress::Moved => {
                self.refusals.succeeded();
                Ok(HostMoved::On)
            }
            Progress::NeedsLink if makes_no_link(turns, round) => {
                self.give_up(rt, turns, round.now)?;
                Ok(HostMoved::On)
            }
            Progress::NeedsLink => {
                turns.leave();
                self.make_link(rt, turns, round)
            }
            Progress::Idle | Progress::Cut | Progress::Ended => {
                self.refusals.succeeded();
                // (the parts of an attempt are gone, and the next one starts another)
                self.link.abandon_connecting();
                Ok(HostMoved::Waits)
            }
        }
    }

    fn make_link<R: Wait + Net, T: HeldTurns>(
        &mut self,
        rt: &R,
        turns: &mut MeteredTurns<T>,
        round: HostRound<'_>,
    ) -> Result<HostMoved, StepError>
        requires link { self.old.engine.link ≡ None }
        requires fault { self.old.engine.fault ≡ None }
        ensures keeps { KeepsHost (ends_of self.old.engine) (ends_of self.new.engine)
            (own_history (T.facts turns.old.turns))
            (own_history (T.facts turns.new.turns)) }
        ensures address { self.new.link ≡ self.old.link }
    {
        match self.link.connect(rt, round) {
            Connected::Pending => Ok(HostMoved::Waits),
            Connected::Refused => {
                self.record_unreachable(rt, turns, round.now)?;
                Ok(HostMoved::On)
            }
            Connected::Established => {
                self.attach()?;
                Ok(HostMoved::On)
            }
        }
    }

    // A link that has to go is given up first.
    fn step<R: Wait, T: HeldTurns>(
        &mut self,
        rt: &R,
        turns: &mut MeteredTurns<T>,
        round: HostRound<'_>,
    ) -> Result<Progress, StepError>
        ensures needs_link { IfOk result (λ p. p ≡ Progress.NeedsLink
            → (self.new.engine.link ≡ None) × (self.new.engine.fault ≡ None)) }
        ensures keeps { KeepsHost (ends_of self.old.engine) (ends_of self.new.engine)
            (own_history (T.facts turns.old.turns))
            (own_history (T.facts turns.new.turns)) }
        ensures address { self.new.link ≡ self.old.link }
    {
        self.give_up_if_due(rt, turns, round)?;
        let before = *turns.counts();
        let stepped = self.send_and_step(rt, turns, round.now);
        self.note_step(&before, turns.counts());
        match stepped {
            Ok(progress) => Ok(progress),
            Err(error) => {
                self.handle_error(rt, turns, StepError::from(error), round)?;
                Ok(Progress::Moved)
            }
        }
    }

    // What one read brings is answered in one stay inside the gate, and the read itself is made outside.
    fn send_and_step<R: Wait, T: HeldTurns>(
        &mut self,
        rt: &R,
        turns: &mut MeteredTurns<T>,
        now: u64,
    ) -> Result<Progress, EngineError>
        ensures needs_link { IfOk result (λ p. p ≡ Progress.NeedsLink
            → (self.new.engine.link ≡ None) × (self.new.engine.fault ≡ None)) }
        ensures keeps { KeepsHost (ends_of self.old.engine) (ends_of self.new.engine)
            (own_history (T.facts turns.old.turns))
            (own_history (T.facts turns.new.turns)) }
        ensures address { self.new.link ≡ self.old.link }
    {
        turns.hold();
        self.send_all(rt, turns, now)?;
        self.is_asked |= self.engine.awaits_reply();
        if !self.may_read() {
            return self.engine.step(rt, turns, now);
        }
        turns.leave();
        turns.hold();
        self.engine.receive(rt, turns, now)
    }

    fn may_read(&self) -> bool {
        match self.engine.reader() {
            Some(reader) => reader.may_read(),
            None => false,
        }
    }

    // It stops after `MAX_HOST_STEPS` sends.
    fn send_all<R: Wait, T: HeldTurns>(
        &mut self,
        rt: &R,
        turns: &mut MeteredTurns<T>,
        now: u64,
    ) -> Result<(), EngineError>
        ensures keeps { KeepsHost (ends_of self.old.engine) (ends_of self.new.engine)
            (own_history (T.facts turns.old.turns))
            (own_history (T.facts turns.new.turns)) }
        ensures address { self.new.link ≡ self.old.link }
    {
        for _ in 0..MAX_HOST_STEPS {
            let Progress::Moved = self.engine.send(rt, turns, now)? else {
                return Ok(());
            };
        }
        Ok(())
    }

    fn give_up_if_due<R: Wait, T: HeldTurns>(
        &mut self,
        rt: &R,
        turns: &mut MeteredTurns<T>,
        round: HostRound<'_>,
    ) -> Result<(), StepError>
        ensures keeps { KeepsHost (ends_of self.old.engine) (ends_of self.new.engine)
            (own_history (T.facts turns.old.turns))
            (own_history (T.facts turns.new.turns)) }
        ensures address { self.new.link ≡ self.old.link }
    {
        if self.is_to_be_given_up(rt, turns, round) {
            self.give_up(rt, turns, round.now)
        } else {
            Ok(())
        }
    }

    fn note_step(&mut self, before: &TurnCounts, after: &TurnCounts)
        ensures engine { self.new.engine ≡ self.old.engine }
        ensures address { self.new.link ≡ self.old.link }
    {
        if after.matched != before.matched {
            self.note_reply();
        }
        if after.faults != before.faults {
            self.link.abandon_connecting();
        }
        self.drop_if_released();
    }

    // A reply that doesn't fit the journal is given up with its link.
    fn handle_error<R: Wait, T: HeldTurns>(
        &mut self,
        rt: &R,
        turns: &mut MeteredTurns<T>,
        error: StepError,
        round: HostRound<'_>,
    ) -> Result<(), StepError>
        ensures keeps { KeepsHost (ends_of self.old.engine) (ends_of self.new.engine)
            (own_history (T.facts turns.old.turns))
            (own_history (T.facts turns.new.turns)) }
        ensures address { self.new.link ≡ self.old.link }
    {
        match error {
            StepError::EndsOne => Ok(()),
            StepError::Full => {
                round.room.note_short();
                self.give_up(rt, turns, round.now)
            }
            StepError::Memory | StepError::Ends(_) => Err(error),
        }
    }

    // The waiting parts are given up, or the journal has no room for the reply that comes.
    fn is_to_be_given_up<R: Wait, T: HeldTurns>(
        &mut self,
        rt: &R,
        turns: &mut MeteredTurns<T>,
        round: HostRound<'_>,
    ) -> bool
        ensures engine { self.new.engine ≡ self.old.engine }
        ensures turns { turns.new.turns ≡ turns.old.turns }
        ensures address { self.new.link ≡ self.old.link }
    {
        let count = self.read_count();
        let came = count.unwrap_or(0).saturating_sub(self.begun);
        let has_room = round.room.takes_reply(rt, turns, came, &mut self.coming);
        if count.is_some() && !has_room {
            round.room.note_short();
        }
        count.is_some() && (round.gives_up || !has_room)
    }

    fn read_count(&self) -> Option<u64> {
        match self.engine.reader() {
            Some(reader) => Some(reader.count()),
            None => None,
        }
    }

    fn note_reply(&mut self)
        ensures engine { self.new.engine ≡ self.old.engine }
        ensures address { self.new.link ≡ self.old.link }
    {
        if let Some(count) = self.read_count() {
            self.begun = count;
        }
    }

    // Each waiting part is answered by name.
    fn give_up<R: Wait, T: HeldTurns>(
        &mut self,
        rt: &R,
        turns: &mut MeteredTurns<T>,
        now: u64,
    ) -> Result<(), StepError>
        ensures keeps { KeepsHost (ends_of self.old.engine) (ends_of self.new.engine)
            (own_history (T.facts turns.old.turns))
            (own_history (T.facts turns.new.turns)) }
        ensures address { self.new.link ≡ self.old.link }
    {
        self.is_asked |= self.engine.awaits_reply();
        let given_up = self.engine.give_up(rt, turns, now);
        self.link.cut();
        match given_up {
            Ok(()) => Ok(()),
            Err(error) => match StepError::from(error) {
                StepError::EndsOne => Ok(()),
                other => Err(other),
            },
        }
    }

    fn drop_if_released(&mut self)
        ensures engine { self.new.engine ≡ self.old.engine }
        ensures address { self.new.link ≡ self.old.link }
    {
        if matches!(self.link.state(), LinkState::Up(_)) && self.engine.reader().is_none() {
            self.link.cut();
        }
    }

    // The engine answers the waiting parts.
    fn record_unreachable<R: Wait, T: HeldTurns>(
        &mut self,
        rt: &R,
        turns: &mut MeteredTurns<T>,
        now: u64,
    ) -> Result<(), StepError>
        requires { self.old.engine.link ≡ None }
        ensures keeps { KeepsHost (ends_of self.old.engine) (ends_of self.new.engine)
            (own_history (T.facts turns.old.turns))
            (own_history (T.facts turns.new.turns)) }
        ensures address { self.new.link ≡ self.old.link }
    {
        self.link.cut();
        match self.engine.refused(rt, turns, now) {
            Ok(()) => Ok(()),
            Err(error) => match StepError::from(error) {
                StepError::EndsOne => Ok(()),
                other => Err(other),
            },
        }
    }

    fn attach(&mut self) -> Result<(), StepError>
        requires link { self.old.engine.link ≡ None }
        requires fault { self.old.engine.fault ≡ None }
        ensures keeps { (H : History)
            → KeepsHost (ends_of self.old.engine) (ends_of self.new.engine) H H }
        ensures address { self.new.link ≡ self.old.link }
    {
        match self.link.take_connecting() {
            Some(stream) => self.attach_socket(stream),
            None => Ok(()),
        }
    }

    fn attach_socket(&mut self, stream: FreshStream) -> Result<(), StepError>
        requires stream { stream ≡ Some self.old.link }
        requires link { self.old.engine.link ≡ None }
        requires fault { self.old.engine.fault ≡ None }
        ensures keeps { (H : History)
            → KeepsHost (ends_of self.old.engine) (ends_of self.new.engine) H H }
        ensures address { self.new.link ≡ self.old.link }
    {
        let Ok(
            Socket {
                stream,
                reader,
                writer,
            },
        ) = Socket::new(self.alloc, stream, &self.traffic)
        else {
            return Err(StepError::Memory);
        };
        match self.engine.attach(reader, writer) {
            Ok(()) => {
                self.link.keep(stream);
                self.begun = 0;
                Ok(())
            }
            Err(_) => Err(StepError::Memory),
        }
    }
}

// Whether waiting parts are given up for want of a link: no link is made any more, or a fault of it couldn't be recorded.
fn makes_no_link<T: HeldTurns>(turns: &MeteredTurns<T>, round: HostRound<'_>) -> bool
    ensures { IsTrue result
        ↔ IsTrue round.entry.gives_up ⊎ (free_steps turns.now.account.loan ≡ 0) }
{
    round.gives_up || turns.free_steps() == 0
}
