ghost use Rattle.std.specs.Prelude.{◌≡◌, ◌-◌, ◌≢◌, ◌↔◌, ◌∷◌, ◌++◌, ◌⊎◌, ℕ, [], List, Option, None, Some, true, false, IfOk, IfErr, IfSome, IfNone, OnOk, OnErr};
ghost use Rattle.std.specs.Borrow.{sem};
ghost use Rattle.splitter.specs.Request.{Request as Asked};
ghost use Rattle.proxy_history.specs.History.{History};
ghost use Rattle.proxy_history.specs.declared.answer.Answer.{Answer};
ghost use Rattle.proxy_history.specs.declared.event.Event.{Event};
ghost use Rattle.proxy_engines.specs.Turns.{KeepsTurns, own_history};
ghost use Rattle.proxy_devices.specs.Device.{HasFailed, WasIdle, reader_state, writer_state};
ghost use Rattle.proxy_engines.specs.Ends.{HasGivenAll};
ghost use Rattle.proxy_engines.specs.OneTurn.{IsDueError};
ghost use Rattle.engine_work.specs.EngineError.{IsTurnRefused};
ghost use Rattle.journal_core.specs.Journal.{step_by};
ghost use Rattle.proxy_engines.specs.Moves.{AsTold, told_by_step, told_by_turn};

use crate::inbox::{Inbox, Rest};
use crate::one_turn::{arrive, make_turn, open, told_as};
use crate::outbox::Outbox;
use close_behind::CloseBehind;
use engine_work::EngineError;
use proxy_core::{Answer, CoreTurns, Event, Request};
use proxy_devices::{IoOutcome, ReadTally, WriteTally};
use resp_core::Limits;
use std::alloc::Global;
use std::marker::Model;
use std::sync::Wait;
use std::{io, mem};

/// The result of a step.
#[derive(Clone, Copy, Debug, PartialEq, Eq, Drop)]
pub enum Progress {
    /// Bytes were read or taken, or a turn was answered.
    Moved,
    /// Nothing could be done for now.
    Idle,
    /// A host has bytes pending and no link.
    NeedsLink,
    /// The connection was closed after a fault of its reader or writer.
    Cut,
    /// All replies are handed out and written, and the connection was closed.
    Ended,
}

/// The stage of a connection.
#[derive(Clone, Copy, Debug, PartialEq, Eq, Drop)]
pub enum Stage {
    /// Requests are taken.
    Open,
    /// The input has ended, and the Finished turn is due.
    AtEnd,
    /// Nothing more arrives.
    Finishing,
    /// A device failed, and the Closed turn is due.
    Failed,
    /// The connection was closed, after a fault or at its end.
    Closed {
        /// Whether it was after a fault.
        is_cut: bool,
    },
}

/// What a connection is opened with.
#[derive(Drop)]
pub struct ClientEnds<R: ReadTally, W: WriteTally> {
    /// The client's bytes.
    pub reader: R,
    /// Where replies go.
    pub writer: W,
    /// Behind these refused commands nothing more is taken in: what was accepted is answered and written, and the
    /// connection is closed.
    pub behind: CloseBehind,
}

/// A client's engine: turns input into requests, and writes the replies that are handed out.
pub struct ClientEngine<R: ReadTally, W: WriteTally> {
    conn: u64,
    inbox: Inbox<R>,
    outbox: Outbox<W>,
    next: Option<Request>,
    accepted: u64,
    handed: u64,
    stage: Stage,
    // Nothing more may be read or accepted.
    is_drained: bool,
    // Reading stopped for that or behind a refused command, before the input ended or a request finished the connection.
    is_halted: bool,
    behind: CloseBehind,
    // The request that was accepted last closes the connection.
    is_closing: bool,
}

impl<R: ReadTally + Drop, W: WriteTally + Drop> Drop for ClientEngine<R, W> {
    fn drop(self) {
        let ClientEngine {
            conn: _,
            inbox: _,
            outbox: _,
            next: _,
            accepted: _,
            handed: _,
            stage: _,
            is_drained: _,
            is_halted: _,
            behind: _,
            is_closing: _,
        } = self;
    }
}

impl<R: ReadTally, W: WriteTally> Model for ClientEngine<R, W> {
    ghost use Rattle.proxy_engines.specs.Client.{Client, IsWhole, IsHaltedWhole};

    ghost Value = { Client };

    ghost use Rattle.splitter.specs.contracts.request.Request as request;
    ghost use Rattle.std.specs.Coded.{codes};
    ghost use Rattle.resp_core.specs.Code.{tree_code};

    ghost coded = { Prim.hlevel (codes, tree_code, request.the_row.coded) };

    ghost view = { λ e. record {
      conn = e.conn;
      inbox = e.inbox;
      outbox = e.outbox;
      next = e.next;
      accepted = e.accepted;
      handed = e.handed;
      stage = e.stage;
      is_drained = e.is_drained;
      is_halted = e.is_halted;
      behind = e.behind;
      is_closing = e.is_closing;
    } };

    ghost invariant = { λ e. IsWhole e.stage e.next e.inbox.values.refusal
        × IsHaltedWhole e.is_halted e.stage e.inbox.values.refusal };
}

#[tactic(auto, using(crate::proofs::ClientMoves::same_goes, crate::proofs::ClientMoves::goes_then))]
impl<R: ReadTally, W: WriteTally> ClientEngine<R, W> {
    ghost use Rattle.proxy_engines.specs.Client.{AwaitsBytes, AwaitsReplies, Client, Carries, ClosesFirst, Cuts, Goes, HandsNothing, HasNext, HasNoFault, HasSameCounts, IsReadOut, IsHeldBack, IsIdle, IsLive, IsOver, MayGoOn, TakesNothing};
    ghost use Rattle.proxy_engines.specs.ClientSteps.{AcceptsOne, EndsOnce, FetchesNext, HandsDue, HandsOne, LooksForNext, MovesClient, OffersOne, ReadsClient, StopsReading, TakesIn, TellsStep, WritesClient};
    ghost use Rattle.proxy_engines.specs.AtRest.{IsAtRest};
    ghost use Rattle.proxy_history.specs.declared.refusal.Refusal.{Refusal};
    ghost use Rattle.splitter.specs.declared.request.Request.{Request};
    ghost use Rattle.proxy_engines.specs.Lends.{lends_client_reader, lends_client_writer, with_client_reader, with_client_writer};

    // False: the next reply hasn't come.
    fn hand<Rt: Wait, T: CoreTurns>(&mut self, rt: &Rt, turns: &mut T) -> Result<bool, EngineError>
        requires live { IsLive self.old.stage }
        requires nothing { self.old.outbox.pending ≡ [] }
        ensures moves { MovesClient T.cause (T.facts turns.old) (T.facts turns.new)
            self.old self.new (told_by_turn result) result }
        ensures hands { HandsOne (T.cause (T.facts turns.old).setting) (T.facts turns.new).seen
            self.old self.new result }
    {
        match make_turn(rt, turns, Event::Handed { conn: self.conn }) {
            Ok(Answer::Bytes { text }) => {
                self.outbox.put(text);
                self.handed = self.handed.saturating_add(1);
                Ok(true)
            }
            Ok(_) => unreachable!(),
            Err(denied) => told_as(denied, false),
        }
    }

    fn close<Rt: Wait, T: CoreTurns>(
        &mut self,
        rt: &Rt,
        turns: &mut T,
    ) -> Result<Progress, EngineError>
        requires stage { self.old.stage ≡ Stage.Finishing }
        requires nothing { self.old.outbox.pending ≡ [] }
        requires handed { self.old.accepted ≡ self.old.handed }
        ensures moves { MovesClient T.cause (T.facts turns.old) (T.facts turns.new)
            self.old self.new (told_by_step result) result }
        ensures ok { IfOk result (λ p. (p ≡ Progress.Ended)
            × (self.new ≡ record self.old { stage = Stage.Closed false })) }
        ensures err { IfErr result (λ e. (self.new ≡ self.old)
            × (own_history (T.facts turns.new) ≡ own_history (T.facts turns.old))
            × IsTurnRefused e) }
    {
        match make_turn(rt, turns, Event::Closed { conn: self.conn }) {
            Ok(answer) => {
                drop(answer);
                self.stage = Stage::Closed { is_cut: false };
                Ok(Progress::Ended)
            }
            Err(denied) => Err(EngineError::TurnRefused(denied)),
        }
    }

    // One Closed turn after a device's fault. Until it is answered no other turn is made.
    fn cut<Rt: Wait, T: CoreTurns>(
        &mut self,
        rt: &Rt,
        turns: &mut T,
        answer: Result<Progress, EngineError>,
    ) -> Result<Progress, EngineError>
        ensures turns { KeepsTurns (T.facts turns.old) (T.facts turns.new) }
        ensures cuts { Cuts self.old self.new (own_history (T.facts turns.old))
            (own_history (T.facts turns.new)) answer result }
        ensures due { (result ≡ answer) ⊎ IfErr result
            (IsDueError (T.cause (T.facts turns.old).setting) (T.facts turns.new).seen) }
    {
        self.stage = Stage::Failed;
        let close = Event::Closed { conn: self.conn };
        match make_turn(rt, turns, close) {
            Ok(told) => {
                drop(told);
                self.stage = Stage::Closed { is_cut: true };
                answer
            }
            Err(denied) => Err(EngineError::TurnRefused(denied)),
        }
    }

    fn finish<Rt: Wait, T: CoreTurns>(
        &mut self,
        rt: &Rt,
        turns: &mut T,
    ) -> Result<Progress, EngineError>
        requires stage { self.old.stage ≡ Stage.AtEnd }
        ensures moves { MovesClient T.cause (T.facts turns.old) (T.facts turns.new)
            self.old self.new (told_by_step result) result }
        ensures ok { IfOk result (λ p. (p ≡ Progress.Moved)
            × (self.new ≡ record self.old { stage = Stage.Finishing })) }
        ensures err { IfErr result (λ e. (self.new ≡ self.old)
            × (own_history (T.facts turns.new) ≡ own_history (T.facts turns.old))
            × IsTurnRefused e) }
    {
        match make_turn(rt, turns, Event::Finished { conn: self.conn }) {
            Ok(answer) => {
                drop(answer);
                self.stage = Stage::Finishing;
                Ok(Progress::Moved)
            }
            Err(denied) => Err(EngineError::TurnRefused(denied)),
        }
    }

    // Idle: it is held back, since too many commands are unwritten.
    fn offer<Rt: Wait, T: CoreTurns>(
        &mut self,
        rt: &Rt,
        turns: &mut T,
    ) -> Result<Progress, EngineError>
        requires stage { self.old.stage ≡ Stage.Open }
        requires waits { self.old.next ≢ None }
        requires last { self.old.is_drained ≡ true → self.old.next ≡ Some Request.Broken }
        ensures moves { MovesClient T.cause (T.facts turns.old) (T.facts turns.new)
            self.old self.new (told_by_step result) result }
        ensures offers { OffersOne (T.cause (T.facts turns.old).setting) (T.facts turns.new).seen
            self.old self.new result }
    {
        let Some(request) = self.next.take() else {
            return Ok(Progress::Idle);
        };
        let closes = self.behind.closes(&request);
        match arrive(rt, turns, self.conn, request) {
            Ok(is_last) => {
                self.accepted = self.accepted.saturating_add(1);
                if is_last {
                    self.stage = Stage::Finishing;
                } else if closes {
                    self.stop_behind();
                }
                Ok(Progress::Moved)
            }
            Err((denied, request)) => {
                drop(self.next.replace(request));
                told_as(denied, Progress::Idle)
            }
        }
    }

    // Behind a refused command nothing more is taken in.
    fn stop_behind(&mut self)
        requires { self.old.inbox.values.refusal ≡ None }
        ensures { self.new
            ≡ record self.old { stage = Stage.AtEnd; is_halted = true; is_closing = true } }
    {
        self.stage = Stage::AtEnd;
        self.is_halted = true;
        self.is_closing = true;
    }

    // False: none has come whole.
    fn fetch(&mut self) -> Result<bool, EngineError>
        requires stage { self.old.stage ≡ Stage.Open }
        requires none { self.old.next ≡ None }
        requires reads { self.old.is_drained ≡ false }
        ensures goes { (H : History) → Goes self.old self.new H H false }
        ensures fetches { FetchesNext self.old self.new result }
    {
        match self.inbox.next_request() {
            Ok(next) => {
                let is_there = next.is_some();
                drop(mem::replace(&mut self.next, next));
                Ok(is_there)
            }
            Err(_) => Err(EngineError::NoMemory),
        }
    }

    fn fetch_if_none(&mut self) -> Result<bool, EngineError>
        requires stage { self.old.stage ≡ Stage.Open }
        requires last { self.old.is_drained ≡ true → self.old.next ≡ Some Request.Broken }
        ensures goes { (H : History) → Goes self.old self.new H H false }
        ensures looks { LooksForNext self.old self.new result }
    {
        if self.next.is_none() {
            self.fetch()
        } else {
            Ok(true)
        }
    }

    fn write<Rt: Wait, T: CoreTurns>(
        &mut self,
        rt: &Rt,
        turns: &mut T,
    ) -> Result<Progress, EngineError>
        requires live { IsLive self.old.stage }
        requires some { self.old.outbox.pending ≢ [] }
        ensures moves { MovesClient T.cause (T.facts turns.old) (T.facts turns.new)
            self.old self.new (told_by_step result) result }
        ensures writes { WritesClient self.old self.new result }
    {
        match self.outbox.write_once() {
            IoOutcome::Moved(_) => Ok(Progress::Moved),
            IoOutcome::Idle => Ok(Progress::Idle),
            IoOutcome::End | IoOutcome::Failed => self.cut(
                rt,
                turns,
                Err(EngineError::WriteFailed),
            ),
        }
    }

    // At the end of the input or by `drain`.
    fn stop_reading<Rt: Wait, T: CoreTurns>(
        &mut self,
        rt: &Rt,
        turns: &mut T,
    ) -> Result<Progress, EngineError>
        requires stage { self.old.stage ≡ Stage.Open }
        requires done { IsReadOut self.old }
        ensures moves { MovesClient T.cause (T.facts turns.old) (T.facts turns.new)
            self.old self.new (told_by_step result) result }
        ensures stops { StopsReading self.new result }
    {
        self.stage = Stage::AtEnd;
        self.is_halted = self.is_drained;
        self.finish(rt, turns)
    }

    fn read<Rt: Wait, T: CoreTurns>(
        &mut self,
        rt: &Rt,
        turns: &mut T,
    ) -> Result<Progress, EngineError>
        requires stage { self.old.stage ≡ Stage.Open }
        requires none { self.old.next ≡ None }
        requires reads { self.old.is_drained ≡ false }
        requires all { HasGivenAll self.old.inbox }
        ensures moves { MovesClient T.cause (T.facts turns.old) (T.facts turns.new)
            self.old self.new (told_by_step result) result }
        ensures reads { ReadsClient self.old self.new result }
    {
        match self.inbox.read_once() {
            IoOutcome::Moved(_) => Ok(Progress::Moved),
            IoOutcome::Idle => Ok(Progress::Idle),
            IoOutcome::End => self.stop_reading(rt, turns),
            IoOutcome::Failed => self.cut(rt, turns, Err(EngineError::ReadFailed)),
        }
    }

    // A waiting refusal of the reader still counts, since it ends the input.
    fn is_to_stop(&self) -> bool
        ensures stops { result ≡ true → (self.now.is_drained ≡ true)
            × (self.now.next ≢ Some Request.Broken) }
        ensures goes_on { result ≡ false → self.now.is_drained ≡ true
            → self.now.next ≡ Some Request.Broken }
    {
        self.is_drained && !matches!(self.next, Some(Request::Broken))
    }

    // Offers the next request, or reads once. A drained engine does neither.
    fn take_in<Rt: Wait, T: CoreTurns>(
        &mut self,
        rt: &Rt,
        turns: &mut T,
    ) -> Result<Progress, EngineError>
        requires stage { self.old.stage ≡ Stage.Open }
        ensures moves { MovesClient T.cause (T.facts turns.old) (T.facts turns.new)
            self.old self.new (told_by_step result) result }
        ensures takes { TakesIn (T.cause (T.facts turns.old).setting) (T.facts turns.old).seen
            (T.facts turns.new).seen self.old self.new result }
    {
        if self.is_to_stop() {
            return self.stop_reading(rt, turns);
        }
        if !self.fetch_if_none()? {
            return self.read(rt, turns);
        }
        self.offer(rt, turns)
    }

    // A refused byte that waits may be accepted, also after a drain.
    fn may_accept(&self) -> bool
        ensures may { result ≡ true → (self.now.stage ≡ Stage.Open)
            × (self.now.is_drained ≡ true → self.now.next ≡ Some Request.Broken) }
        ensures not { result ≡ false → TakesNothing self.now }
    {
        matches!(self.stage, Stage::Open) && !self.is_to_stop()
    }

    fn end<Rt: Wait, T: CoreTurns>(
        &mut self,
        rt: &Rt,
        turns: &mut T,
    ) -> Result<Progress, EngineError>
        requires stage { self.old.stage ≡ Stage.Finishing }
        requires nothing { self.old.outbox.pending ≡ [] }
        ensures moves { MovesClient T.cause (T.facts turns.old) (T.facts turns.new)
            self.old self.new (told_by_step result) result }
        ensures ends { EndsOnce self.new result }
    {
        if self.accepted != self.handed {
            return Ok(Progress::Idle);
        }
        self.close(rt, turns)
    }

    // No turn is made if all accepted commands are handed out, since it would be refused.
    fn hand_if_due<Rt: Wait, T: CoreTurns>(
        &mut self,
        rt: &Rt,
        turns: &mut T,
    ) -> Result<bool, EngineError>
        requires live { IsLive self.old.stage }
        requires nothing { self.old.outbox.pending ≡ [] }
        ensures moves { MovesClient T.cause (T.facts turns.old) (T.facts turns.new)
            self.old self.new (told_by_turn result) result }
        ensures hands { HandsDue (T.cause (T.facts turns.old).setting) (T.facts turns.old).seen
            (T.facts turns.new).seen self.old self.new result }
    {
        if self.accepted == self.handed {
            return Ok(false);
        }
        self.hand(rt, turns)
    }

    fn go_on<Rt: Wait, T: CoreTurns>(
        &mut self,
        rt: &Rt,
        turns: &mut T,
    ) -> Result<Progress, EngineError>
        requires live { IsLive self.old.stage }
        ensures moves { MovesClient T.cause (T.facts turns.old) (T.facts turns.new)
            self.old self.new (told_by_step result) result }
        ensures tells { TellsStep (T.cause (T.facts turns.old).setting) (T.facts turns.old).seen
            (T.facts turns.new).seen self.old self.new result }
        ensures cut { IfOk result (λ p. p ≢ Progress.Cut) }
    {
        if !self.outbox.is_empty() {
            return self.write(rt, turns);
        }
        if self.hand_if_due(rt, turns)? {
            return Ok(Progress::Moved);
        }
        match self.stage {
            Stage::Open => self.take_in(rt, turns),
            Stage::AtEnd => self.finish(rt, turns),
            _ => self.end(rt, turns),
        }
    }

    /// Does the first of these that applies: writes pending bytes once; hands out one reply; accepts the waiting
    /// request or the next complete one; reads at most 16,384 bytes once. It closes the connection once nothing more
    /// arrives and all is handed out and written. After [`drain`](ClientEngine::drain) no request is accepted and
    /// nothing is read. A step of a closed connection does nothing.
    ///
    /// Refused 1402 or 1403 where the reader or the writer failed in this call; the connection was then closed. Refused
    /// 1401 for want of memory and 1404 where a turn was refused; the next step then continues at the same place.
    pub fn step<Rt: Wait, T: CoreTurns>(
        &mut self,
        rt: &Rt,
        turns: &mut T,
    ) -> Result<Progress, EngineError>
        ensures moves { MovesClient T.cause (T.facts turns.old) (T.facts turns.new)
            self.old self.new (told_by_step result) result }
        ensures tells { TellsStep (T.cause (T.facts turns.old).setting) (T.facts turns.old).seen
            (T.facts turns.new).seen self.old self.new result }
        ensures cut { IfOk result (λ p. p ≡ Progress.Cut → self.new.stage ≡ Stage.Closed true) }
        ensures closed { ClosesFirst self.old.stage self.old self.new
            (own_history (T.facts turns.old)) (own_history (T.facts turns.new)) result }
    {
        match self.stage {
            Stage::Closed { is_cut: true } => Ok(Progress::Cut),
            Stage::Closed { is_cut: false } => Ok(Progress::Ended),
            Stage::Failed => self.cut(rt, turns, Ok(Progress::Cut)),
            Stage::Open | Stage::AtEnd | Stage::Finishing => self.go_on(rt, turns),
        }
    }

    /// Accepts the waiting request, or the next one that has come whole, and hands out, writes and reads nothing.
    /// `Moved`: it was accepted. `Idle`: nothing more is accepted, too many commands are unwritten, or none has come
    /// whole. So a pipeline that has come whole is accepted before a reply is asked for.
    ///
    /// Refused 1401 for want of memory and 1404 where the turn was refused; nothing is lost.
    pub fn accept<Rt: Wait, T: CoreTurns>(
        &mut self,
        rt: &Rt,
        turns: &mut T,
    ) -> Result<Progress, EngineError>
        ensures moves { MovesClient T.cause (T.facts turns.old) (T.facts turns.new)
            self.old self.new (told_by_step result) result }
        ensures accepts { AcceptsOne (T.cause (T.facts turns.old).setting) (T.facts turns.old).seen
            (T.facts turns.new).seen self.old self.new result }
    {
        if !self.may_accept() {
            return Ok(Progress::Idle);
        }
        if !self.fetch_if_none()? {
            return Ok(Progress::Idle);
        }
        self.offer(rt, turns)
    }

    /// Reads and accepts nothing from here on, not even a waiting request. Accepted ones are answered and written,
    /// and then the connection is closed. Unused input stays for the next engine. Bytes that the reader refused still
    /// count, and finish the connection.
    pub fn drain(&mut self)
        ensures drained { self.new ≡ record self.old { is_drained = true } }
        ensures carries { (H : History) (taken b : List ℕ) → Carries self.old H taken b
            → Carries self.new H taken b }
    {
        self.is_drained = true;
    }

    /// Whether the connection was closed after a drain, with everything answered and written, and its socket can go on:
    /// its input hasn't ended, and no request has finished or closed it.
    pub fn may_go_on(&self) -> bool
        ensures { (result ≡ true) ↔ MayGoOn self.now }
    {
        self.is_halted && !self.is_closing && self.stage == Stage::Closed { is_cut: false }
    }

    /// Flushes the writer. Where that fails the connection goes on.
    pub fn flush(&mut self) -> io::Result<()>
        ensures goes { (H : History) → Goes self.old self.new H H false }
        ensures stage { self.new.stage ≡ self.old.stage }
    {
        self.outbox.flush()
    }

    /// The reader.
    pub fn reader(&self) -> &R
        ensures { self.now ≡ with_client_reader self.now
            (reader_state R.remaining R.told R.counts result.now) }
    {
        self.inbox.reader()
    }

    /// The reader, for calls that read nothing for the engine. Where these leave its log as it was, the engine's facts
    /// stay true.
    pub fn reader_mut(&mut self) -> &mut R
        ensures* writes_back { sem 𝓛 (lends_client_reader R.row W.row (record { told = R.told })
            (record { remaining = R.remaining }) (record { counts = R.counts })
            (record { taken = W.taken; passed = W.passed }) (record { contents = W.contents })
            (record { counts = W.counts }) self.entry result) }
        ensures value { self.old ≡ with_client_reader self.old
            (reader_state R.remaining R.told R.counts result.now) }
    {
        self.inbox.reader_mut()
    }

    /// The writer.
    pub fn writer(&self) -> &W
        ensures { self.now ≡ with_client_writer self.now
            (writer_state W.contents W.taken W.passed W.counts result.now) }
    {
        self.outbox.writer()
    }

    /// The writer, for calls that write nothing for the engine. Where these leave its log as it was, the engine's facts
    /// stay true.
    pub fn writer_mut(&mut self) -> &mut W
        ensures* writes_back { sem 𝓛 (lends_client_writer R.row W.row (record { told = R.told })
            (record { remaining = R.remaining }) (record { counts = R.counts })
            (record { taken = W.taken; passed = W.passed }) (record { contents = W.contents })
            (record { counts = W.counts }) self.entry result) }
        ensures value { self.old ≡ with_client_writer self.old
            (writer_state W.contents W.taken W.passed W.counts result.now) }
    {
        self.outbox.writer_mut()
    }

    /// Whether it takes in nothing more, by `drain`.
    pub fn is_drained(&self) -> bool
        ensures { result ≡ self.now.is_drained }
    {
        self.is_drained
    }

    /// The number of accepted requests whose replies aren't handed out yet.
    pub fn unanswered(&self) -> u64
        ensures { result ≡ self.now.accepted - self.now.handed }
    {
        self.accepted.saturating_sub(self.handed)
    }

    /// Whether it owes nothing and is owed nothing: each accepted request is answered, each answer is written, and no request
    /// or byte of one waits.
    pub fn is_at_rest(&self) -> bool
        ensures yes { result ≡ true → IsAtRest self.now }
        ensures no { result ≡ false → IsAtRest self.now → ⊥ }
    {
        self.unanswered() == 0
            && self.outbox.is_empty()
            && self.next.is_none()
            && self.inbox.is_used_up()
    }

    /// The connection's number.
    pub fn conn(&self) -> u64
        ensures { result ≡ self.now.conn }
    {
        self.conn
    }
}

impl<R: ReadTally + Drop, W: WriteTally + Drop> ClientEngine<R, W> {
    ghost use Rattle.proxy_engines.specs.Client.{Carries, MayGoOn};
    ghost use Rattle.proxy_engines.specs.ClientSteps.{OpensClient};
    ghost use Rattle.proxy_engines.specs.Socket.{IsLeft, IsRest};

    /// Opens a connection: reserves everything that it needs, and then makes one Opened turn.
    ///
    /// Refused 1401 or 1404: no step was added, and the reader and the writer are dropped.
    pub fn open<Rt: Wait, T: CoreTurns>(
        rt: &Rt,
        alloc: Global,
        turns: &mut T,
        ends: ClientEnds<R, W>,
    ) -> Result<ClientEngine<R, W>, EngineError>
        ensures turns { KeepsTurns (T.facts turns.old) (T.facts turns.new) }
        ensures opened { IfOk result (λ e. OpensClient (T.facts turns.old).pass
            (own_history (T.facts turns.old)) (own_history (T.facts turns.new))
            (reader_state R.remaining R.told R.counts ends.reader)
            (writer_state W.contents W.taken W.passed W.counts ends.writer) ends.behind e) }
        ensures carries { IfOk result (λ e. Carries e (own_history (T.facts turns.new)) [] []) }
        ensures err { IfErr result
            (λ e. (own_history (T.facts turns.new) ≡ own_history (T.facts turns.old))
            × ((e ≡ EngineError.NoMemory) ⊎ IsTurnRefused e)) }
        ensures due { IfErr result
            (IsDueError (T.cause (T.facts turns.old).setting) (T.facts turns.new).seen) }
    {
        let ClientEnds {
            reader,
            writer,
            behind,
        } = ends;
        let inbox = match Inbox::new(alloc, reader, Limits::CLIENT) {
            Ok(inbox) => inbox,
            Err(reader) => {
                drop(reader);
                drop(writer);
                drop(behind);
                return Err(EngineError::NoMemory);
            }
        };
        match open(rt, turns) {
            Ok(conn) => Ok(ClientEngine {
                conn,
                inbox,
                outbox: Outbox::new(writer),
                next: None,
                accepted: 0,
                handed: 0,
                stage: Stage::Open,
                is_drained: false,
                is_halted: false,
                behind,
                is_closing: false,
            }),
            Err(denied) => {
                drop(inbox);
                drop(writer);
                drop(behind);
                Err(EngineError::TurnRefused(denied))
            }
        }
    }

    /// Opens a connection on a carried-over socket, with the rest of the connection before. That one's waiting request
    /// is the first offered here. Makes one Opened turn, and takes no memory but that turn's.
    ///
    /// Refused 1404: no step was added, and everything comes back.
    pub fn open_with<Rt: Wait, T: CoreTurns>(
        rt: &Rt,
        turns: &mut T,
        reader: R,
        writer: W,
        rest: Rest,
    ) -> Result<ClientEngine<R, W>, (EngineError, R, W, Rest)>
        ensures turns { KeepsTurns (T.facts turns.old) (T.facts turns.new) }
        ensures opened { IfOk result (λ e. OpensClient (T.facts turns.old).pass
            (own_history (T.facts turns.old)) (own_history (T.facts turns.new))
            (reader_state R.remaining R.told R.counts reader)
            (writer_state W.contents W.taken W.passed W.counts writer) rest.behind e) }
        ensures carries { IfOk result (λ e. (b : List ℕ) → IsRest rest b → Carries e
            (own_history (T.facts turns.new)) [] b) }
        ensures err { IfErr result
            (λ x. (own_history (T.facts turns.new) ≡ own_history (T.facts turns.old))
            × IsTurnRefused x.0) }
        ensures due { IfErr result
            (λ x. IsDueError (T.cause (T.facts turns.old).setting) (T.facts turns.new).seen x.0) }
        ensures back { IfErr result (λ x. (x.1 ≡ reader) × (x.2 ≡ writer) × (x.3 ≡ rest)) }
    {
        match open(rt, turns) {
            Ok(conn) => {
                let (inbox, next, behind) = Inbox::with(reader, rest);
                Ok(ClientEngine {
                    conn,
                    inbox,
                    outbox: Outbox::new(writer),
                    next,
                    accepted: 0,
                    handed: 0,
                    stage: Stage::Open,
                    is_drained: false,
                    is_halted: false,
                    behind,
                    is_closing: false,
                })
            }
            Err(denied) => Err((EngineError::TurnRefused(denied), reader, writer, rest)),
        }
    }

    /// The rest for the socket's next connection: both ends, and the unused input with the waiting request. `None`,
    /// with everything dropped, unless [`may_go_on`](ClientEngine::may_go_on).
    pub fn into_rest(self) -> Option<(R, W, Rest)>
        ensures some { IfSome result (λ o. MayGoOn self) }
        ensures none { IfNone result (MayGoOn self → ⊥) }
        ensures ends { IfSome result (λ o. (R.remaining o.0 ≡ self.inbox.left)
            × (W.contents o.1 ≡ self.outbox.held)) }
        ensures logs { IfSome result (λ o. (R.told o.0 ≡ self.inbox.told)
            × (W.taken o.1 ≡ self.outbox.taken)) }
        ensures passed { IfSome result (λ o. W.passed o.1 ≡ self.outbox.passed) }
        ensures left { IfSome result (λ o. (H : History) (taken b : List ℕ) → Carries self H taken b
            → IsLeft self.conn self.behind H taken b o.2) }
    {
        if !self.may_go_on() {
            drop(self);
            return None;
        }
        let ClientEngine {
            inbox,
            outbox,
            next,
            conn: _,
            accepted: _,
            handed: _,
            stage: _,
            is_drained: _,
            is_halted: _,
            behind,
            is_closing: _,
        } = self;
        let (reader, rest) = inbox.into_rest(next, behind);
        Some((reader, outbox.into_writer(), rest))
    }

    /// The writer. Pending bytes and the reader are dropped.
    pub fn into_writer(self) -> W
        ensures held { W.contents result ≡ self.outbox.held }
        ensures taken { W.taken result ≡ self.outbox.taken }
        ensures passed { W.passed result ≡ self.outbox.passed }
    {
        let ClientEngine {
            inbox,
            outbox,
            next,
            conn: _,
            accepted: _,
            handed: _,
            stage: _,
            is_drained: _,
            is_halted: _,
            behind: _,
            is_closing: _,
        } = self;
        drop(inbox);
        drop(next);
        outbox.into_writer()
    }
}
