//! A client's connection, as its worker holds it.
ghost use Rattle.std.specs.Prelude.{◌≡◌, ◌≢◌, ◌⊎◌, ◌↔◌, ◌+◌, ◌-◌, true, false, Some, Ok, Err, IfOk, IfErr, IfSome, IsTrue, OnErr};
ghost use Rattle.proxy_engines.specs.Keeps.{KeepsSocket};
ghost use Rattle.proxy_engines.specs.OneTurn.{IsDueError};
ghost use Rattle.proxy_engines.specs.Turns.{own_history};
ghost use Rattle.journal_budget.specs.Budget.{capped};
ghost use Rattle.journal_budget.specs.ReplySizes.{charge_for};
ghost use Rattle.proxy_connections.specs.Room.{HasRoom};
ghost use Rattle.proxy_connections.specs.Stages.{ComesTo, HasGoneOut, HasPassedAll, IsOverAt, MayGoOver, PassesOn, TellsClosed, TellsEnd, end_of, is_lingering};
ghost use Rattle.proxy_connections.specs.Sockets.{CarriesItsSocket, MayDrain, OpensSocket};
ghost use Rattle.proxy_connections.specs.Idle.{IsIdleFor};
ghost use Rattle.proxy_connections.specs.WaitingOutput.{IsHeldBack, stalled_bytes};

use crate::socket::{Reader, SharedStream, Socket, Writer, note_readable, note_writable};
use crate::stage::{EngineEnd, SocketStage};
use crate::step_error::StepError;
use crate::waiting_output::{MAX_USUAL, WaitingOutput};
use close_behind::CloseBehind;
use journal_budget::ReplySizes;
use journal_room::{
    CommandNeeds, HeldTurns, JournalRoom, MeteredTurns, OpenConnection, TurnCounts,
};
use limits::{LINGER_MS, MAX_BUFFERED, MAX_SPARED};
use mio::event::Event as Readiness;
use mio::{Registry, Token};
use open_sockets::{AdmittedStream, OpenSocket, Traffic};
use proxy_engines::{ClientEnds, ClientEngine, EngineError, Progress, Rest};
use proxy_exit_status::Ending;
use proxy_histogram::{Histogram, Unanswered};
use proxy_serve_core::{ClientSight, Idleness, Refusals};
use socket_halves::Discarded;
use std::alloc::Global;
use std::marker::Model;
use std::sync::{Arc, Wait};

// The most steps of one connection in a round, so that one pipeline doesn't starve the others.
const MAX_CLIENT_STEPS: u32 = 256;

type Engine = ClientEngine<Reader, Writer>;

#[derive(Clone, Copy, Drop)]
pub(crate) struct ClientRound<'a> {
    pub(crate) room: &'a JournalRoom,
    pub(crate) now: u64,
    pub(crate) came_us: u64,
    /// Steps of the journal that the worker keeps for its links.
    pub(crate) reserve: u64,
    pub(crate) most_parts: u64,
    pub(crate) carries_over: bool,
    pub(crate) buffers_all: bool,
    pub(crate) idle_ms: u64,
}

/// An accepted socket, which is counted, and what closes its connection.
#[derive(Drop)]
pub(crate) struct NewSocket<'a> {
    pub(crate) stream: AdmittedStream,
    pub(crate) open_connection: OpenConnection,
    pub(crate) behind: &'a CloseBehind,
    pub(crate) traffic: &'a Arc<Traffic>,
}

/// Where a connection is opened on a carried-over socket.
#[derive(Clone, Copy, Drop)]
pub(crate) struct Opening<'a> {
    pub(crate) registry: &'a Registry,
    pub(crate) token: Token,
}

/// What a worker lends to one connection after another.
#[derive(Drop)]
pub(crate) struct Lent {
    /// Empty while no socket has output.
    pub(crate) buffer: Vec<u8>,
    /// The commands that were answered in this round.
    pub(crate) answered: Unanswered,
    pub(crate) durations: Histogram,
}

/// What a round knows of its client's next command.
#[derive(Clone, Copy, Drop)]
struct Intake {
    // The number of accepted commands at which there was room for one more.
    room_for: Option<u64>,
    // The number of bytes that had come when no further command was whole.
    searched: Option<u64>,
}

impl Intake {
    fn new() -> Intake {
        Intake {
            room_for: None,
            searched: None,
        }
    }
}

#[derive(Clone, Copy, Drop)]
enum ClientMoved {
    On,
    /// Nothing more can be done for now.
    Waits,
}

/// What came of a client's round.
#[derive(Clone, Copy, Drop)]
pub enum Stepped {
    /// Nothing more can be done for now.
    Idle,
    /// More can be done at once.
    Ready,
    /// The socket can be dropped.
    Closed,
    /// Everything is answered, and the socket goes over to the newest generation.
    CarriedOver,
}

/// What was noted of a socket.
#[derive(Clone, Copy, Drop)]
struct SocketNotes {
    // The bytes that had come when a command was last accepted.
    begun: u64,
    waiting: WaitingOutput,
    idle: Idleness,
}

/// A socket on its way to the next generation, with its input that no command was made of and its unwritten output.
///
/// A connection is opened on it there. Where it is dropped it is closed: the system gets what it takes of the output at once,
/// and the input that has come is discarded.
pub struct CarriedSocket {
    alloc: Global,
    stream: SharedStream,
    open_socket: OpenSocket,
    reader: Reader,
    writer: Writer,
    rest: Rest,
    noted: SocketNotes,
    sizes: ReplySizes,
}

impl Drop for CarriedSocket {
    fn drop(self) {
        let CarriedSocket {
            alloc,
            stream,
            open_socket: _,
            mut reader,
            mut writer,
            rest: _,
            noted: _,
            sizes: _,
        } = self;
        writer.write_out(&mut Vec::new(alloc));
        stream.shut_write();
        let _ = reader.throw_away();
    }
}

impl Model for CarriedSocket {
    ghost use Rattle.proxy_engines.specs.Logs.{Logs};
    ghost use Rattle.proxy_connections.specs.Sockets.{IsCarried, logs_of};

    ghost Value = { Logs };

    ghost view = { λ c. logs_of c.reader c.writer };

    ghost invariant = { λ c. IsCarried c.rest (logs_of c.reader c.writer) };
}

impl CarriedSocket {
    // It comes back if the turn is refused.
    fn into_client<R: Wait, T: HeldTurns>(
        self,
        rt: &R,
        turns: &mut MeteredTurns<T>,
        open_connection: OpenConnection,
    ) -> Result<ClientConnection, (EngineError, CarriedSocket)>
        ensures ok { IfOk result (λ c. OpensSocket c.engine
            (own_history (T.facts turns.old.turns))
            (own_history (T.facts turns.new.turns))) }
        ensures err { OnErr result (own_history (T.facts turns.new.turns)
            ≡ own_history (T.facts turns.old.turns)) }
    {
        let CarriedSocket {
            alloc,
            stream,
            open_socket,
            mut reader,
            mut writer,
            rest,
            noted,
            sizes,
        } = self;
        reader.set_readable();
        writer.set_writable();
        let unfinished = reader.count().saturating_sub(noted.begun);
        match ClientEngine::open_with(rt, turns, reader, writer, rest) {
            Ok(engine) => {
                let counted = Counted::of(open_socket, open_connection);
                let mut client = ClientConnection::new(alloc, engine, stream, counted);
                client.begun = noted.begun;
                client.sizes = sizes;
                client.unfinished = unfinished;
                client.waiting = noted.waiting;
                client.idle = noted.idle;
                Ok(client)
            }
            Err((error, reader, writer, rest)) => Err((
                error,
                CarriedSocket {
                    alloc,
                    stream,
                    open_socket,
                    reader,
                    writer,
                    rest,
                    noted,
                    sizes,
                },
            )),
        }
    }
}

/// Where a client is counted, for as long as it is there.
#[derive(Drop)]
struct Counted {
    open_socket: OpenSocket,
    open_connection: OpenConnection,
}

impl Counted {
    fn of(open_socket: OpenSocket, open_connection: OpenConnection) -> Counted {
        Counted {
            open_socket,
            open_connection,
        }
    }
}

pub(crate) struct ClientConnection {
    engine: Engine,
    stream: SharedStream,
    counted: Counted,
    stage: SocketStage,
    waits: Unanswered,
    // The last round ended before all was done.
    has_more: bool,
    refusals: Refusals,
    // The bytes that had come when a command was last accepted.
    begun: u64,
    // The bytes that came since.
    unfinished: u64,
    waiting: WaitingOutput,
    // Noted only where idle clients are closed.
    idle: Idleness,
    sizes: ReplySizes,
    // What the room knows of its charge.
    charged: u64,

    ghost over: { IsOverAt stage engine },

    ghost gone_out: { HasGoneOut stage engine },
}

impl Drop for ClientConnection {
    fn drop(self) {
        let ClientConnection {
            engine: _,
            stream: _,
            counted: _,
            stage: _,
            waits: _,
            has_more: _,
            refusals: _,
            begun: _,
            unfinished: _,
            waiting: _,
            idle: _,
            sizes: _,
            charged: _,
        } = self;
    }
}

impl ClientConnection {
    fn new(
        alloc: Global,
        engine: Engine,
        stream: SharedStream,
        counted: Counted,
    ) -> ClientConnection
        ensures engine { result.engine ≡ engine }
        ensures stage { result.stage ≡ SocketStage.Served }
    {
        ClientConnection {
            engine,
            stream,
            counted,
            stage: SocketStage::Served,
            waits: Unanswered::new(alloc),
            has_more: true,
            refusals: Refusals::new(),
            begun: 0,
            unfinished: 0,
            waiting: WaitingOutput::new(),
            idle: Idleness::new(),
            sizes: ReplySizes::new(),
            charged: 0,
        }
    }

    pub(crate) fn open<R: Wait, T: HeldTurns>(
        rt: &R,
        alloc: Global,
        turns: &mut MeteredTurns<T>,
        new: NewSocket<'_>,
    ) -> Result<ClientConnection, EngineError>
        ensures ok { IfOk result (λ c. OpensSocket c.engine
            (own_history (T.facts turns.old.turns))
            (own_history (T.facts turns.new.turns))) }
        ensures err { OnErr result (own_history (T.facts turns.new.turns)
            ≡ own_history (T.facts turns.old.turns)) }
    {
        let NewSocket {
            stream,
            open_connection,
            behind,
            traffic,
        } = new;
        let (stream, open_socket) = stream.into_parts();
        let Ok(
            Socket {
                stream,
                reader,
                writer,
            },
        ) = Socket::new(alloc, stream, traffic)
        else {
            return Err(EngineError::NoMemory);
        };
        let Ok(behind) = behind.share() else {
            return Err(EngineError::NoMemory);
        };
        let ends = ClientEnds {
            reader,
            writer,
            behind,
        };
        let engine = ClientEngine::open(rt, alloc, turns, ends)?;
        let counted = Counted::of(open_socket, open_connection);
        Ok(ClientConnection::new(alloc, engine, stream, counted))
    }

    pub(crate) fn open_carried<R: Wait, T: HeldTurns>(
        rt: &R,
        turns: &mut MeteredTurns<T>,
        opening: Opening<'_>,
        carried: CarriedSocket,
        open_connection: OpenConnection,
    ) -> Result<ClientConnection, (EngineError, CarriedSocket)>
        ensures ok { IfOk result (λ c. OpensSocket c.engine
            (own_history (T.facts turns.old.turns))
            (own_history (T.facts turns.new.turns))) }
        ensures err { OnErr result (own_history (T.facts turns.new.turns)
            ≡ own_history (T.facts turns.old.turns)) }
    {
        if carried
            .stream
            .register(opening.registry, opening.token)
            .is_err()
        {
            return Err((EngineError::ReadFailed, carried));
        }
        match carried.into_client(rt, turns, open_connection) {
            Ok(client) => Ok(client),
            Err((error, carried)) => {
                carried.stream.deregister(opening.registry);
                Err((error, carried))
            }
        }
    }

    pub(crate) fn note_carried(&self, room: &JournalRoom) {
        room.note_unfinished(self.unfinished, 0);
    }

    /// Its socket, with its unused input, for another generation.
    pub(crate) fn carry(
        self,
        alloc: Global,
        registry: &Registry,
        room: &JournalRoom,
    ) -> CarriedSocket
        requires carries { CarriesItsSocket self.engine }
        requires may { MayGoOver self.engine }
    {
        let ClientConnection {
            engine,
            stream,
            counted,
            begun,
            unfinished,
            waiting,
            idle,
            sizes,
            charged: _,
            stage: _,
            waits: _,
            has_more: _,
            refusals: _,
        } = self;
        room.note_unfinished(0, unfinished);
        let Some((reader, writer, rest)) = engine.into_rest() else {
            unreachable!()
        };
        stream.deregister(registry);
        let Counted {
            open_socket,
            open_connection: _,
        } = counted;
        CarriedSocket {
            alloc,
            stream,
            open_socket,
            reader,
            writer,
            rest,
            noted: SocketNotes {
                begun,
                waiting,
                idle,
            },
            sizes,
        }
    }

    pub(crate) fn on_readiness(&mut self, event: &Readiness)
        ensures engine { self.new.engine ≡ self.old.engine }
        ensures stage { self.new.stage ≡ self.old.stage }
    {
        note_readable(self.engine.reader_mut(), event);
        note_writable(self.engine.writer_mut(), event);
    }

    pub(crate) fn drain(&mut self)
        ensures engine { self.new.engine ≡ record self.old.engine { is_drained = true } }
        ensures stage { self.new.stage ≡ self.old.stage }
    {
        self.engine.drain();
        self.has_more = true;
    }

    pub(crate) fn end_input(&mut self)
        ensures engine { self.new.engine ≡ self.old.engine }
        ensures stage { self.new.stage ≡ self.old.stage }
    {
        self.engine.reader_mut().end_input();
        self.has_more = true;
    }

    /// It discards what has come: a socket closed with unread bytes would lose the last answers.
    pub(crate) fn shut_down(&mut self, buffer: &mut Vec<u8>)
        ensures engine { PassesOn self.old.engine self.new.engine }
        ensures stage { self.new.stage ≡ self.old.stage }
    {
        self.write_out(buffer);
        self.stream.shut_write();
        let _ = self.engine.reader_mut().throw_away();
    }

    /// Whether its connection is closed, and that is counted.
    pub(crate) fn is_counted(&self) -> bool {
        matches!(self.stage, SocketStage::Lingering { .. })
    }

    pub(crate) fn conn(&self) -> u64 {
        self.engine.conn()
    }

    pub(crate) fn awaits_reply(&self) -> bool {
        self.engine.unanswered() > 0
    }

    pub(crate) fn may_be_answered(&self) -> bool {
        self.awaits_reply()
            && matches!(self.stage, SocketStage::Served)
            && !self.engine.writer().is_behind()
    }

    pub(crate) fn has_more(&self) -> bool {
        self.has_more
    }

    pub(crate) fn may_go(&self, now: u64) -> bool {
        if self.has_more {
            return true;
        }
        let may_read = self.engine.reader().may_read();
        if let SocketStage::Lingering { until, .. } = self.stage {
            return now >= until || may_read;
        }
        may_read || self.engine.writer().may_write() || self.awaits_reply()
    }

    /// Steps the engine until it has to wait, and writes what it buffered.
    pub(crate) fn run_once<R: Wait, T: HeldTurns>(
        &mut self,
        rt: &R,
        turns: &mut MeteredTurns<T>,
        lent: &mut Lent,
        round: ClientRound<'_>,
    ) -> Result<Stepped, StepError>
        ensures keeps { KeepsSocket self.old.engine self.new.engine
            (own_history (T.facts turns.old.turns))
            (own_history (T.facts turns.new.turns)) }
        ensures left { self.old.stage ≡ SocketStage.Served → IfSome (end_of self.new.stage)
            (ComesTo (IsDueError (T.cause (T.facts turns.new.turns).setting)
            (T.facts turns.new.turns).seen) self.new.engine) }
        ensures held { IsHeldBack self.old.engine → self.old.stage ≡ SocketStage.Served
            → PassesOn self.old.engine self.new.engine }
        ensures closed { result ≡ Ok Stepped.Closed → (is_lingering self.new.stage ≡ true)
            × HasPassedAll self.new.engine.outbox }
        ensures carried { result ≡ Ok Stepped.CarriedOver → MayGoOver self.new.engine }
    {
        self.has_more = false;
        match self.stage {
            SocketStage::Served if self.is_held_back() => self.relieve(&mut lent.buffer),
            SocketStage::Served => self.step_and_write(rt, turns, lent, round)?,
            SocketStage::Leaving { .. } => self.write_out(&mut lent.buffer),
            SocketStage::Lingering { .. } => {}
        }
        self.note_waiting(round.now);
        self.note_rest(round);
        if matches!(self.stage, SocketStage::Leaving { .. })
            && round.carries_over
            && self.may_carry_over()
        {
            return Ok(Stepped::CarriedOver);
        }
        Ok(self.finish_closing(round))
    }

    // While more than usual waits for its socket, nothing is taken in.
    fn is_held_back(&self) -> bool
        ensures { IsTrue result ↔ IsHeldBack self.now.engine }
    {
        let writer = self.engine.writer();
        writer.buffered() as u64 > MAX_USUAL && !writer.is_broken() && !self.engine.is_drained()
    }

    fn relieve(&mut self, buffer: &mut Vec<u8>)
        ensures engine { PassesOn self.old.engine self.new.engine }
        ensures stage { self.new.stage ≡ self.old.stage }
    {
        self.write_out(buffer);
        self.has_more = !self.is_held_back();
    }

    // What waits within a buffer's usual bounds isn't told.
    fn note_waiting(&mut self, now: u64)
        ensures engine { self.new.engine ≡ self.old.engine }
        ensures stage { self.new.stage ≡ self.old.stage }
    {
        let bytes = self.engine.writer().buffered() as u64;
        self.waiting.note(bytes, now);
        let told = if bytes > MAX_USUAL { bytes } else { 0 };
        self.counted.open_socket.note_waiting(told);
    }

    // A socket that leaves keeps what was noted: it may go over.
    fn note_rest(&mut self, round: ClientRound<'_>)
        ensures engine { self.new.engine ≡ self.old.engine }
        ensures stage { self.new.stage ≡ self.old.stage }
    {
        if round.idle_ms == 0 || !matches!(self.stage, SocketStage::Served) {
            return;
        }
        let has_written = !self.engine.writer().has_buffered();
        self.idle.note(ClientSight {
            now: round.now,
            came: self.engine.reader().count(),
            is_at_rest: has_written && self.engine.is_at_rest(),
        });
    }

    /// Whether it is served, and its client has been idle for this many milliseconds; 0 is never.
    pub(crate) fn is_idle(&self, now: u64, ms: u64) -> bool
        ensures { IsTrue result ↔ IsIdleFor now ms self.now.stage self.now.idle }
    {
        ms > 0 && matches!(self.stage, SocketStage::Served) && self.idle.lasts(now, ms)
    }

    /// Ends its input behind what has come, and counts that.
    pub(crate) fn end_idle(&mut self)
        ensures engine { self.new.engine ≡ self.old.engine }
        ensures stage { self.new.stage ≡ self.old.stage }
    {
        self.counted.open_socket.count_idle();
        self.idle = Idleness::new();
        self.end_input();
    }

    // Once it takes in nothing more, its answers don't wait for its socket: they go over with it.
    fn set_bound(&mut self, round: ClientRound<'_>)
        ensures engine { self.new.engine ≡ self.old.engine }
        ensures stage { self.new.stage ≡ self.old.stage }
    {
        let goes_over = round.carries_over && self.engine.is_drained();
        let bound = if goes_over && round.buffers_all {
            usize::MAX
        } else {
            MAX_BUFFERED
        };
        self.engine.writer_mut().set_bound(bound);
    }

    /// The bytes that wait for its socket, if that is stalled, else 0.
    pub(crate) fn stalled_bytes(&self, now: u64) -> u64
        ensures { result ≡ stalled_bytes now self.now.waiting }
    {
        self.waiting.stalled_bytes(now)
    }

    /// Ends the connection: its socket takes and gives nothing more.
    pub(crate) fn break_off(&mut self)
        ensures engine { PassesOn self.old.engine self.new.engine }
        ensures failed { self.new.engine.outbox.passed.has_failed ≡ true }
        ensures stage { self.new.stage ≡ self.old.stage }
    {
        self.engine.writer_mut().break_off();
        self.engine.reader_mut().break_off();
        self.counted.open_socket.note_waiting(0);
        self.waiting = WaitingOutput::new();
        self.has_more = true;
    }

    fn step_and_write<R: Wait, T: HeldTurns>(
        &mut self,
        rt: &R,
        turns: &mut MeteredTurns<T>,
        lent: &mut Lent,
        round: ClientRound<'_>,
    ) -> Result<(), StepError>
        requires { self.old.stage ≡ SocketStage.Served }
        ensures keeps { KeepsSocket self.old.engine self.new.engine
            (own_history (T.facts turns.old.turns))
            (own_history (T.facts turns.new.turns)) }
        ensures left { IfSome (end_of self.new.stage)
            (ComesTo (IsDueError (T.cause (T.facts turns.new.turns).setting)
            (T.facts turns.new.turns).seen) self.new.engine) }
    {
        self.lend_buffer(&mut lent.buffer);
        self.set_bound(round);
        let stepped = self.step_engine(rt, turns, round);
        let counts = turns.leave_with_counts();
        self.waits.accepted(round.came_us, counts.accepted);
        self.waits
            .move_oldest(counts.handed.count, &mut lent.answered);
        self.note_replies(round.room, counts);
        self.lower_charge(rt, turns, round.room);
        self.count_unfinished_bytes(round.room, counts);
        self.write_out(&mut lent.buffer);
        self.has_more = self.has_more || stepped.is_err();
        stepped
    }

    fn lend_buffer(&mut self, buffer: &mut Vec<u8>)
        ensures engine { self.new.engine ≡ self.old.engine }
        ensures stage { self.new.stage ≡ self.old.stage }
    {
        self.engine.writer_mut().lend_buffer(buffer);
    }

    // No client's commands are taken in from here on.
    fn stop_accepting(&mut self, room: &JournalRoom)
        ensures engine { self.new.engine ≡ record self.old.engine { is_drained = true } }
        ensures stage { self.new.stage ≡ self.old.stage }
    {
        room.stop_accepting();
        self.drain();
    }

    fn may_carry_over(&self) -> bool
        ensures { result ≡ true → MayGoOver self.now.engine }
    {
        self.engine.may_go_on() && !self.is_broken()
    }

    fn is_broken(&self) -> bool
        ensures { result ≡ self.now.engine.outbox.passed.has_failed }
    {
        self.engine.writer().is_broken()
    }

    // Once a write has failed reads fail too.
    fn write_out(&mut self, buffer: &mut Vec<u8>)
        ensures engine { PassesOn self.old.engine self.new.engine }
        ensures stage { self.new.stage ≡ self.old.stage }
    {
        self.engine.writer_mut().write_out(buffer);
        if self.is_broken() {
            self.engine.reader_mut().break_off();
        }
    }

    // It stops after `MAX_CLIENT_STEPS`, or once this worker's share of parts has come.
    fn step_engine<R: Wait, T: HeldTurns>(
        &mut self,
        rt: &R,
        turns: &mut MeteredTurns<T>,
        round: ClientRound<'_>,
    ) -> Result<(), StepError>
        requires { self.old.stage ≡ SocketStage.Served }
        ensures keeps { KeepsSocket self.old.engine self.new.engine
            (own_history (T.facts turns.old.turns))
            (own_history (T.facts turns.new.turns)) }
        ensures left { IfSome (end_of self.new.stage)
            (ComesTo (IsDueError (T.cause (T.facts turns.new.turns).setting)
            (T.facts turns.new.turns).seen) self.new.engine) }
    {
        let mut intake = Intake::new();
        for _ in 0..MAX_CLIENT_STEPS {
            if turns.counts().parts >= round.most_parts {
                break;
            }
            if let ClientMoved::Waits = self.step(rt, turns, round, &mut intake)? {
                return Ok(());
            }
        }
        self.has_more = true;
        Ok(())
    }

    // A command is taken in only if the journal has room for all steps that it will owe.
    fn step<R: Wait, T: HeldTurns>(
        &mut self,
        rt: &R,
        turns: &mut MeteredTurns<T>,
        round: ClientRound<'_>,
        intake: &mut Intake,
    ) -> Result<ClientMoved, StepError>
        requires { self.old.stage ≡ SocketStage.Served }
        ensures keeps { KeepsSocket self.old.engine self.new.engine
            (own_history (T.facts turns.old.turns))
            (own_history (T.facts turns.new.turns)) }
        ensures on { result ≡ Ok ClientMoved.On → self.new.stage ≡ SocketStage.Served }
        ensures left { IfSome (end_of self.new.stage)
            (ComesTo (IsDueError (T.cause (T.facts turns.new.turns).setting)
            (T.facts turns.new.turns).seen) self.new.engine) }
    {
        self.drain_unless_room(rt, turns, round, &mut intake.room_for);
        let stepped = self.accept_or_step(rt, turns, intake);
        self.handle_stepped(stepped, round.room)
    }

    fn accept_or_step<R: Wait, T: HeldTurns>(
        &mut self,
        rt: &R,
        turns: &mut MeteredTurns<T>,
        intake: &mut Intake,
    ) -> Result<Progress, EngineError>
        requires served { self.old.stage ≡ SocketStage.Served }
        requires room { (self.old.engine.is_drained ≡ true)
            ⊎ (intake.old.room_for ≡ Some turns.old.account.counts.accepted) }
        ensures keeps { KeepsSocket self.old.engine self.new.engine
            (own_history (T.facts turns.old.turns))
            (own_history (T.facts turns.new.turns)) }
        ensures stage { self.new.stage ≡ self.old.stage }
        ensures closed { TellsClosed self.new.engine result }
        ensures due { IfErr result (IsDueError (T.cause (T.facts turns.new.turns).setting)
            (T.facts turns.new.turns).seen) }
    {
        turns.hold();
        let count = self.engine.reader().count();
        if intake.searched == Some(count) {
            return self.step_once(rt, turns);
        }
        match self.engine.accept(rt, turns) {
            Ok(Progress::Idle) => {
                intake.searched = Some(count);
                self.step_once(rt, turns)
            }
            accepted => accepted,
        }
    }

    // It leaves the gate if it may read from the socket.
    fn step_once<R: Wait, T: HeldTurns>(
        &mut self,
        rt: &R,
        turns: &mut MeteredTurns<T>,
    ) -> Result<Progress, EngineError>
        requires { self.old.stage ≡ SocketStage.Served }
        ensures keeps { KeepsSocket self.old.engine self.new.engine
            (own_history (T.facts turns.old.turns))
            (own_history (T.facts turns.new.turns)) }
        ensures stage { self.new.stage ≡ self.old.stage }
        ensures closed { TellsClosed self.new.engine result }
        ensures due { IfErr result (IsDueError (T.cause (T.facts turns.new.turns).setting)
            (T.facts turns.new.turns).seen) }
    {
        if self.engine.reader().may_read() {
            turns.leave();
        }
        self.engine.step(rt, turns)
    }

    fn drain_unless_room<R: Wait, T: HeldTurns>(
        &mut self,
        rt: &R,
        turns: &mut MeteredTurns<T>,
        round: ClientRound<'_>,
        room_for: &mut Option<u64>,
    )
        ensures drains { MayDrain self.old.engine self.new.engine }
        ensures stage { self.new.stage ≡ self.old.stage }
        ensures turns { turns.new.turns ≡ turns.old.turns }
        ensures room { (self.new.engine.is_drained ≡ true)
            ⊎ (room_for.old ≡ Some turns.old.account.counts.accepted)
            ⊎ HasRoom turns.new.account round.entry.reserve self.old.unfinished }
        ensures looked { (self.new.engine.is_drained ≡ true)
            ⊎ (room_for.new ≡ Some turns.new.account.counts.accepted) }
    {
        if self.engine.is_drained() || *room_for == Some(turns.counts().accepted) {
            return;
        }
        *room_for = Some(turns.counts().accepted);
        let room = round.room;
        let needs = self.needs(round.reserve);
        if !room.takes_command(rt, turns, needs, &mut self.charged) {
            self.stop_accepting(room);
        }
    }

    fn needs(&self, reserve: u64) -> CommandNeeds
        ensures unfinished { result.unfinished ≡ self.now.unfinished }
        ensures reserve { result.reserve ≡ reserve }
        ensures charge { result.charge ≡ charge_for
            (capped (self.now.engine.accepted - self.now.engine.handed + 1)) self.now.sizes }
    {
        let commands = self.engine.unanswered().saturating_add(1);
        CommandNeeds {
            unfinished: self.unfinished,
            reserve,
            charge: self.sizes.charge(commands),
        }
    }

    // After want of room a short answer may be an error.
    fn note_replies(&mut self, room: &JournalRoom, counts: TurnCounts)
        ensures engine { self.new.engine ≡ self.old.engine }
        ensures stage { self.new.stage ≡ self.old.stage }
    {
        let handed = counts.handed;
        if handed.count == 0 {
            return;
        }
        self.sizes.note(if room.ran_short() {
            handed.with_lost()
        } else {
            handed
        });
    }

    // It ends with the connection.
    fn lower_charge<R: Wait, T: HeldTurns>(
        &mut self,
        rt: &R,
        turns: &mut MeteredTurns<T>,
        room: &JournalRoom,
    )
        ensures engine { self.new.engine ≡ self.old.engine }
        ensures stage { self.new.stage ≡ self.old.stage }
        ensures turns { turns.new.turns ≡ turns.old.turns }
        ensures left { IfSome (end_of self.old.stage) (λ end. self.new.charged ≡ 0) }
        ensures served { self.old.stage ≡ SocketStage.Served → self.new.charged
            ≡ charge_for (self.old.engine.accepted - self.old.engine.handed) self.old.sizes }
    {
        let charge = match self.stage {
            SocketStage::Served => self.sizes.charge(self.engine.unanswered()),
            SocketStage::Leaving { .. } | SocketStage::Lingering { .. } => 0,
        };
        if charge != self.charged {
            room.charge(rt, turns, charge, &mut self.charged);
        }
    }

    fn handle_stepped(
        &mut self,
        stepped: Result<Progress, EngineError>,
        room: &JournalRoom,
    ) -> Result<ClientMoved, StepError>
        requires served { self.old.stage ≡ SocketStage.Served }
        requires closed { TellsClosed self.old.engine stepped }
        ensures drains { MayDrain self.old.engine self.new.engine }
        ensures on { result ≡ Ok ClientMoved.On → self.new.stage ≡ SocketStage.Served }
        ensures left { IfSome (end_of self.new.stage) (TellsEnd stepped) }
    {
        match stepped {
            Ok(progress) => {
                self.refusals.succeeded();
                Ok(self.handle_progress(progress))
            }
            Err(error) => self.handle_error(error, room),
        }
    }

    fn handle_progress(&mut self, progress: Progress) -> ClientMoved
        requires served { self.old.stage ≡ SocketStage.Served }
        requires closed { TellsClosed self.old.engine (Ok progress) }
        ensures engine { self.new.engine ≡ self.old.engine }
        ensures on { result ≡ ClientMoved.On → self.new.stage ≡ SocketStage.Served }
        ensures left { IfSome (end_of self.new.stage) (TellsEnd (Ok progress)) }
    {
        match progress {
            Progress::Moved => ClientMoved::On,
            Progress::Idle | Progress::NeedsLink => ClientMoved::Waits,
            Progress::Cut | Progress::Ended => {
                self.stage = SocketStage::Leaving {
                    end: EngineEnd::Closed,
                };
                ClientMoved::Waits
            }
        }
    }

    // Without room for a command, none is taken in. Without room for an answer, the connection ends.
    fn handle_error(
        &mut self,
        error: EngineError,
        room: &JournalRoom,
    ) -> Result<ClientMoved, StepError>
        requires served { self.old.stage ≡ SocketStage.Served }
        requires closed { TellsClosed self.old.engine (Err error) }
        ensures drains { MayDrain self.old.engine self.new.engine }
        ensures on { result ≡ Ok ClientMoved.On → self.new.stage ≡ SocketStage.Served }
        ensures left { IfSome (end_of self.new.stage) (TellsEnd (Err error)) }
    {
        let end = match StepError::from(error) {
            StepError::Full if !self.engine.is_drained() => {
                self.stop_accepting(room);
                return Ok(ClientMoved::On);
            }
            StepError::Full => EngineEnd::NoRoom,
            StepError::EndsOne => EngineEnd::of(error),
            StepError::Memory => return Err(self.count_no_memory()),
            StepError::Ends(ending) => return Err(StepError::Ends(ending)),
        };
        self.stage = SocketStage::Leaving { end };
        Ok(ClientMoved::Waits)
    }

    /// The step is made again, unless too many were refused in a row.
    pub(crate) fn count_no_memory(&mut self) -> StepError
        ensures engine { self.new.engine ≡ self.old.engine }
        ensures stage { self.new.stage ≡ self.old.stage }
    {
        self.has_more = true;
        if self.refusals.refused() {
            StepError::Ends(Ending::Memory)
        } else {
            StepError::Memory
        }
    }

    // The connection ends if all connections together have too many unfinished bytes.
    fn count_unfinished_bytes(&mut self, room: &JournalRoom, counts: TurnCounts)
        ensures engine { PassesOn self.old.engine self.new.engine }
        ensures stage { self.new.stage ≡ self.old.stage }
    {
        let count = self.engine.reader().count();
        if counts.accepted > 0 {
            self.begun = count;
        }
        let unfinished = count.saturating_sub(self.begun);
        room.note_unfinished(unfinished, self.unfinished);
        let grows = unfinished > self.unfinished;
        self.unfinished = unfinished;
        if grows && unfinished > MAX_SPARED && room.is_overfull() {
            self.break_off();
        }
    }

    // Once its last bytes are written the sending half is closed, and input is discarded for a while.
    fn finish_closing(&mut self, round: ClientRound<'_>) -> Stepped
        ensures engine { self.new.engine ≡ self.old.engine }
        ensures end { end_of self.new.stage ≡ end_of self.old.stage }
        ensures closed { result ≡ Stepped.Closed → is_lingering self.new.stage ≡ true }
        ensures stays { result ≢ Stepped.CarriedOver }
    {
        if let SocketStage::Leaving { end } = self.stage {
            if !self.has_output() {
                self.begin_lingering(end, round);
            }
        }
        match self.stage {
            SocketStage::Served if self.has_more => Stepped::Ready,
            SocketStage::Served | SocketStage::Leaving { .. } => Stepped::Idle,
            SocketStage::Lingering { until, .. } => self.linger(round.now >= until),
        }
    }

    fn has_output(&self) -> bool
        ensures { result ≡ false → HasPassedAll self.now.engine.outbox }
    {
        self.engine.writer().has_buffered() && !self.is_broken()
    }

    fn begin_lingering(&mut self, end: EngineEnd, round: ClientRound<'_>)
        requires end { end_of self.old.stage ≡ Some end }
        requires passed { HasPassedAll self.old.engine.outbox }
        ensures engine { self.new.engine ≡ self.old.engine }
        ensures end { end_of self.new.stage ≡ Some end }
    {
        self.stream.shut_write();
        round.room.note_unfinished(0, self.unfinished);
        self.unfinished = 0;
        self.stage = SocketStage::Lingering {
            end,
            until: round.now.saturating_add(LINGER_MS),
        };
    }

    // Input is discarded until it ends, or until it is time to close the socket.
    fn linger(&mut self, is_over: bool) -> Stepped
        ensures engine { self.new.engine ≡ self.old.engine }
        ensures stage { self.new.stage ≡ self.old.stage }
        ensures stays { result ≢ Stepped.CarriedOver }
    {
        if is_over || self.is_broken() {
            return Stepped::Closed;
        }
        match self.engine.reader_mut().throw_away() {
            Discarded::Ended | Discarded::Failed => Stepped::Closed,
            Discarded::Emptied => Stepped::Idle,
            Discarded::Partly => Stepped::Ready,
        }
    }
}
