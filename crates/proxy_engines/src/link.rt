ghost use Rattle.std.specs.Prelude.{◌≡◌, ◌≢◌, ◌⊎◌, ℕ, [], Option, Some, None, IfOk, IfErr, OnErr, true, false};
ghost use Rattle.limits.specs.declared.messages.TheConstants.{MAX_HOST_MEMBERS};
ghost use Rattle.proxy_history.specs.History.{History};
ghost use Rattle.proxy_history.specs.declared.event.Event.{Event};
ghost use Rattle.proxy_history.specs.declared.refusal.Refusal.{Refusal};
ghost use Rattle.resp_core.specs.declared.value.Value.{Value};
ghost use Rattle.proxy_engines.specs.Turns.{KeepsTurns, own_history};
ghost use Rattle.std.specs.Borrow.{sem};
ghost use Rattle.proxy_devices.specs.Device.{WasIdle, HasRisen, reader_state, writer_state};
ghost use Rattle.proxy_engines.specs.OneTurn.{HasHeld};
ghost use Rattle.proxy_engines.specs.Ends.{HasGivenAll, KeepsReader};
ghost use Rattle.proxy_engines.specs.LinkSteps.{AnswersAll, AnswersNext, AnswersValue, LooksForValue, ReadsOnLink, Receives, ReceivesInTime, SendsOnLink, WorksOnLink, WritesOnLink, with_found};
ghost use Rattle.proxy_engines.specs.HostTurns.{MovesEnds};
ghost use Rattle.proxy_engines.specs.Host.{GetsReplies, HostOutboxState, LinkState, GoesWithoutTurn, on_link};
ghost use Rattle.proxy_engines.specs.LinkFaults.{TellsLimit};
ghost use Rattle.proxy_engines.specs.Moves.{AsTold};
ghost use Rattle.proxy_engines.specs.Faults.{either, is_fault, HasNoFaultOn, HasRead, IfFault, IsCauseOf, IsLate, IsOfDevice, IsUnaskedNow, IsLateOn, IsPlain, told_by_moves, told_by_outcome};

use crate::host_outbox::HostOutbox;
use crate::inbox::Inbox;
use crate::link_fault::PassedLimit;
use crate::one_turn::{give, told_as};
use engine_work::EngineError;
use proxy_core::{CoreTurns, Kind, Request};
use proxy_devices::{IoOutcome, ReadTally, WriteTally};
use resp_core::{Limits, Value};
use std::alloc::Global;
use std::marker::Model;
use std::sync::Wait;

/// The two ends of a link to a host, and a value whose turn isn't answered yet.
#[derive(Drop)]
pub(crate) struct Link<R: ReadTally, W: WriteTally> {
    inbox: Inbox<R>,
    writer: W,
    next: Option<Value>,
}

/// The result of a move.
#[derive(Clone, Copy, Drop)]
pub(crate) enum Outcome {
    Idle,
    Moved,
    /// A fault of the link, and the step's error once the fault is recorded.
    Fault {
        kind: Kind,
        error: Option<EngineError>,
    },
}

impl Outcome {
    pub(crate) fn is_fault(&self) -> bool
        ensures { result ≡ is_fault self.now }
    {
        matches!(self, Outcome::Fault { .. })
    }

    // This outcome, or the other one if nothing moved here.
    fn or(self, other: Outcome) -> Outcome
        ensures is { result ≡ either self other }
        ensures calm { is_fault self ≡ false → is_fault other ≡ false → is_fault result ≡ false }
    {
        match self {
            Outcome::Idle => other,
            moved => moved,
        }
    }
}

#[derive(Drop)]
enum NextValue {
    Value(Value),
    Idle,
    Garbled,
}

impl<R: ReadTally, W: WriteTally> Model for Link<R, W> {
    ghost use Rattle.proxy_engines.specs.Host.{LinkState};

    ghost Value = { LinkState };

    ghost use Rattle.resp_core.specs.contracts.value.Value as value;
    ghost use Rattle.std.specs.Coded.{codes};
    ghost use Rattle.resp_core.specs.Code.{tree_code};

    ghost coded = { Prim.hlevel (codes, tree_code, value.the_row.coded) };

    ghost view = { λ k. record {
      inbox = k.inbox;
      held = W.contents k.writer;
      taken = W.taken k.writer;
      counts = W.counts k.writer;
      next = k.next;
    } };
}

#[tactic(auto, using(crate::proofs::HostMoves::goes_on, crate::proofs::HostMoves::starts_then, crate::proofs::FaultLemmas::no_fault, crate::proofs::FaultLemmas::fault_later))]
impl<R: ReadTally, W: WriteTally> Link<R, W> {
    ghost use Rattle.proxy_engines.specs.Ends.{Holds};
    ghost use Rattle.proxy_engines.specs.Lends.{lends_link_reader, lends_link_writer, with_link_reader, with_link_writer};

    pub(crate) fn reader(&self) -> &R
        ensures { self.now ≡ with_link_reader self.now
            (reader_state R.remaining R.told R.counts result.now) }
    {
        self.inbox.reader()
    }

    pub(crate) fn reader_mut(&mut self) -> &mut R
        ensures* writes_back { sem 𝓛 (lends_link_reader R.row W.row (record { told = R.told })
            (record { remaining = R.remaining }) (record { counts = R.counts })
            (record { taken = W.taken; passed = W.passed }) (record { contents = W.contents })
            (record { counts = W.counts }) self.entry result) }
        ensures value { self.old ≡ with_link_reader self.old
            (reader_state R.remaining R.told R.counts result.now) }
    {
        self.inbox.reader_mut()
    }

    pub(crate) fn writer(&self) -> &W
        ensures { self.now ≡ with_link_writer self.now
            (writer_state W.contents W.taken W.passed W.counts result.now) }
    {
        &self.writer
    }

    pub(crate) fn writer_mut(&mut self) -> &mut W
        ensures* writes_back { sem 𝓛 (lends_link_writer R.row W.row (record { told = R.told })
            (record { remaining = R.remaining }) (record { counts = R.counts })
            (record { taken = W.taken; passed = W.passed }) (record { contents = W.contents })
            (record { counts = W.counts }) self.entry result) }
        ensures value { self.old ≡ with_link_writer self.old
            (writer_state W.contents W.taken W.passed W.counts result.now) }
    {
        &mut self.writer
    }

    /// Without memory both ends come back.
    pub(crate) fn new(alloc: Global, reader: R, writer: W) -> Result<Link<R, W>, (R, W)>
        ensures inbox { IfOk result (λ k. (k.inbox.left ≡ R.remaining reader)
            × (k.inbox.values.most ≡ MAX_HOST_MEMBERS) × (k.inbox.values.refusal ≡ None)) }
        ensures holds { IfOk result (λ k. Holds k.inbox [] []) }
        ensures held { IfOk result (λ k. k.held ≡ W.contents writer) }
        ensures logs { IfOk result (λ k. (k.inbox.told ≡ R.told reader)
            × (k.taken ≡ W.taken writer)) }
        ensures next { IfOk result (λ k. k.next ≡ None) }
        ensures back { IfErr result (λ ends. (ends.0 ≡ reader) × (ends.1 ≡ writer)) }
    {
        match Inbox::new(alloc, reader, Limits::HOST) {
            Ok(inbox) => Ok(Link {
                inbox,
                writer,
                next: None,
            }),
            Err(reader) => Err((reader, writer)),
        }
    }

    /// That of a refused reply, if it is too long.
    pub(crate) fn passed_limit(&self) -> Option<PassedLimit>
        ensures { TellsLimit self.now.inbox.values.refusal result }
    {
        self.inbox.passed_limit()
    }

    fn write(&mut self, outbox: &mut HostOutbox) -> Outcome
        requires some { outbox.old.pending ≢ [] }
        ensures goes { GoesWithoutTurn (on_link outbox.old self.old) (on_link outbox.new self.new)
            (told_by_outcome result) }
        ensures writes { WritesOnLink (record { old = self.old; new = self.new }) result }
    {
        match outbox.write_to(&mut self.writer) {
            IoOutcome::Moved(_) => Outcome::Moved,
            IoOutcome::Idle => Outcome::Idle,
            IoOutcome::End | IoOutcome::Failed => Outcome::Fault {
                kind: Kind::Dropped,
                error: Some(EngineError::WriteFailed),
            },
        }
    }

    // The value that is found isn't kept: it goes to its turn at once.
    fn next_value(&mut self) -> Result<NextValue, EngineError>
        requires whole { self.old.inbox.values.refusal ≡ None }
        ensures goes { IfOk result (λ found. (outbox : HostOutboxState) → GoesWithoutTurn
            (on_link outbox self.old) (on_link outbox (with_found self.new found)) (Some false)) }
        ensures rests { OnErr result ((outbox : HostOutboxState)
            → GoesWithoutTurn (on_link outbox self.old) (on_link outbox self.new) (Some false)) }
        ensures looks { LooksForValue (record { old = self.old; new = self.new }) result }
    {
        if let Some(value) = self.next.take() {
            return Ok(NextValue::Value(value));
        }
        // A host's values are read as requests are, but for commands.
        match self.inbox.next_read() {
            Ok(Some(Request::Read(value))) => Ok(NextValue::Value(value)),
            Ok(Some(Request::Spelled(command))) => {
                drop(command);
                unreachable!()
            }
            Ok(Some(Request::Broken)) => Ok(NextValue::Garbled),
            Ok(None) => Ok(NextValue::Idle),
            Err(_) => Err(EngineError::NoMemory),
        }
    }

    // What came is a value and its moment.
    fn answer<Rt: Wait, T: CoreTurns>(
        &mut self,
        came: (Value, u64),
        outbox: &mut HostOutbox,
        rt: &Rt,
        turns: &mut T,
    ) -> Result<Outcome, EngineError>
        requires none { self.old.next ≡ None }
        ensures moves { MovesEnds T.cause (T.facts turns.old) (T.facts turns.new)
            (on_link outbox.old (record self.old { next = Some came.0 }))
            (on_link outbox.new self.new) came.1 (told_by_moves result) result }
        ensures answers { AnswersValue
            (IsUnaskedNow (T.cause (T.facts turns.old).setting Refusal.Unasked)
            (T.facts turns.new).seen came.1 outbox.new self.new)
            (record { old = self.old; new = self.new }) result }
        ensures untaken { GetsReplies outbox.old outbox.new }
    {
        let (value, moment) = came;
        match give(rt, turns, outbox.host(), outbox.epoch(), value, moment) {
            Ok(()) => {
                outbox.forget_moment();
                Ok(Outcome::Moved)
            }
            Err((denied, value)) => {
                drop(self.next.replace(value));
                let garbled = Outcome::Fault {
                    kind: Kind::Garbled,
                    error: None,
                };
                told_as(denied, garbled)
            }
        }
    }

    fn read(&mut self) -> Outcome
        requires none { self.old.next ≡ None }
        requires given { HasGivenAll self.old.inbox }
        ensures goes { (outbox : HostOutboxState) → GoesWithoutTurn (on_link outbox self.old)
            (on_link outbox self.new) (told_by_outcome result) }
        ensures reads { ReadsOnLink (record { old = self.old; new = self.new }) result }
    {
        match self.inbox.read_once() {
            IoOutcome::Moved(_) => Outcome::Moved,
            IoOutcome::Idle => Outcome::Idle,
            IoOutcome::End => Outcome::Fault {
                kind: Kind::Dropped,
                error: None,
            },
            IoOutcome::Failed => Outcome::Fault {
                kind: Kind::Dropped,
                error: Some(EngineError::ReadFailed),
            },
        }
    }

    fn answer_next<Rt: Wait, T: CoreTurns>(
        &mut self,
        outbox: &mut HostOutbox,
        rt: &Rt,
        turns: &mut T,
        moment: u64,
    ) -> Result<Outcome, EngineError>
        requires whole { self.old.inbox.values.refusal ≡ None }
        ensures moves { MovesEnds T.cause (T.facts turns.old) (T.facts turns.new)
            (on_link outbox.old self.old) (on_link outbox.new self.new) moment
            (told_by_moves result) result }
        ensures answers { AnswersNext
            (IsUnaskedNow (T.cause (T.facts turns.old).setting Refusal.Unasked)
            (T.facts turns.new).seen moment outbox.new self.new)
            (record { old = self.old; new = self.new }) result }
        ensures untaken { GetsReplies outbox.old outbox.new }
    {
        match self.next_value()? {
            NextValue::Idle => Ok(Outcome::Idle),
            NextValue::Garbled => Ok(Outcome::Fault {
                kind: Kind::Garbled,
                error: None,
            }),
            NextValue::Value(value) => self.answer((value, moment), outbox, rt, turns),
        }
    }

    fn answer_all<Rt: Wait, T: CoreTurns>(
        &mut self,
        outbox: &mut HostOutbox,
        rt: &Rt,
        turns: &mut T,
        moment: u64,
    ) -> Result<Outcome, EngineError>
        requires whole { self.old.inbox.values.refusal ≡ None }
        ensures moves { MovesEnds T.cause (T.facts turns.old) (T.facts turns.new)
            (on_link outbox.old self.old) (on_link outbox.new self.new) moment
            (told_by_moves result) result }
        ensures answers { AnswersAll
            (IsUnaskedNow (T.cause (T.facts turns.old).setting Refusal.Unasked)
            (T.facts turns.new).seen moment outbox.new self.new)
            (record { old = self.old; new = self.new }) result }
        ensures untaken { GetsReplies outbox.old outbox.new }
    {
        let mut outcome = Outcome::Idle;
        for _ in rt.forever() {
            match self.answer_next(outbox, rt, turns, moment)? {
                Outcome::Idle => return Ok(outcome),
                Outcome::Moved => outcome = Outcome::Moved,
                fault => return Ok(fault),
            }
        }
        unreachable!()
    }

    pub(crate) fn send<Rt: Wait, T: CoreTurns>(
        &mut self,
        outbox: &mut HostOutbox,
        rt: &Rt,
        turns: &mut T,
        moment: u64,
    ) -> Result<Outcome, EngineError>
        ensures moves { MovesEnds T.cause (T.facts turns.old) (T.facts turns.new)
            (on_link outbox.old self.old) (on_link outbox.new self.new) moment
            (told_by_moves result) result }
        ensures sends { SendsOnLink ((outbox.old.pending ≡ []) × T.cause (T.facts turns.old).setting
            Refusal.NothingWaiting (Event.Taken outbox.old.host) (T.facts turns.new).seen)
            (record { old = self.old; new = self.new }) result }
    {
        if !outbox.is_empty() {
            return Ok(self.write(outbox));
        }
        if outbox.take(rt, turns, moment)? {
            Ok(Outcome::Moved)
        } else {
            Ok(Outcome::Idle)
        }
    }

    // Answers the values that have come, reads once, and answers those that came with it.
    fn receive<Rt: Wait, T: CoreTurns>(
        &mut self,
        outbox: &mut HostOutbox,
        rt: &Rt,
        turns: &mut T,
        moment: u64,
    ) -> Result<Outcome, EngineError>
        requires whole { self.old.inbox.values.refusal ≡ None }
        ensures moves { MovesEnds T.cause (T.facts turns.old) (T.facts turns.new)
            (on_link outbox.old self.old) (on_link outbox.new self.new) moment
            (told_by_moves result) result }
        ensures receives { Receives
            (IsUnaskedNow (T.cause (T.facts turns.old).setting Refusal.Unasked)
            (T.facts turns.new).seen moment outbox.new self.new)
            (record { old = self.old; new = self.new }) result }
        ensures untaken { GetsReplies outbox.old outbox.new }
    {
        let before = self.answer_all(outbox, rt, turns, moment)?;
        if before.is_fault() {
            return Ok(before);
        }
        let heard = self.read();
        if heard.is_fault() {
            return Ok(heard);
        }
        let after = self.answer_all(outbox, rt, turns, moment)?;
        if after.is_fault() {
            return Ok(after);
        }
        Ok(before.or(heard).or(after))
    }

    /// Reads, and sends nothing. Last, a late reply is a fault.
    pub(crate) fn receive_in_time<Rt: Wait, T: CoreTurns>(
        &mut self,
        outbox: &mut HostOutbox,
        rt: &Rt,
        turns: &mut T,
        moment: u64,
    ) -> Result<Outcome, EngineError>
        requires whole { self.old.inbox.values.refusal ≡ None }
        ensures moves { MovesEnds T.cause (T.facts turns.old) (T.facts turns.new)
            (on_link outbox.old self.old) (on_link outbox.new self.new) moment
            (told_by_moves result) result }
        ensures receives { ReceivesInTime
            (IsUnaskedNow (T.cause (T.facts turns.old).setting Refusal.Unasked)
            (T.facts turns.new).seen moment outbox.new self.new) outbox.new
            (record { old = self.old; new = self.new }) moment result }
        ensures untaken { GetsReplies outbox.old outbox.new }
    {
        let received = self.receive(outbox, rt, turns, moment)?;
        if received.is_fault() {
            return Ok(received);
        }
        if outbox.is_late(moment) {
            return Ok(Outcome::Fault {
                kind: Kind::Late,
                error: None,
            });
        }
        Ok(received)
    }

    pub(crate) fn step<Rt: Wait, T: CoreTurns>(
        &mut self,
        outbox: &mut HostOutbox,
        rt: &Rt,
        turns: &mut T,
        moment: u64,
    ) -> Result<Outcome, EngineError>
        requires whole { self.old.inbox.values.refusal ≡ None }
        ensures moves { MovesEnds T.cause (T.facts turns.old) (T.facts turns.new)
            (on_link outbox.old self.old) (on_link outbox.new self.new) moment
            (told_by_moves result) result }
        ensures works { WorksOnLink
            (IsUnaskedNow (T.cause (T.facts turns.old).setting Refusal.Unasked)
            (T.facts turns.new).seen moment outbox.new self.new)
            ((outbox.old.pending ≡ []) × HasHeld
            (T.cause (T.facts turns.old).setting Refusal.NothingWaiting)
            (Event.Taken outbox.old.host) (T.facts turns.old).seen (T.facts turns.new).seen)
            outbox.new (record { old = self.old; new = self.new }) moment result }
    {
        let sent = self.send(outbox, rt, turns, moment)?;
        if sent.is_fault() {
            return Ok(sent);
        }
        let received = self.receive_in_time(outbox, rt, turns, moment)?;
        if received.is_fault() {
            return Ok(received);
        }
        Ok(sent.or(received))
    }
}
