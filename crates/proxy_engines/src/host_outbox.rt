ghost use Rattle.std.specs.Prelude.{◌≡◌, ◌≢◌, ◌⊎◌, ◌++◌, ◌==◌, ◌↔◌, ℕ, List, [], Option, None, true, false, length, drop, IfOk, IfErr, OnOk, OnErr, IsTrue};
ghost use Rattle.std.specs.Io.KnownBytes.{Appends};
ghost use Rattle.proxy_history.specs.declared.event.Event.{Event};
ghost use Rattle.proxy_history.specs.declared.refusal.Refusal.{Refusal};
ghost use Rattle.proxy_engines.specs.Turns.{KeepsTurns, own_history};
ghost use Rattle.proxy_devices.specs.Device.{is_moved};
ghost use Rattle.proxy_engines.specs.Ends.{CountsWritten};
ghost use Rattle.proxy_engines.specs.Moves.{has_moved, told_by_turn};
ghost use Rattle.proxy_engines.specs.HostTurns.{FailsOutbox, MovesEnds};
ghost use Rattle.proxy_engines.specs.Faults.{IsLate, IsDueErrorOn};
ghost use Rattle.proxy_engines.specs.Host.{LinkState, FailsHost};

use crate::one_turn::{make_turn, told_as};
use bytes::Bytes;
use engine_work::{Denied, EngineError};
use proxy_core::{Answer, CoreTurns, Event, Kind};
use proxy_devices::{IoOutcome, WriteTally};
use std::alloc::Global;
use std::collections::VecDeque;
use std::marker::Model;
use std::sync::Wait;

/// A host's engine without its link.
#[derive(Drop)]
pub(crate) struct HostOutbox {
    host: usize,
    reply_ms: u64,
    epoch: u64,
    pending: Bytes,
    // When each part without a reply was taken, the oldest first.
    moments: VecDeque<u64>,
    // A part was of another epoch: another caller failed the host.
    is_astray: bool,
}

impl Model for HostOutbox {
    ghost use Rattle.proxy_engines.specs.Host.{HostOutboxState};

    ghost Value = { HostOutboxState };

    ghost view = { λ l. record {
      host = l.host;
      reply_ms = l.reply_ms;
      epoch = l.epoch;
      pending = l.pending;
      moments = l.moments.items;
      is_astray = l.is_astray;
    } };
}

impl HostOutbox {
    /// Replies are late after `reply_ms` milliseconds.
    pub(crate) fn new(alloc: Global, host: usize, reply_ms: u64) -> HostOutbox
        ensures { result ≡ record {
          host = host;
          reply_ms = reply_ms;
          epoch = 0;
          pending = [];
          moments = [];
          is_astray = false;
        } }
    {
        HostOutbox {
            host,
            reply_ms,
            epoch: 0,
            pending: Bytes::new(),
            moments: VecDeque::new(alloc),
            is_astray: false,
        }
    }

    pub(crate) fn awaits_reply(&self) -> bool
        ensures { IsTrue result ↔ self.now.moments ≢ [] }
    {
        !self.moments.is_empty()
    }

    /// One Taken turn. False: no part waited. There must be no pending bytes.
    pub(crate) fn take<Rt: Wait, T: CoreTurns>(
        &mut self,
        rt: &Rt,
        turns: &mut T,
        moment: u64,
    ) -> Result<bool, EngineError>
        requires nothing { self.old.pending ≡ [] }
        ensures moves { (link : Option LinkState) → MovesEnds T.cause
            (T.facts turns.old) (T.facts turns.new) (record { outbox = self.old; link = link })
            (record { outbox = self.new; link = link }) moment (told_by_turn result) result }
        ensures none { IfOk result (λ b. b ≡ false → self.new ≡ self.old) }
        ensures nothing_waits { IfOk result
            (λ b. b ≡ false → T.cause (T.facts turns.old).setting Refusal.NothingWaiting
            (Event.Taken self.old.host) (T.facts turns.new).seen) }
    {
        if self.is_astray {
            return Err(EngineError::TurnRefused(Denied::Astray));
        }
        if self.moments.reserve(1).is_err() {
            return Err(EngineError::NoMemory);
        }
        match make_turn(rt, turns, Event::Taken { host: self.host }) {
            Ok(Answer::Sent { epoch, text, .. }) => {
                self.moments.push_back_reserved(moment);
                if epoch != self.epoch {
                    self.is_astray = true;
                    return Err(EngineError::TurnRefused(Denied::Astray));
                }
                self.pending = text;
                Ok(true)
            }
            Ok(_) => unreachable!(),
            Err(denied) => told_as(denied, false),
        }
    }

    /// One Failed turn: the epoch ends, and pending bytes are dropped.
    pub(crate) fn fail<Rt: Wait, T: CoreTurns>(
        &mut self,
        rt: &Rt,
        turns: &mut T,
        kind: Kind,
        moment: u64,
    ) -> Result<(), EngineError>
        ensures records { FailsOutbox T.cause (T.facts turns.old) (T.facts turns.new)
            self.old self.new kind moment result }
    {
        if self.is_astray {
            return Err(EngineError::TurnRefused(Denied::Astray));
        }
        let event = Event::Failed {
            host: self.host,
            epoch: self.epoch,
            kind,
            t: moment,
        };
        match make_turn(rt, turns, event) {
            Ok(answer) => {
                drop(answer);
                self.epoch = self.epoch.saturating_add(1);
                self.pending = Bytes::new();
                self.moments.clear();
                Ok(())
            }
            Err(denied) => Err(EngineError::TurnRefused(denied)),
        }
    }

    pub(crate) fn is_late(&self, moment: u64) -> bool
        ensures { (result ≡ true) ↔ IsLate self.now moment }
    {
        match self.moments.front() {
            Some(oldest) => moment.saturating_sub(*oldest) >= self.reply_ms,
            None => false,
        }
    }

    pub(crate) fn host(&self) -> usize
        ensures { result ≡ self.now.host }
    {
        self.host
    }

    pub(crate) fn epoch(&self) -> u64
        ensures { result ≡ self.now.epoch }
    {
        self.epoch
    }

    /// The oldest part without a reply got one.
    pub(crate) fn forget_moment(&mut self)
        ensures { self.new ≡ record self.old { moments = drop 1 self.old.moments } }
    {
        let _oldest = self.moments.pop_front();
    }

    pub(crate) fn write_to<W: WriteTally>(&mut self, writer: &mut W) -> IoOutcome
        requires some { self.old.pending ≢ [] }
        ensures bytes { (gave rest : List ℕ)
            × Appends (W.contents writer.old) (W.contents writer.new) gave
            × (W.taken writer.new ≡ W.taken writer.old ++ gave)
            × (self.old.pending ≡ gave ++ rest) × (self.new ≡ record self.old { pending = rest })
            × (is_moved result ≡ has_moved [] gave []) }
        ensures counts { CountsWritten (W.counts writer.old) (W.counts writer.new) result }
    {
        let told = writer.write_told(self.pending.as_slice());
        if let IoOutcome::Moved(n) = told {
            self.pending.advance(n);
        }
        told
    }

    pub(crate) fn is_empty(&self) -> bool
        ensures { result ≡ (length self.now.pending == 0) }
    {
        self.pending.is_empty()
    }
}
