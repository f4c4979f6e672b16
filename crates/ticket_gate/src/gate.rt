ghost use Rattle.std.specs.Prelude.{◌≡◌, [], Some, IfOk, IfErr};
ghost use Rattle.ticket_gate.specs.Gate.{GateFacts, SpareFacts, PassFacts, IsGateSized, IsAtRest, HasNoNumber, IsSpareOf, spare_facts, pass_facts};
ghost use Rattle.ticket_gate.specs.declared.refusal.GateRefusal.TheVariants.{NoMemory};

use crate::recorded::Recorded;
use crate::refusal::GateRefusal;
use crate::view::View;
use atomic_table::{Refused, Seat, Table, TableRule};
use std::alloc::{AllocFailed, Global};
use std::marker::Model;
use std::snapshot::Snapshot;

pub(crate) const DRAWN: usize = 0;

pub(crate) const SERVING: usize = 1;

pub(crate) const ENROLLED: usize = 2;

/// It is empty only while a place inside works on the state.
pub(crate) const STATE: usize = 0;

/// The view of a seat at a gate of this state.
pub type SeatView<S> = View<
    <S as Recorded>::Event,
    <S as Recorded>::Answer,
    <S as Recorded>::Setting,
>;

/// A spare seat has no number.
pub(crate) type GateSeat<S> = Seat<Option<S>, SeatView<S>>;

/// The second number is the first ticket.
type Opening<S> = (Snapshot<S>, u64);

/// The rule that each atomic step keeps.
pub struct TicketRule;

impl<S: Recorded> TableRule<Option<S>, SeatView<S>, Opening<S>> for TicketRule {
    ghost use Rattle.ticket_gate.specs.Rule.{GateRule, first_view};

    ghost holds = { λ key. GateRule S.journal S.setting S.legal (S.setting key.0.value) };

    ghost first = { λ key. first_view (S.setting key.0.value) key.1 };
}

/// A ticket lock around a state. Contracts see its identity, and the setting of its state.
#[derive(Drop)]
pub struct Gate<S: Recorded> {
    pub(crate) table: Table<Option<S>, SeatView<S>, Opening<S>, TicketRule, Global>,
}

impl<S: Recorded> Model for Gate<S> {
    ghost Value = { GateFacts S.Setting };

    ghost view = { λ g. record {
      id = g.table.shared.table_id;
      setting = S.setting g.table.shared.key.0.value;
    } };

    ghost invariant = { λ g. IsGateSized g.table.shared.table_id };
}

/// A place at a gate for one thread, without a number.
#[derive(Drop)]
pub struct Spare<S: Recorded> {
    pub(crate) seat: GateSeat<S>,
}

impl<S: Recorded> Model for Spare<S> {
    ghost Value = { SpareFacts S.Event S.Answer S.Setting };

    ghost view = { λ s. spare_facts s.seat };

    ghost invariant = { λ s. IsAtRest s.seat × HasNoNumber s.seat };
}

/// A place at a gate with a number that no other pass of the gate has.
#[derive(Drop)]
pub struct Pass<S: Recorded> {
    pub(crate) number: u64,
    pub(crate) seat: GateSeat<S>,
}

impl<S: Recorded> Model for Pass<S> {
    ghost Value = { PassFacts S.Event S.Answer S.Setting };

    ghost view = { λ p. pass_facts p.number p.seat };

    ghost invariant = { λ p. IsAtRest p.seat × (p.seat.me.0.own.number ≡ Some p.number) };
}

impl<S: Recorded> Pass<S> {
    /// The number of the pass, which its steps have.
    pub fn number(&self) -> u64
        ensures { result ≡ self.now.number }
    {
        self.number
    }
}

impl<S: Recorded> Gate<S> {
    /// A gate around a state with an empty journal, and its first spare place. Tickets begin at 0.
    ///
    /// Where memory is refused it returns `NoMemory` (1204) with the state unchanged.
    pub fn new(alloc: Global, state: S) -> Result<(Gate<S>, Spare<S>), (GateRefusal, S)>
        requires { S.journal state ≡ [] }
        ensures gate { IfOk result (λ made. (made.0.setting ≡ S.setting state)
            × IsSpareOf made.0 made.1) }
        ensures first { IfOk result (λ made. (made.1.known.last_served ≡ 0)
            × (made.1.known.last_drawn ≡ 0)) }
        ensures refused { IfErr result (λ refused. (refused.0 ≡ NoMemory) × (refused.1 ≡ state)) }
    {
        Gate::new_at(alloc, state, 0)
    }

    /// Like `new`, with the first ticket `first`. Tickets end before the greatest `u64`.
    pub fn new_at(
        alloc: Global,
        state: S,
        first: u64,
    ) -> Result<(Gate<S>, Spare<S>), (GateRefusal, S)>
        requires { S.journal state ≡ [] }
        ensures gate { IfOk result (λ made. (made.0.setting ≡ S.setting state)
            × IsSpareOf made.0 made.1) }
        ensures first { IfOk result (λ made. (made.1.known.last_served ≡ first)
            × (made.1.known.last_drawn ≡ first)) }
        ensures refused { IfErr result (λ refused. (refused.0 ≡ NoMemory) × (refused.1 ≡ state)) }
    {
        let about = (Snapshot::of(&state), first);
        let mut slots = Vec::new(alloc);
        if let Err(AllocFailed { value }) = slots.push(Some(state)) {
            slots.destroy_empty();
            return Err((GateRefusal::NoMemory, value.unwrap()));
        }
        match Table::new(alloc, &[first, first, 0], slots, &about) {
            Ok((table, seat)) => Ok((Gate { table }, Spare { seat })),
            Err(Refused { mut slots }) => {
                let state = slots.pop().unwrap().unwrap();
                slots.destroy_empty();
                Err((GateRefusal::NoMemory, state))
            }
        }
    }
}
