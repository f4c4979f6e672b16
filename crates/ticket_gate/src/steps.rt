//! The atomic steps of the gate, by what each shows the place that makes it. Only the proofs use
//! these types.
ghost use Rattle.ticket_gate.specs.Steps.{ReadsEnrolled, TakesNumber, ReadsDrawn, DrawsTicket, LooksAtServing, EntersAtOnce, ServesNext, ComparesPasses, pair_of, first_of, second_of};
ghost use Rattle.ticket_gate.specs.Rule.{spent_view};

use crate::gate::SeatView;
use crate::recorded::Recorded;
use crate::view::View;
use atomic_table::{Join, Play, Split};

/// A load of `enrolled`.
pub struct ReadEnrolled;

impl<S: Recorded> Play<Option<S>, SeatView<S>> for ReadEnrolled {
    ghost then = { ReadsEnrolled };
}

/// A compare-exchange of `enrolled`, which gives a spare place the number found.
pub struct TakeNumber;

impl<S: Recorded> Play<Option<S>, SeatView<S>> for TakeNumber {
    ghost then = { TakesNumber };
}

/// A load of `drawn`.
pub struct ReadDrawn;

impl<S: Recorded> Play<Option<S>, SeatView<S>> for ReadDrawn {
    ghost then = { ReadsDrawn };
}

/// A compare-exchange of `drawn`, which gives a place the ticket found.
pub struct DrawTicket;

impl<S: Recorded> Play<Option<S>, SeatView<S>> for DrawTicket {
    ghost then = { DrawsTicket };
}

/// A load of `serving`, which takes a place inside where it finds its ticket.
pub struct LookAtServing;

impl<S: Recorded> Play<Option<S>, SeatView<S>> for LookAtServing {
    ghost then = { LooksAtServing S.journal S.setting S.legal };
}

/// A compare-exchange of `drawn` from the ticket served, which takes a place inside at once.
pub struct EnterAtOnce;

impl<S: Recorded> Play<Option<S>, SeatView<S>> for EnterAtOnce {
    ghost then = { EntersAtOnce S.journal S.setting S.legal };
}

/// A store to `serving`, by which a place inside leaves.
pub struct ServeNext;

impl<S: Recorded> Play<Option<S>, SeatView<S>> for ServeNext {
    ghost then = { ServesNext S.journal };
}

/// A load of `serving` by a seat that holds two passes.
pub struct ComparePasses;

impl<S: Recorded> Play<Option<S>, SeatView<S>> for ComparePasses {
    ghost then = { ComparesPasses S.legal };
}

/// A spare place becomes two.
pub struct HalveSpare;

impl<E, A, C> Split<View<E, A, C>> for HalveSpare {
    ghost left = { λ v. v };

    ghost right = { λ v. v };
}

/// Two passes come into one seat, and part again.
pub struct PairPasses;

impl<E, A, C> Join<View<E, A, C>> for PairPasses {
    ghost both = { pair_of };

    ghost spent = { spent_view };
}

impl<E, A, C> Split<View<E, A, C>> for PairPasses {
    ghost left = { first_of };

    ghost right = { second_of };
}
