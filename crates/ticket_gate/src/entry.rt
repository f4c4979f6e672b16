ghost use Rattle.std.specs.Prelude.{◌≡◌, ◌-◌, ◌*◌, ◌^◌, ◌<◌, ◌≤◌, min, IfOk, IfErr, MatchOption};
ghost use Rattle.ticket_gate.specs.Gate.{IsAtRest};
ghost use Rattle.ticket_gate.specs.Visit.{KeepsSeen, MayEnter, HoldsTicket, IsInside};
ghost use Rattle.ticket_gate.specs.Entry.{FoundShut};

use crate::gate::{DRAWN, Gate, GateSeat, SERVING};
use crate::recorded::Recorded;
use crate::steps::{DrawTicket, EnterAtOnce, LookAtServing, ReadDrawn};
use crossbeam_utils::Backoff;
use std::sync::Wait;
use std::time::Duration;

/// The most tries to enter at once before a turn sleeps.
pub const MAX_TRIES: u32 = 10;

/// The most tries behind a sleep before a turn draws a ticket.
pub const MAX_SLEEPS: u32 = 12;

/// The first sleep. Each further one is as much longer.
const MIN_SLEEP_US: u64 = 50;

/// The longest sleep.
const MAX_SLEEP_US: u64 = 600;

// `None`: it isn't time to sleep yet.
fn sleep_us(looks: u32) -> Option<u64>
    ensures { MatchOption result (looks < 10)
        (λ us. (10 ≤ looks) × (us ≡ min (50 * (looks - 9)) 600)) }
{
    let sleeps = looks.checked_sub(MAX_TRIES)?;
    Some((MIN_SLEEP_US * (sleeps as u64 + 1)).min(MAX_SLEEP_US))
}

#[derive(Clone, Copy)]
pub(crate) enum EntryRefusal {
    Busy { served: u64, drawn: u64 },
    Spent,
}

impl<S: Recorded> Gate<S> {
    #[inline(always)]
    pub(crate) fn enter_at_once(&self, seat: &mut GateSeat<S>) -> Result<u64, EntryRefusal>
        requires { MayEnter self.now.id seat.old }
        ensures gate { seat.new.table_id ≡ seat.old.table_id }
        ensures inside { IfOk result (λ t. (t < 2 ^ 64 - 1)
            × IsInside S.journal S.setting S.legal seat.old.me.0.own t seat.new) }
        ensures refused { IfErr result (λ why. IsAtRest seat.new
            × KeepsSeen seat.old.me.0.own seat.new.me.0.own
            × FoundShut seat.old.me.0.own seat.new.me.0.own why) }
    {
        let shared = &self.table.shared;
        let served = shared.load::<LookAtServing>(seat, SERVING);
        if served == u64::MAX {
            return Err(EntryRefusal::Spent);
        }
        let drawn = shared.compare_exchange::<EnterAtOnce>(seat, DRAWN, served, served + 1);
        if drawn != served {
            return Err(EntryRefusal::Busy { served, drawn });
        }
        Ok(served)
    }

    // At first it spins and yields, and then it sleeps, which leaves the processor to the thread inside. Nobody
    // wakes it: a turn is shorter than a call of the system.
    fn pause<R: Wait>(&self, rt: &R, backoff: &Backoff, looks: u32, served: u64) {
        match sleep_us(looks) {
            None => backoff.snooze(),
            Some(us) => {
                let shared = &self.table.shared;
                let low = (served % (1 << 32)) as u32;
                shared.park_timeout(rt, SERVING, low, Duration::from_micros(us));
            }
        }
    }

    // It tries more and more seldom. `None`: it didn't enter.
    fn enter_soon<R: Wait>(&self, rt: &R, seat: &mut GateSeat<S>) -> Option<u64>
        requires { MayEnter self.now.id seat.old }
        ensures gate { seat.new.table_id ≡ seat.old.table_id }
        ensures entered { MatchOption result
            (IsAtRest seat.new × KeepsSeen seat.old.me.0.own seat.new.me.0.own)
            (λ t. (t < 2 ^ 64 - 1)
            × IsInside S.journal S.setting S.legal seat.old.me.0.own t seat.new) }
    {
        let backoff = Backoff::new();
        for looks in 0..MAX_TRIES + MAX_SLEEPS {
            match self.enter_at_once(seat) {
                Ok(ticket) => return Some(ticket),
                Err(EntryRefusal::Busy { served, .. }) => self.pause(rt, &backoff, looks, served),
                Err(EntryRefusal::Spent) => return None,
            }
        }
        None
    }

    fn draw<R: Wait>(&self, rt: &R, seat: &mut GateSeat<S>) -> Option<u64>
        requires { MayEnter self.now.id seat.old }
        ensures gate { seat.new.table_id ≡ seat.old.table_id }
        ensures ticket { MatchOption result
            (IsAtRest seat.new × KeepsSeen seat.old.me.0.own seat.new.me.0.own
            × (seat.new.me.0.own.last_drawn ≡ 2 ^ 64 - 1))
            (λ t. (t < 2 ^ 64 - 1) × HoldsTicket seat.old.me.0.own t seat.new) }
    {
        let shared = &self.table.shared;
        for _ in rt.forever() {
            let ticket = shared.load::<ReadDrawn>(seat, DRAWN);
            if ticket == u64::MAX {
                return None;
            }
            if shared.compare_exchange::<DrawTicket>(seat, DRAWN, ticket, ticket + 1) == ticket {
                return Some(ticket);
            }
        }
        unreachable!()
    }

    fn wait<R: Wait>(&self, rt: &R, seat: &mut GateSeat<S>, ticket: u64)
        requires { (seat.old.table_id ≡ self.now.id)
            × HoldsTicket seat.old.me.0.own ticket seat.old }
        ensures gate { seat.new.table_id ≡ seat.old.table_id }
        ensures inside { IsInside S.journal S.setting S.legal seat.old.me.0.own ticket seat.new }
    {
        let backoff = Backoff::new();
        let mut looks = 0;
        for _ in rt.forever() {
            let served = self.table.shared.load::<LookAtServing>(seat, SERVING);
            if served == ticket {
                return;
            }
            self.pause(rt, &backoff, looks, served);
            // (all wait for a ticket that sleeps, so its sleeps stay short)
            looks = (looks + 1).min(MAX_TRIES);
        }
        unreachable!()
    }

    #[inline(always)]
    pub(crate) fn enter<R: Wait>(&self, rt: &R, seat: &mut GateSeat<S>) -> Option<u64>
        requires { MayEnter self.now.id seat.old }
        ensures gate { seat.new.table_id ≡ seat.old.table_id }
        ensures entered { MatchOption result
            (IsAtRest seat.new × KeepsSeen seat.old.me.0.own seat.new.me.0.own
            × (seat.new.me.0.own.last_drawn ≡ 2 ^ 64 - 1))
            (λ t. (t < 2 ^ 64 - 1)
            × IsInside S.journal S.setting S.legal seat.old.me.0.own t seat.new) }
    {
        if let Some(ticket) = self.enter_soon(rt, seat) {
            return Some(ticket);
        }
        let ticket = self.draw(rt, seat)?;
        self.wait(rt, seat, ticket);
        Some(ticket)
    }
}
