ghost use Rattle.std.specs.Prelude.{◌≡◌, ◌↔◌, ◌≤◌, ◌<◌, ◌+◌, ◌-◌, ◌/◌, ◌⊎◌, max, IfOk, IsTrue};
ghost use Rattle.std.specs.Bool.{OnTrue, OnFalse};
ghost use Rattle.limits.specs.declared.journals.TheConstants.{MAX_COMMAND_STEPS};
ghost use Rattle.crossbeam_utils.specs.Padded.{padded_value};
ghost use Rattle.journal_budget.specs.Account.{known, owed_steps, reported_to, with_account, with_payload};
ghost use Rattle.journal_budget.specs.Ledger.{HasLeft, payload_in, with_charge};
ghost use Rattle.journal_room.specs.LastLedger.{LendsAtLeast};
ghost use Rattle.journal_budget.specs.Budget.{capped, no_loan, free_steps, borrowed};
ghost use Rattle.journal_budget.specs.Counts.{no_bytes};
ghost use Rattle.journal_budget.specs.Payload.{HasRoomForCommand, HasRoomForReply, average_of};
ghost use Rattle.journal_room.specs.declared.journal_room.TheConstants.{LARGE, LARGE_STEP};

use crate::metered_turns::{HeldTurns, MeteredTurns};
use crate::open_connections::{OpenConnection, OpenConnections};
use crate::room_ledger::RoomLedger;
use byte_sum::ByteSum;
use crossbeam_utils::CachePadded;
use limits::{MAX_COMMAND_STEPS, MAX_UNFINISHED};
use std::alloc::{AllocError, Global};
use std::sync::atomic::{AtomicBool, Ordering};
use std::sync::{Arc, Wait};

// Payload of this many bytes is reported before room is decided.
const LARGE: u64 = 65_536;

// From this average of bytes a step on, each accepted command is reported at once.
const LARGE_STEP: u64 = 8_192;

// At most this many steps are lent to all workers together, but to each at least a command's.
const MAX_LENT: u64 = 65_536;

/// What a client's further command needs.
#[derive(Clone, Copy, Drop)]
pub struct CommandNeeds {
    /// The client's bytes that aren't accepted yet.
    pub unfinished: u64,
    /// Steps kept for the worker's links.
    pub reserve: u64,
    /// What its commands are charged, with this one.
    pub charge: u64,
}

/// What the workers of a generation share. What each round writes has cache lines of its own, so that no other read
/// waits for it.
pub struct JournalRoom {
    workers: u64,
    // The last generation's payload bytes a step.
    average: u64,
    open: OpenConnections,
    ledger: CachePadded<RoomLedger>,
    // No further commands are accepted, so that accepted ones can be answered before the journal is full.
    is_full: AtomicBool,
    ran_short: AtomicBool,
    unfinished: CachePadded<ByteSum>,
    // Those of all journals of the process, with these.
    all_unfinished: Arc<ByteSum>,
}

impl Drop for JournalRoom {
    fn drop(self) {
        let JournalRoom {
            workers: _,
            average: _,
            open: _,
            ledger: _,
            is_full: _,
            ran_short: _,
            unfinished,
            all_unfinished,
        } = self;
        all_unfinished.change(0, unfinished.get());
    }
}

impl JournalRoom {
    /// The room in an empty journal. `average` is the last generation's payload bytes a step, and `all_unfinished` has the bytes
    /// of all unfinished commands of the process. Refused for want of memory.
    pub fn new(
        alloc: Global,
        workers: u64,
        average: u64,
        all_unfinished: Arc<ByteSum>,
    ) -> Result<JournalRoom, AllocError>
        ensures workers { IfOk result (λ room. room.workers ≡ workers) }
        ensures average { IfOk result (λ room. room.average ≡ average) }
    {
        Ok(JournalRoom {
            workers,
            average,
            open: OpenConnections::new(alloc)?,
            ledger: CachePadded::new(RoomLedger::new()),
            is_full: AtomicBool::new(false),
            ran_short: AtomicBool::new(false),
            unfinished: CachePadded::new(ByteSum::new()),
            all_unfinished,
        })
    }

    /// Reports the worker's turns, takes back unspent steps, and lends this reserve again, if so many steps are left. The
    /// turns leave the gate.
    pub fn settle<R: Wait, T: HeldTurns>(&self, rt: &R, turns: &mut MeteredTurns<T>, reserve: u64)
        ensures turns { turns.new.turns ≡ turns.old.turns }
        ensures counts { turns.new.account.counts ≡ turns.old.account.counts }
        ensures last { turns.new.last_ledger.name ≡ (padded_value self.now.ledger).name }
        ensures lent { HasLeft reserve (with_account turns.old.account
            turns.new.last_ledger.found) → turns.new.account.loan ≡ borrowed reserve no_loan }
        ensures too_few { (turns.new.account.loan ≡ no_loan)
            ⊎ HasLeft reserve (with_account turns.old.account turns.new.last_ledger.found) }
        ensures payload { turns.new.account.reported.payload
            ≡ payload_in self.now.average
            (with_account turns.old.account turns.new.last_ledger.found) }
        ensures reported { (turns.new.account.bytes ≡ no_bytes)
            × (turns.new.account.steps ≡ 0) × (turns.new.account.cost ≡ 0) }
    {
        turns.leave();
        let open = self.open.count();
        turns.settle(&mut self.ledger.lock(rt), self.average, open, reserve);
    }

    /// Lends this many steps. False: too few are left. The turns leave the gate.
    pub fn lend_steps<R: Wait, T: HeldTurns>(
        &self,
        rt: &R,
        turns: &mut MeteredTurns<T>,
        steps: u64,
    ) -> bool
        ensures turns { turns.new.turns ≡ turns.old.turns }
        ensures last { turns.new.last_ledger.name ≡ (padded_value self.now.ledger).name }
        ensures fits { IsTrue result ↔ HasLeft steps turns.new.last_ledger.found }
        ensures lent { OnTrue result (turns.new.account
            ≡ record turns.old.account { loan = borrowed steps turns.old.account.loan }) }
        ensures unchanged { OnFalse result (turns.new.account ≡ turns.old.account) }
    {
        turns.leave();
        turns.borrow_steps(&mut self.ledger.lock(rt), steps)
    }

    /// Lends steps until the worker has enough for any command beside the reserve. False: too few are left. The turns
    /// leave the gate where the worker has too few.
    pub fn lend<R: Wait, T: HeldTurns>(
        &self,
        rt: &R,
        turns: &mut MeteredTurns<T>,
        reserve: u64,
    ) -> bool
        ensures turns { turns.new.turns ≡ turns.old.turns }
        ensures last { ((turns.new ≡ turns.old) × IsTrue result)
            ⊎ (turns.new.last_ledger.name ≡ (padded_value self.now.ledger).name) }
        ensures enough { IsTrue result
            ↔ (capped (reserve + MAX_COMMAND_STEPS) ≤ free_steps turns.new.account.loan) }
        ensures account { turns.new.account
            ≡ record turns.old.account { loan = turns.new.account.loan } }
        ensures lent { let missing = capped (reserve + MAX_COMMAND_STEPS)
            - free_steps turns.old.account.loan in
            0 < missing → HasLeft missing turns.new.last_ledger.found
            → LendsAtLeast missing turns.old.account.loan turns.new.account.loan }
    {
        let least = reserve.saturating_add(MAX_COMMAND_STEPS);
        if turns.free_steps() >= least {
            return true;
        }
        let many = (MAX_LENT / self.workers.max(1)).clamp(MAX_COMMAND_STEPS, 2 * MAX_COMMAND_STEPS);
        let missing = least.saturating_sub(turns.free_steps());
        turns.leave();
        turns.borrow_at_least(&mut self.ledger.lock(rt), missing, many);
        turns.free_steps() >= least
    }

    /// Whether there is room for a further command, beside the reserve and all charges. The other workers know of
    /// `charged` for the client. The turns leave the gate where large payload or a charge is reported, or steps are lent.
    pub fn takes_command<R: Wait, T: HeldTurns>(
        &self,
        rt: &R,
        turns: &mut MeteredTurns<T>,
        needs: CommandNeeds,
        charged: &mut u64,
    ) -> bool
        ensures turns { turns.new.turns ≡ turns.old.turns }
        ensures counts { turns.new.account.counts ≡ turns.old.account.counts }
        ensures last { (turns.new ≡ turns.old)
            ⊎ (turns.new.last_ledger.name ≡ (padded_value self.now.ledger).name) }
        ensures takes { IsTrue result
            ↔ ((capped (needs.reserve + MAX_COMMAND_STEPS) ≤ free_steps turns.new.account.loan)
            × HasRoomForCommand (known turns.new.account) (owed_steps turns.new.account)
            needs.unfinished) }
        ensures large { (LARGE ≤ max needs.unfinished turns.old.account.bytes.kept)
            ⊎ (LARGE_STEP ≤ average_of turns.old.account.reported.payload)
            ⊎ (0 < max needs.charge charged.old)
            → turns.new.account.bytes ≡ no_bytes }
        ensures small { max needs.unfinished turns.old.account.bytes.kept < LARGE
            → average_of turns.old.account.reported.payload < LARGE_STEP
            → max needs.charge charged.old ≡ 0
            → turns.new.account ≡ record turns.old.account { loan = turns.new.account.loan } }
        ensures charged { OnTrue result ((charged.new ≡ needs.charge)
            × (0 < max needs.charge charged.old → turns.new.account.reported.payload.charged
            ≡ capped (turns.new.last_ledger.found.charged - charged.old + needs.charge))) }
    {
        let is_charged = needs.charge.max(*charged) > 0;
        if is_charged
            || needs.unfinished.max(turns.account().unreported_bytes()) >= LARGE
            || turns.account().average() >= LARGE_STEP
        {
            self.settle(rt, turns, needs.reserve);
        }
        if !self.lend(rt, turns, needs.reserve) {
            return false;
        }
        if is_charged {
            self.charge(rt, turns, needs.charge, charged);
        }
        turns.account().has_room_for_command(needs.unfinished)
    }

    /// Reports what a client's commands are charged; the others know of `charged`. The turns leave the gate.
    pub fn charge<R: Wait, T: HeldTurns>(
        &self,
        rt: &R,
        turns: &mut MeteredTurns<T>,
        charge: u64,
        charged: &mut u64,
    )
        ensures turns { turns.new.turns ≡ turns.old.turns }
        ensures last { turns.new.last_ledger.name ≡ (padded_value self.now.ledger).name }
        ensures account { turns.new.account ≡ reported_to (with_payload turns.old.account
            (with_charge charge charged.old turns.new.last_ledger.found))
            self.now.average turns.old.account.reported.owed turns.old.account }
        ensures charged { charged.new ≡ charge }
    {
        turns.leave();
        turns.report_charge(&mut self.ledger.lock(rt), self.average, charge, charged);
    }

    /// Whether there is room for a reply of which `came` bytes have come, and the other workers know of `reported`. A
    /// large one is reported first, and has to fit beside all others that are coming. The turns leave the gate then.
    pub fn takes_reply<R: Wait, T: HeldTurns>(
        &self,
        rt: &R,
        turns: &mut MeteredTurns<T>,
        came: u64,
        reported: &mut u64,
    ) -> bool
        ensures turns { turns.new.turns ≡ turns.old.turns }
        ensures counts { turns.new.account.counts ≡ turns.old.account.counts }
        ensures loan { turns.new.account.loan ≡ turns.old.account.loan }
        ensures room { IsTrue result → HasRoomForReply (known turns.new.account) came }
        ensures beside { LARGE ≤ max (max came reported.old) turns.old.account.bytes.kept
            → (IsTrue result ↔ HasRoomForReply (known turns.new.account)
            (capped (turns.new.last_ledger.found.coming - reported.old + came))) }
        ensures small { max (max came reported.old) turns.old.account.bytes.kept < LARGE
            → (turns.new ≡ turns.old) × (reported.new ≡ reported.old)
            × (IsTrue result ↔ HasRoomForReply (known turns.old.account) came) }
        ensures large { LARGE ≤ max (max came reported.old) turns.old.account.bytes.kept
            → (turns.new.last_ledger.name ≡ (padded_value self.now.ledger).name)
            × (reported.new ≡ came) × (turns.new.account
            ≡ reported_to (with_payload turns.old.account turns.new.last_ledger.found)
            self.now.average turns.old.account.reported.owed turns.old.account) }
    {
        if came.max(*reported).max(turns.account().unreported_bytes()) < LARGE {
            return turns.account().has_room_for_reply(came);
        }
        turns.leave();
        turns.report_reply(&mut self.ledger.lock(rt), self.average, came, reported)
    }

    /// The steps made or owed, by the workers' reports.
    pub fn spent<R: Wait>(&self, rt: &R) -> u64 {
        self.ledger.lock(rt).ledger.spent()
    }

    /// The payload bytes a step that the next generation starts with: at least half of what this one started with.
    pub fn average<R: Wait>(&self, rt: &R) -> u64
        ensures { self.now.average / 2 ≤ result }
    {
        self.ledger.lock(rt).ledger.next_average(self.average)
    }

    /// Whether no further commands are accepted.
    pub fn is_full(&self) -> bool {
        self.is_full.load(Ordering::SeqCst)
    }

    /// Accepts no further commands.
    pub fn stop_accepting(&self) {
        self.is_full.store(true, Ordering::SeqCst);
    }

    /// Whether a host's reply found no room.
    pub fn ran_short(&self) -> bool {
        self.ran_short.load(Ordering::SeqCst)
    }

    /// A host's reply found no room: no further commands are accepted.
    pub fn note_short(&self) {
        self.ran_short.store(true, Ordering::SeqCst);
        self.stop_accepting();
    }

    /// Counts a socket that may get a connection here, until what is returned is dropped. Refused for want of memory.
    pub fn count_opened(&self) -> Result<OpenConnection, AllocError> {
        self.open.open()
    }

    /// Whether a socket has a connection here, or may get one.
    pub fn has_connections(&self) -> bool {
        self.open.count() != 0
    }

    /// Changes the bytes of a connection's unfinished command.
    pub fn note_unfinished(&self, now: u64, before: u64) {
        self.unfinished.change(now, before);
        self.all_unfinished.change(now, before);
    }

    /// Whether the unfinished commands of all connections of the process have more than `MAX_UNFINISHED` bytes.
    pub fn is_overfull(&self) -> bool {
        self.all_unfinished.is_more_than(MAX_UNFINISHED)
    }
}
