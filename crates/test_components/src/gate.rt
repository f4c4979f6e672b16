//! The gate around a running total: several passes write one journal.
ghost use Rattle.std.specs.Prelude.{◌≡◌, ◌≤◌, [], IfOk, sum_by};
ghost use Rattle.ticket_gate.specs.Gate.{IsPassOf, IsSpareOf};
ghost use Rattle.test_total.specs.RunningTotal.{journal_of, limit_of};

use journal_core::Step;
use std::alloc::Global;
use std::sync::atomic::AtomicBool;
use std::sync::atomic::Ordering::SeqCst;
use std::sync::{Arc, Wait};
use std::test::Fail;
use std::thread;
use test_total::{AdditionRefusal, RunningTotal};
use ticket_gate::{Gate, Pass, Recorded, Seated, Spare, TurnRefusal, Turns};

const MAX_LOOKS: u32 = 1_000_000;

// It yields after each look. False: the flag never was as wanted.
fn becomes(flag: &AtomicBool, wanted: bool) -> bool {
    for _ in 0..MAX_LOOKS {
        if flag.load(SeqCst) == wanted {
            return true;
        }
        thread::yield_now();
    }
    false
}

/// A running total whose turns wait while `hold` is up. One that waits too long is refused without a cause.
#[derive(Drop)]
struct HeldTotal {
    total: RunningTotal,
    hold: Arc<AtomicBool>,
    entered: Arc<AtomicBool>,
}

impl Recorded for HeldTotal {
    type Event = u64;

    type Answer = u64;

    type Refusal = Option<AdditionRefusal>;

    type Setting = u64;

    type Sight = u64;

    ghost journal = { λ s. journal_of s.total };

    ghost setting = { λ s. limit_of s.total };

    ghost legal = { λ limit journal. Unit {0} };

    ghost cause = { λ limit refusal amount journal. Unit {0} };

    ghost sight_of = { λ limit journal. sum_by (λ step. step.event) journal };

    fn sight(&self) -> u64 {
        self.total.sight()
    }

    fn turn(&mut self, pass: u64, event: u64) -> Result<u64, (Option<AdditionRefusal>, u64)> {
        self.entered.store(true, SeqCst);
        if !becomes(&self.hold, false) {
            return Err((None, event));
        }
        match self.total.turn(pass, event) {
            Ok(total) => Ok(total),
            Err((refusal, event)) => Err((Some(refusal), event)),
        }
    }

    ghost legal_at_first = { λ limit. tt };

    ghost legal_before = { λ limit journal more is_legal. tt };
}

pub(crate) fn open<S: Recorded + Drop>(alloc: Global, state: S) -> Result<(Gate<S>, Spare<S>), Fail>
    requires { S.journal state ≡ [] }
    ensures { IfOk result (λ made. IsSpareOf made.0 made.1) }
{
    match Gate::new(alloc, state) {
        Ok(made) => Ok(made),
        Err(refused) => {
            drop(refused);
            Err(Fail::from("no memory for a gate"))
        }
    }
}

pub(crate) fn enrol<S: Recorded + Drop, R: Wait>(
    rt: &R,
    gate: &Gate<S>,
    spare: Spare<S>,
) -> Result<Pass<S>, Fail>
    requires { IsSpareOf gate.now spare }
    ensures { IfOk result (IsPassOf gate.now) }
{
    match gate.enrol(rt, spare) {
        Ok(pass) => Ok(pass),
        Err(refused) => {
            drop(refused);
            Err(Fail::from("no place for a pass"))
        }
    }
}

pub(crate) fn pair<S: Recorded + Drop, R: Wait>(
    rt: &R,
    alloc: Global,
    state: S,
) -> Result<(Gate<S>, Pass<S>, Pass<S>), Fail>
    requires { S.journal state ≡ [] }
    ensures { IfOk result (λ made. IsPassOf made.0 made.1 × IsPassOf made.0 made.2) }
{
    let (gate, spare) = open(alloc, state)?;
    match enrol_both(rt, &gate, spare) {
        Ok((one, other)) => Ok((gate, one, other)),
        Err(fail) => {
            drop(gate);
            Err(fail)
        }
    }
}

pub(crate) fn enrol_both<S: Recorded + Drop, R: Wait>(
    rt: &R,
    gate: &Gate<S>,
    spare: Spare<S>,
) -> Result<(Pass<S>, Pass<S>), Fail>
    requires { IsSpareOf gate.now spare }
    ensures { IfOk result (λ made. IsPassOf gate.now made.0 × IsPassOf gate.now made.1) }
{
    let (one, other) = gate.split(spare);
    let one = enrol(rt, gate, one)?;
    match enrol(rt, gate, other) {
        Ok(other) => Ok((one, other)),
        Err(fail) => {
            drop(one);
            Err(fail)
        }
    }
}

// Each pass's steps stand in the order in which it made them, and none is of another pass.
fn are_in_order(steps: &[Step<u64, u64>], passes: usize) -> bool {
    let mut next = [0u64; 4];
    for step in steps {
        let pass = step.pass as usize;
        if pass >= passes || pass >= 4 || step.event < next[pass] || step.event >= 1000 {
            return false;
        }
        next[pass] = step.event + 1;
    }
    true
}

pub(crate) fn count_of(steps: &[Step<u64, u64>], pass: u64) -> usize {
    let mut count = 0usize;
    for step in steps {
        count = count.saturating_add(usize::from(step.pass == pass));
    }
    count
}

// The result of a turn or a sight: a number, or a refusal with the amount that came back.
#[derive(Clone, Copy, PartialEq)]
pub(crate) enum Outcome {
    Answered(u64),
    PastLimit(u64),
    NoMemory(u64),
    Spent(u64),
    Busy(u64),
}

pub(crate) fn outcome_of(turn: Result<u64, TurnRefusal<AdditionRefusal, u64>>) -> Outcome {
    match turn {
        Ok(total) => Outcome::Answered(total),
        Err(TurnRefusal::Busy { event, .. }) => Outcome::Busy(event),
        Err(TurnRefusal::Spent { event }) => Outcome::Spent(event),
        Err(TurnRefusal::State { cause, event }) => match cause {
            AdditionRefusal::PastLimit => Outcome::PastLimit(event),
            AdditionRefusal::NoMemory => Outcome::NoMemory(event),
        },
    }
}

// Of a total's steps: how many each of four passes has, whether all are theirs and in order, how
// many there are, and their sum.
type TotalFacts = ([u64; 4], bool, u64, u64);

fn found(state: Option<RunningTotal>, passes: usize) -> Option<TotalFacts> {
    let state = state?;
    let mut counts = [0u64; 4];
    for pass in 0..4usize {
        counts[pass] = count_of(state.steps(), pass as u64) as u64;
    }
    let is_in_order = are_in_order(state.steps(), passes);
    let (len, total) = (state.steps().len() as u64, state.total());
    drop(state);
    Some((counts, is_in_order, len, total))
}

pub(crate) fn answered_turns<
    T: Turns<Event = u64, Answer = u64, Refusal = AdditionRefusal>,
    R: Wait,
>(rt: &R, turns: &mut T, times: u64) -> u64
    ensures few { result ≤ times }
    ensures same { (T.facts turns.new).home ≡ (T.facts turns.old).home }
{
    let mut answered = 0u64;
    for amount in 0..times {
        if turns.turn(rt, amount).is_ok() {
            answered += 1;
        }
    }
    answered
}

fn make_turns<R: Wait>(
    rt: &R,
    gate: &Gate<RunningTotal>,
    pass: Pass<RunningTotal>,
) -> (Pass<RunningTotal>, u64)
    requires { IsPassOf gate.now pass }
    ensures { IsPassOf gate.now result.0 }
{
    let mut turns = Seated::new(gate, pass);
    let answered = answered_turns(rt, &mut turns, 1000);
    (turns.into_pass(), answered)
}

// Both passes make turns in threads. Returns the first pass, the numbers of answered turns, and the passes' numbers.
fn fill_both<R: thread::Threads + Wait + Sync>(
    rt: &R,
    gate: &Gate<RunningTotal>,
    one: Pass<RunningTotal>,
    other: Pass<RunningTotal>,
) -> (Pass<RunningTotal>, [u64; 2], [u64; 2])
    requires { IsPassOf gate.now one × IsPassOf gate.now other }
    ensures { IsPassOf gate.now result.0 }
{
    let ((one, by_one), (other, by_other)) = thread::join(
        rt,
        || -> (Pass<RunningTotal>, u64)
            requires { IsPassOf gate.now one }
            ensures { IsPassOf gate.entry.now result.0 }
        { make_turns(rt, gate, one) },
        || -> (Pass<RunningTotal>, u64)
            requires { IsPassOf gate.now other }
            ensures { IsPassOf gate.entry.now result.0 }
        { make_turns(rt, gate, other) },
    );
    let (one, other) = gate.meet(one, other);
    let numbers = [one.number(), other.number()];
    (one, [by_one, by_other], numbers)
}

#[test]
fn two_passes_fill_one_journal(rt: HostRuntime) -> Result<(), Fail> {
    let (gate, one, other) = pair(&rt, rt.alloc(), RunningTotal::new(rt.alloc(), u64::MAX))?;
    let (one, answered, numbers) = fill_both(&rt, &gate, one, other);
    let found = found(gate.close(one), 2);
    assert!(rt; (answered, numbers) == ([1_000, 1_000], [0, 1]));
    // (the total is twice the sum of 0 to 999)
    assert!(rt; found == Some(([1_000, 1_000, 0, 0], true, 2_000, 999_000)));
    Ok(())
}

// Every other turn waits. Returns the number of answered turns.
fn mix_turns<R: Wait>(
    rt: &R,
    gate: &Gate<RunningTotal>,
    pass: Pass<RunningTotal>,
) -> (Pass<RunningTotal>, u64)
    requires { IsPassOf gate.now pass }
    ensures few { result.1 ≤ 500 }
    ensures gate { IsPassOf gate.now result.0 }
{
    let mut pass = pass;
    let mut answered = 0u64;
    for amount in 0..500 {
        let outcome = if amount % 2 == 0 {
            gate.take_turn(rt, &mut pass, amount)
        } else {
            gate.try_turn(&mut pass, amount)
        };
        if outcome.is_ok() {
            answered += 1;
        }
    }
    (pass, answered)
}

fn mix_two<R: thread::Threads + Wait + Sync>(
    rt: &R,
    gate: &Gate<RunningTotal>,
    one: Pass<RunningTotal>,
    other: Pass<RunningTotal>,
) -> ((Pass<RunningTotal>, u64), (Pass<RunningTotal>, u64))
    requires { IsPassOf gate.now one × IsPassOf gate.now other }
    ensures pass { IsPassOf gate.now result.0.0 }
    ensures few { (result.0.1 ≤ 500) × (result.1.1 ≤ 500) }
{
    thread::join(
        rt,
        move || -> (Pass<RunningTotal>, u64)
            requires { IsPassOf gate.now one }
            ensures few { result.1 ≤ 500 }
            ensures pass { IsPassOf gate.entry.now result.0 }
        { mix_turns(rt, gate, one) },
        move || -> (Pass<RunningTotal>, u64)
            requires { IsPassOf gate.now other }
            ensures few { result.1 ≤ 500 }
        { mix_turns(rt, gate, other) },
    )
}

#[derive(Drop)]
struct PassPair {
    one: Pass<RunningTotal>,
    other: Pass<RunningTotal>,
}

// Returns the first pass, and the numbers of answered turns.
fn mix_four<R: thread::Threads + Wait + Sync>(
    rt: &R,
    gate: &Gate<RunningTotal>,
    left: PassPair,
    right: PassPair,
) -> (Pass<RunningTotal>, [u64; 4])
    requires left { IsPassOf gate.now left.one × IsPassOf gate.now left.other }
    requires right { IsPassOf gate.now right.one × IsPassOf gate.now right.other }
    ensures { IsPassOf gate.now result.0 }
{
    let PassPair { one: a, other: b } = left;
    let PassPair { one: c, other: d } = right;
    let (first, second) = thread::join(
        rt,
        || -> ((Pass<RunningTotal>, u64), (Pass<RunningTotal>, u64))
            requires { IsPassOf gate.now a × IsPassOf gate.now b }
            ensures { IsPassOf gate.entry.now result.0.0 }
        { mix_two(rt, gate, a, b) },
        || -> ((Pass<RunningTotal>, u64), (Pass<RunningTotal>, u64))
            requires { IsPassOf gate.now c × IsPassOf gate.now d }
        { mix_two(rt, gate, c, d) },
    );
    let ((a, by_a), (_b, by_b)) = first;
    let ((_c, by_c), (_d, by_d)) = second;
    (a, [by_a, by_b, by_c, by_d])
}

// Each pass has 250 steps of turns that waited, and others.
fn is_mixed(answered: [u64; 4], found: Option<TotalFacts>) -> bool {
    let Some(found) = found else {
        return false;
    };
    let counts = found.0;
    let mut sum = 0u64;
    for by_one in answered {
        if by_one < 250 {
            return false;
        }
        sum = sum.saturating_add(by_one);
    }
    found.1 && counts == answered && found.2 == sum
}

#[test]
fn four_threads_mix_their_turns(rt: HostRuntime) -> Result<(), Fail> {
    let (gate, spare) = open(rt.alloc(), RunningTotal::new(rt.alloc(), u64::MAX))?;
    let (left, right) = gate.split(spare);
    let (one, other) = enrol_both(&rt, &gate, left)?;
    let left = PassPair { one, other };
    let (one, other) = enrol_both(&rt, &gate, right)?;
    let right = PassPair { one, other };
    let (a, answered) = mix_four(&rt, &gate, left, right);
    let found = found(gate.close(a), 4);
    assert!(rt; is_mixed(answered, found));
    Ok(())
}

#[test]
fn a_held_gate_is_busy(rt: HostRuntime) -> Result<(), Fail> {
    let hold = Arc::new(rt.alloc(), AtomicBool::new(true))?;
    let entered = Arc::new(rt.alloc(), AtomicBool::new(false))?;
    let state = HeldTotal {
        total: RunningTotal::new(rt.alloc(), 100),
        hold: Arc::try_clone(&hold)?,
        entered: Arc::try_clone(&entered)?,
    };
    let (gate, one, other) = pair(&rt, rt.alloc(), state)?;
    let (mut one, mut other) = (one, other);
    let shared = &gate;
    let (held, busy) = thread::join(
        &rt,
        || -> bool
            requires { IsPassOf shared.now one }
        { matches!(shared.take_turn(&rt, &mut one, 4), Ok(4)) },
        || -> bool
            requires { IsPassOf shared.now other }
        {
            let inside = becomes(&entered, true);
            let outcome = shared.try_turn(&mut other, 7);
            hold.store(false, SeqCst);
            inside
                && matches!(
                    outcome,
                    Err(TurnRefusal::Busy {
                        served: 0,
                        drawn: 1,
                        event: 7,
                    })
                )
        },
    );
    drop(one);
    drop(other);
    drop(gate);
    assert!(rt; held, "the held turn is answered");
    assert!(rt; busy, "a turn meanwhile is refused as busy");
    Ok(())
}
