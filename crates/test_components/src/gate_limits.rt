//! The gate around a running total: its last tickets, its most passes, its refusals, and want of memory.
ghost use Rattle.std.specs.Prelude.{IfSome};
ghost use Rattle.ticket_gate.specs.Gate.{IsPassOf, IsSpareOf};

use crate::gate::{Outcome, answered_turns, count_of, enrol, enrol_both, open, outcome_of};
use std::alloc::Global;
use std::fmt::Display;
use std::sync::Wait;
use std::test::Fail;
use test_total::{AdditionRefusal, RunningTotal};
use ticket_gate::{
    Alone, Gate, GateRefusal, MAX_TURNS_INSIDE, Pass, Seated, Spare, TurnRefusal, Turns,
};

#[derive(Clone, Copy)]
enum Act {
    // A turn of the first pass that waits.
    Takes(u64, Outcome),
    // A turn of the first pass that doesn't wait.
    Tries(u64, Outcome),
    // A turn of the second pass that doesn't wait.
    OtherTries(u64, Outcome),
    Looks(Outcome),
}

fn look_of(look: Result<u64, TurnRefusal<AdditionRefusal, ()>>) -> Outcome {
    match look {
        Ok(total) => Outcome::Answered(total),
        Err(TurnRefusal::Spent { .. }) => Outcome::Spent(0),
        Err(_) => Outcome::Busy(0),
    }
}

fn comes_so<R: Wait>(
    rt: &R,
    gate: &Gate<RunningTotal>,
    one: &mut Pass<RunningTotal>,
    other: &mut Pass<RunningTotal>,
    act: Act,
) -> bool
    requires { IsPassOf gate.now one.old × IsPassOf gate.now other.old }
    ensures { IsPassOf gate.now one.new × IsPassOf gate.now other.new }
{
    match act {
        Act::Takes(amount, outcome) => outcome_of(gate.take_turn(rt, one, amount)) == outcome,
        Act::Tries(amount, outcome) => outcome_of(gate.try_turn(one, amount)) == outcome,
        Act::OtherTries(amount, outcome) => outcome_of(gate.try_turn(other, amount)) == outcome,
        Act::Looks(outcome) => look_of(gate.sight(rt, one)) == outcome,
    }
}

// The index of the first act with another outcome.
fn first_fault<R: Wait>(
    rt: &R,
    gate: &Gate<RunningTotal>,
    one: &mut Pass<RunningTotal>,
    other: &mut Pass<RunningTotal>,
    acts: &[Act],
) -> Option<usize>
    requires { IsPassOf gate.now one.old × IsPassOf gate.now other.old }
    ensures { IsPassOf gate.now one.new × IsPassOf gate.now other.new }
{
    for place in 0..acts.len() {
        if !comes_so(rt, gate, one, other, acts[place]) {
            return Some(place);
        }
    }
    None
}

fn has_steps(state: &RunningTotal, steps: &[(u64, u64)]) -> bool {
    let mut total = 0u64;
    for (step, (pass, amount)) in state.steps().iter().zip(steps) {
        if step.pass != *pass || step.event != *amount {
            return false;
        }
        total = total.saturating_add(*amount);
    }
    state.steps().len() == steps.len() && state.total() == total
}

fn ends_with(state: Option<RunningTotal>, steps: &[(u64, u64)]) -> bool {
    let Some(state) = state else {
        return false;
    };
    let is_so = has_steps(&state, steps);
    drop(state);
    is_so
}

// Plays two passes' acts at a gate with this first ticket, around a total with this limit.
fn check<R: Wait + AllocGlobal>(
    rt: &R,
    (first, limit): (u64, u64),
    acts: &[Act],
    steps: &[(u64, u64)],
) -> Result<(), Fail> {
    let state = RunningTotal::new(rt.alloc(), limit);
    let Ok((gate, spare)) = Gate::new_at(rt.alloc(), state, first) else {
        return Err(Fail::from("no memory for a gate"));
    };
    let (mut one, mut other) = enrol_both(rt, &gate, spare)?;
    let fault = first_fault(rt, &gate, &mut one, &mut other, acts);
    drop(other);
    let ends = ends_with(gate.close(one), steps);
    match fault {
        None if ends => Ok(()),
        None => Err(Fail::from("other steps")),
        Some(place) => Err(place.into()),
    }
}

#[test]
fn tickets_end_before_the_greatest_number(rt: HostRuntime) -> Result<(), Fail> {
    let acts = &[
        Act::Tries(4, Outcome::Answered(4)),
        Act::Tries(5, Outcome::Spent(5)),
        Act::Takes(6, Outcome::Spent(6)),
        Act::Looks(Outcome::Spent(0)),
    ];
    check(&rt, (18446744073709551614, 100), acts, &[(0, 4)])
}

#[test]
fn a_refused_turn_leaves_the_journal(rt: HostRuntime) -> Result<(), Fail> {
    let acts = &[
        Act::Takes(4, Outcome::Answered(4)),
        Act::Takes(7, Outcome::PastLimit(7)),
        Act::Tries(8, Outcome::PastLimit(8)),
        Act::OtherTries(6, Outcome::Answered(10)),
        Act::Looks(Outcome::Answered(10)),
    ];
    check(&rt, (0, 10), acts, &[(0, 4), (1, 6)])
}

#[test]
fn a_free_gate_answers_at_once(rt: HostRuntime) -> Result<(), Fail> {
    let acts = &[
        Act::Tries(4, Outcome::Answered(4)),
        Act::Tries(5, Outcome::Answered(9)),
    ];
    check(&rt, (0, 100), acts, &[(0, 4), (0, 5)])
}

// The outcomes of a seat's turns and another pass's: inside, outside, after all turns, and dropped inside.
fn outcomes_beside<R: Wait>(
    rt: &R,
    gate: &Gate<RunningTotal>,
    one: Pass<RunningTotal>,
    mut other: Pass<RunningTotal>,
) -> [Outcome; 5]
    requires { IsPassOf gate.now one × IsPassOf gate.now other }
{
    let mut seat = Seated::new(gate, one);
    seat.hold();
    let first = outcome_of(seat.turn(rt, 4));
    let inside = outcome_of(gate.try_turn(&mut other, 5));
    seat.leave();
    let left = outcome_of(gate.try_turn(&mut other, 6));
    seat.hold();
    for _ in 0..MAX_TURNS_INSIDE {
        outcome_of(seat.turn(rt, 1));
    }
    let done = outcome_of(gate.try_turn(&mut other, 7));
    outcome_of(seat.turn(rt, 1));
    drop(seat);
    let dropped = outcome_of(gate.try_turn(&mut other, 8));
    [first, inside, left, done, dropped]
}

#[test]
fn a_pass_that_holds_the_gate_keeps_others_out_until_it_leaves(
    rt: HostRuntime,
) -> Result<(), Fail> {
    let (gate, spare) = open(rt.alloc(), RunningTotal::new(rt.alloc(), 1_000))?;
    let (one, other) = enrol_both(&rt, &gate, spare)?;
    let outcomes = outcomes_beside(&rt, &gate, one, other);
    drop(gate);
    let expected = [
        Outcome::Answered(4),
        Outcome::Busy(5),
        Outcome::Answered(10),
        // (64 turns of 1 inside)
        Outcome::Answered(81),
        Outcome::Answered(90),
    ];
    assert!(rt; outcomes == expected);
    Ok(())
}

// Returns the spare place that remains after 256 passes.
fn fill<R: Wait>(
    rt: &R,
    gate: &Gate<RunningTotal>,
    spare: Spare<RunningTotal>,
) -> Option<Spare<RunningTotal>>
    requires { IsSpareOf gate.now spare }
    ensures { IfSome result (IsSpareOf gate.now) }
{
    let mut spare = spare;
    for number in 0..256u64 {
        let (rest, one) = gate.split(spare);
        spare = rest;
        let Ok(pass) = gate.enrol(rt, one) else {
            return None;
        };
        if pass.number() != number {
            return None;
        }
    }
    Some(spare)
}

#[test]
fn the_257th_pass_is_refused(rt: HostRuntime) -> Result<(), Fail> {
    let (gate, spare) = open(rt.alloc(), RunningTotal::new(rt.alloc(), 100))?;
    let spare = fill(&rt, &gate, spare).ok_or("a pass too few")?;
    let Err((first, spare)) = gate.enrol(&rt, spare) else {
        return Err(Fail::from("a pass too many"));
    };
    let Err((second, spare)) = gate.enrol(&rt, gate.split(spare).0) else {
        return Err(Fail::from("a pass too many"));
    };
    drop(spare);
    drop(gate);
    assert!(rt; first == GateRefusal::Crowded && first.number() == 1203);
    assert!(rt; second == GateRefusal::Crowded);
    Ok(())
}

fn turn_again<R: Wait>(rt: &R, gate: &Gate<RunningTotal>, pass: &mut Pass<RunningTotal>) -> Outcome
    requires { IsPassOf gate.now pass.old }
    ensures { IsPassOf gate.now pass.new }
{
    match outcome_of(gate.take_turn(rt, pass, 4)) {
        Outcome::NoMemory(amount) => outcome_of(gate.take_turn(rt, pass, amount)),
        outcome => outcome,
    }
}

fn answers<R: Wait>(
    rt: &R,
    gate: Gate<RunningTotal>,
    spare: Spare<RunningTotal>,
) -> Result<bool, Fail>
    requires { IsSpareOf gate spare }
{
    let mut pass = enrol(rt, &gate, spare)?;
    let came = turn_again(rt, &gate, &mut pass);
    Ok(ends_with(gate.close(pass), &[(0, 4)]) && came == Outcome::Answered(4))
}

#[test]
fn without_memory_nothing_is_lost(rt: HostRuntime) -> Result<(), Fail> {
    let is_kept = match Gate::new(rt.alloc(), RunningTotal::new(rt.alloc(), 10)) {
        Ok((gate, spare)) => answers(&rt, gate, spare)?,
        Err((refusal, state)) => {
            ends_with(Some(state), &[])
                && refusal == GateRefusal::NoMemory
                && refusal.number() == 1204
        }
    };
    assert!(rt; is_kept);
    Ok(())
}

#[test]
fn one_pass_alone(rt: HostRuntime) -> Result<(), Fail> {
    // 0 + 1 + 2 + 3 + 4 is 10; 5 more pass the limit.
    let mut alone = Alone::new(RunningTotal::new(rt.alloc(), 14), 3);
    let answered = answered_turns(&rt, &mut alone, 9);
    let total = alone.state().total();
    let refused = outcome_of(alone.turn(&rt, 6));
    let state = alone.into_state();
    let steps = count_of(state.steps(), 3);
    drop(state);
    assert!(rt; (answered, total, steps) == (5, 10, 5));
    assert!(rt; refused == Outcome::PastLimit(6));
    Ok(())
}

fn says<D: Display>(alloc: Global, refusal: &D, text: &str) -> Result<bool, Fail> {
    let said = format!(in alloc; "{refusal}")?;
    Ok(said.as_str() == text)
}

#[test]
fn refusals_say_why(rt: HostRuntime) -> Result<(), Fail> {
    let busy: TurnRefusal<AdditionRefusal, u64> = TurnRefusal::Busy {
        served: 4,
        drawn: 6,
        event: 1,
    };
    let spent: TurnRefusal<AdditionRefusal, u64> = TurnRefusal::Spent { event: 1 };
    let state = TurnRefusal::State {
        cause: AdditionRefusal::PastLimit,
        event: 1u64,
    };
    let numbers = [busy.number(), spent.number(), state.number()];
    assert!(rt; numbers == [Some(1201), Some(1202), None]);
    let text = "the gate is busy: ticket 4 is served, and the next to be drawn is 6";
    assert!(rt; says(rt.alloc(), &busy, text)?);
    assert!(rt; says(rt.alloc(), &spent, "the gate has no ticket left")?);
    assert!(rt; says(rt.alloc(), &state, "the total would pass its limit")?);
    let text = "the gate has all of its 256 passes";
    assert!(rt; says(rt.alloc(), &GateRefusal::Crowded, text)?);
    let text = "there is no memory for the gate";
    assert!(rt; says(rt.alloc(), &GateRefusal::NoMemory, text)?);
    Ok(())
}
