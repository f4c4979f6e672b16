//! Journals that keep their newest step alone, beside those that keep all.
ghost use Rattle.std.specs.Prelude.{◌≡◌, [], IfOk};

use crate::core_at_gate::core;
use crate::next_replies::{MOVES, event};
use journal_core::{Journal, JournalError, Step};
use ketama::Ring;
use limits::MAX_STEPS;
use proxy_core::{Answer, Core, CountingCore, Event, Settings};
use std::alloc::Global;
use std::test::Fail;

pub(crate) fn counting_core(alloc: Global) -> Result<CountingCore, Fail>
    ensures { IfOk result (λ core. core.steps ≡ []) }
{
    let ring = Ring::of_points(alloc, 1, &[(1000, 0)])?;
    Ok(CountingCore::new(alloc, ring, Settings::default())?)
}

fn answer_alike(whole: &mut Core, counting: &mut CountingCore, one: Event, other: Event) -> bool {
    match (whole.turn(0, one), counting.turn(0, other)) {
        (Ok(first), Ok(second)) => first == second,
        (Err(first), Err(second)) => first.cause == second.cause,
        _ => false,
    }
}

fn are_same(one: Option<&Step<Event, Answer>>, other: Option<&Step<Event, Answer>>) -> bool {
    match (one, other) {
        (Some(one), Some(other)) => one.pass == other.pass && one.answer == other.answer,
        _ => false,
    }
}

// The counting journal keeps its newest step alone.
fn are_alike(whole: &Core, counting: &CountingCore) -> bool {
    let (one, other) = (whole.journal(), counting.journal());
    let newest = other.len().saturating_sub(1);
    one.len() == other.len()
        && one.bytes() == other.bytes()
        && are_same(one.last(), other.last())
        && are_same(one.last(), other.get(newest))
        && (newest == 0 || other.get(newest - 1).is_none())
        && one.records()
        && !other.records()
}

#[test]
fn a_counting_core_goes_as_one_that_keeps_all(rt: HostRuntime) -> Result<(), Fail> {
    let mut whole = core(rt.alloc())?;
    let mut counting = counting_core(rt.alloc())?;
    for (place, (it, _)) in MOVES.iter().enumerate() {
        let (one, other) = (event(rt.alloc(), *it)?, event(rt.alloc(), *it)?);
        if !answer_alike(&mut whole, &mut counting, one, other) || !are_alike(&whole, &counting) {
            return Err(place.into());
        }
    }
    drop(whole);
    drop(counting);
    Ok(())
}

fn add(journal: &mut Journal<u64, u8>, event: u64) -> Result<(), JournalError> {
    journal.room(1)?;
    journal.add(
        Step {
            pass: 0,
            event,
            answer: 0,
        },
        1,
    );
    Ok(())
}

#[test]
fn a_counting_journal_is_full_as_one_that_keeps_all(rt: HostRuntime) -> Result<(), Fail> {
    let mut journal = Journal::counting();
    for event in 0..MAX_STEPS as u64 {
        add(&mut journal, event)?;
    }
    assert_eq!(rt; add(&mut journal, 0), Err(JournalError::JournalFull));
    assert_eq!(rt; journal.len(), MAX_STEPS);
    assert_eq!(rt; journal.bytes(), MAX_STEPS as u64);
    let newest = Step {
        pass: 0,
        event: MAX_STEPS as u64 - 1,
        answer: 0,
    };
    assert_eq!(rt; journal.last(), Some(&newest));
    assert_eq!(rt; journal.get(MAX_STEPS - 1), Some(&newest));
    assert_eq!(rt; journal.get(0), None);
    Ok(())
}
