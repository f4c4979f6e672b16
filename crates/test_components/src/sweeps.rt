//! Sweeps, one at a time, on a core that one pass has for itself.
use crate::core_at_gate::{core, swept_at};
use proxy_core::{Core, Event, Kind};
use std::sync::Wait;
use std::test::Fail;
use sweeper::{Pace, SweepRefusal, Swept, sweep_once};
use ticket_gate::{Alone, Turns};

// All links fail at the moment 0. False: a turn was refused.
fn fail_links<R: Wait>(rt: &R, turns: &mut Alone<Core>, times: u64) -> bool {
    for epoch in 0..times {
        let failed = Event::Failed {
            host: 0,
            epoch,
            kind: Kind::Refused,
            t: 0,
        };
        let outcome = turns.turn(rt, failed);
        let is_refused = outcome.is_err();
        // (one call: an inline drop of an answer is proved field by field)
        drop(outcome);
        if is_refused {
            return false;
        }
    }
    true
}

#[test]
fn a_sweep_returns_the_host_at_its_time(rt: HostRuntime) -> Result<(), Fail> {
    let mut turns = Alone::new(core(rt.alloc())?, 3);
    let have_failed = fail_links(&rt, &mut turns, 5);
    let swept = [
        sweep_once(&rt, &mut turns, 29_999),
        sweep_once(&rt, &mut turns, 30_000),
    ];
    let core = turns.into_state();
    let end = (core.journal().len(), last_sweep(&core));
    drop(core);
    let none = Swept {
        returned: 0,
        ejected: 0,
        kept: 0,
    };
    let one = Swept {
        returned: 1,
        ..none
    };
    assert!(rt; have_failed && swept == [Ok(none), Ok(one)]);
    assert!(rt; end == (7, Some((3, 30_000))));
    Ok(())
}

// `None`: the newest step is no sweep.
fn last_sweep(core: &Core) -> Option<(u64, u64)> {
    let journal = core.journal();
    let last = journal.get(journal.len().saturating_sub(1))?;
    Some((last.pass, swept_at(&last.event)?))
}

#[test]
fn sweeps_keep_their_pace(rt: HostRuntime) -> Result<(), Fail> {
    let pace = Pace {
        interval_ms: 10_000,
    };
    assert!(rt; pace.due(5, 10_005) && pace.due(5, 10_006));
    assert!(rt; !pace.due(5, 10_004) && !pace.due(5, 5) && !pace.due(5, 4));
    assert!(rt; SweepRefusal::JournalFull.number() == 1002);
    Ok(())
}
