//! Turns refused for want of a ticket, and made again.

use crate::acts::{Act, Fault, STUBS, Scene, record};
use crate::fake_devices::{Feed, Text};
use crate::journal::go_alike;
use crate::rig::Ends;
use crate::texts::{BOTH_ANSWERS, EXCHANGES, Exchange, SET_AND_MGET};
use crate::turns::Ration;
use proxy_core::Core;
use proxy_engines::{Denied, EngineError, Progress};
use std::sync::Wait;
use std::test::Fail;

const SPENT: EngineError = EngineError::TurnRefused(Denied::Spent);

const PIECES: Ends = Ends {
    reads: u64::MAX,
    writes: u64::MAX,
    reading: 20,
    writing: Ends::ALL,
};

// One client before three stubs. Each refused step is made again, the client gets all answers, and only refused turns
// return errors. Returns the core at the end.
fn run<Rt: Wait + AllocGlobal>(
    rt: &Rt,
    (text, answers): Exchange,
    ration: Ration,
) -> Result<Core, Fault> {
    let visit = [
        Act::Opens(Feed::Whole(text), PIECES),
        Act::Runs(0),
        Act::Took(Text::All(answers)),
    ];
    let scene = Scene {
        before: STUBS,
        acts: &visit,
        after: ENDED,
    };
    record(rt, 3, ration, scene)
}

const ENDED: &[Act] = &[Act::Steps(Progress::Ended, 1), Act::OnlyTold(SPENT)];

fn check_alike<Rt: Wait + AllocGlobal>(
    rt: &Rt,
    exchange: Exchange,
    whole: &Core,
    ration: Ration,
) -> Result<(), Fault> {
    let core = run(rt, exchange, ration)?;
    let is_alike = go_alike(&core, whole);
    drop(core);
    if is_alike {
        Ok(())
    } else {
        Err(Fault::OTHERWISE)
    }
}

fn check_refused<Rt: Wait + AllocGlobal>(
    rt: &Rt,
    exchange: Exchange,
    whole: &Core,
) -> Result<(), Fault> {
    for turn in 2..90 {
        check_alike(rt, exchange, whole, Ration::without(turn, 1))?;
        check_alike(rt, exchange, whole, Ration::without(turn, 6))?;
    }
    Ok(())
}

fn check_exchange<Rt: Wait + AllocGlobal>(rt: &Rt, exchange: Exchange) -> Result<(), Fault> {
    let whole = run(rt, exchange, Ration::FREE)?;
    let checked = check_refused(rt, exchange, &whole);
    drop(whole);
    checked
}

// Refuses one turn, and six in a row, from each turn on. All steps are those of a run without a refusal.
#[test]
fn refused_turns_are_made_again(rt: HostRuntime) -> Result<(), Fail> {
    for exchange in EXCHANGES {
        check_exchange(&rt, *exchange)?;
    }
    Ok(())
}

// The first client's bytes, by the number of replies handed out.
const HANDED: &[&[u8]] = &[b"", b"+OK\r\n", BOTH_ANSWERS];

// All turns from this one on are refused: the journal stays, and only handed replies are written.
fn check_stopped<Rt: Wait + AllocGlobal>(rt: &Rt, turn: u64) -> Result<(), Fault> {
    let opens = if turn > 1 {
        Act::Opens(Feed::Whole(SET_AND_MGET.0), PIECES)
    } else {
        Act::CannotOpen(SPENT)
    };
    let visit = [
        opens,
        Act::Runs(0),
        Act::TookHanded(HANDED),
        Act::RecordedBelow(turn as usize),
    ];
    let scene = Scene {
        before: STUBS,
        acts: &visit,
        after: &[],
    };
    match record(rt, 3, Ration::without(turn, u64::MAX), scene) {
        Ok(core) => Ok(drop(core)),
        Err(fault) => Err(fault),
    }
}

#[test]
fn refused_turns_let_nothing_out(rt: HostRuntime) -> Result<(), Fail> {
    for turn in 1..12 {
        check_stopped(&rt, turn)?;
    }
    Ok(())
}
