//! Clients whose readers and writers fail or stop, or that never read.

use crate::acts::{Act, Fault, STUBS, Scene, play};
use crate::fake_devices::{Feed, Text};
use crate::journal::Deed;
use crate::rig::{Ends, Link, StepFailure};
use crate::texts::{
    BOTH_ANSWERS, Exchange, GET, NOTHING, OTHER_ANSWERS, OTHER_KEYS, PINGS, SET_AND_MGET,
};
use proxy_core::Refusal;
use proxy_engines::{EngineError, Progress};
use std::sync::Wait;
use std::test::Fail;

const WRITE_FAILED: Option<StepFailure> = Some(StepFailure {
    error: EngineError::WriteFailed,
    deed: Some(Deed::Closed),
});

const READ_FAILED: Option<StepFailure> = Some(StepFailure {
    error: EngineError::ReadFailed,
    deed: Some(Deed::Closed),
});

const WRITER_CUT: &[Act] = &[
    Act::ClientFailed(WRITE_FAILED),
    Act::IsNumbered(EngineError::WriteFailed, 1403),
    Act::Did(Deed::Closed, 1),
    Act::Steps(Progress::Cut, 3),
];

// A client whose writer takes exactly `said`, and which is closed.
fn check_writer<Rt: Wait + AllocGlobal>(
    rt: &Rt,
    asked: &'static [u8],
    ends: Ends,
    said: &'static [u8],
) -> Result<(), Fault> {
    let visit = [
        Act::Opens(Feed::Whole(asked), ends),
        Act::Runs(0),
        Act::Took(Text::All(said)),
    ];
    let scene = Scene {
        before: STUBS,
        acts: &visit,
        after: WRITER_CUT,
    };
    play(rt, 3, scene)
}

// The writer fails after each number of bytes below `bytes`, with long and short writes.
fn check_writers<Rt: Wait + AllocGlobal>(
    rt: &Rt,
    (asked, answers): Exchange,
    bytes: usize,
) -> Result<(), Fault> {
    for len in 0..bytes.min(answers.len()) {
        for writing in [Ends::ALL, 1] {
            check_writer(
                rt,
                asked,
                Ends::writing(len, writing),
                answers.split_at(len).0,
            )?;
        }
    }
    Ok(())
}

fn check_all_writers<Rt: Wait + AllocGlobal>(rt: &Rt) -> Result<(), Fault> {
    check_writers(rt, PINGS, 14)?;
    check_writers(rt, SET_AND_MGET, 28)?;
    check_writer(rt, SET_AND_MGET.0, Ends::writing(1_000, 0), b"")
}

#[test]
fn failing_writers_cut(rt: HostRuntime) -> Result<(), Fail> {
    check_all_writers(&rt)?;
    Ok(())
}

const READER_CUT: &[Act] = &[
    Act::ClientFailed(READ_FAILED),
    Act::IsNumbered(EngineError::ReadFailed, 1402),
    Act::Did(Deed::Closed, 1),
    Act::Steps(Progress::Cut, 3),
];

// A client whose reader fails: `whole` commands were accepted, and the client took a beginning of `answers`.
fn check_reader<Rt: Wait + AllocGlobal>(
    rt: &Rt,
    asked: &'static [u8],
    ends: Ends,
    (whole, answers): (usize, &'static [u8]),
) -> Result<(), Fault> {
    let visit = [
        Act::Opens(Feed::Whole(asked), ends),
        Act::Runs(0),
        Act::Took(Text::BeginningOf(answers)),
        Act::Did(Deed::Arrived, whole),
    ];
    let scene = Scene {
        before: STUBS,
        acts: &visit,
        after: READER_CUT,
    };
    play(rt, 3, scene)
}

// The reader fails after each byte of the input, with long and short reads. `first` and `second` are the ends of each
// command and of its answer.
fn check_readers<Rt: Wait + AllocGlobal>(
    rt: &Rt,
    (asked, answers): Exchange,
    [first, second]: [(usize, usize); 2],
) -> Result<(), Fault> {
    for len in 0..=asked.len() {
        let (whole, said) = if len < first.0 {
            (0, 0)
        } else if len < second.0 {
            (1, first.1)
        } else {
            (2, second.1)
        };
        let answers = answers.split_at(said.min(answers.len())).0;
        check_reader(rt, asked, Ends::reading(len, Ends::ALL), (whole, answers))?;
        check_reader(rt, asked, Ends::reading(len, 1), (whole, answers))?;
    }
    Ok(())
}

fn check_all_readers<Rt: Wait + AllocGlobal>(rt: &Rt) -> Result<(), Fault> {
    check_readers(rt, PINGS, [(14, 7), (28, 14)])?;
    check_readers(rt, SET_AND_MGET, [(27, 5), (62, 28)])
}

#[test]
fn failing_readers_cut(rt: HostRuntime) -> Result<(), Fail> {
    check_all_readers(&rt)?;
    Ok(())
}

// Ends that fail after the last byte do no harm.
const PINGS_IN_TIME: &[Act] = &[
    Act::Opens(
        Feed::Whole(b"*1\r\n$4\r\nPING\r\n*1\r\n$4\r\nPING\r\n"),
        Ends {
            reads: 100,
            writes: 14,
            reading: Ends::ALL,
            writing: Ends::ALL,
        },
    ),
    Act::Runs(0),
    Act::Took(Text::All(b"+PONG\r\n+PONG\r\n")),
    Act::ClientFailed(None),
    Act::Steps(Progress::Ended, 2),
];

#[test]
fn ends_that_last_are_enough(rt: HostRuntime) -> Result<(), Fail> {
    play(&rt, 1, Scene::of(PINGS_IN_TIME))?;
    Ok(())
}

// The first of two clients is cut: its answers so far stay, its later events are refused, no host has a fault, and the
// other gets all answers.
fn check_beside<Rt: Wait + AllocGlobal>(rt: &Rt, ends: Ends) -> Result<(), Fault> {
    let opens = [Act::Opens(Feed::Whole(SET_AND_MGET.0), ends)];
    let scene = Scene {
        before: STUBS,
        acts: &opens,
        after: CUT_BESIDE,
    };
    play(rt, 3, scene)
}

const CUT_BESIDE: &[Act] = &[
    Act::Opens(Feed::Whole(OTHER_KEYS), SLOW),
    Act::Runs(0),
    Act::Steps(Progress::Cut, 3),
    Act::Took(Text::BeginningOf(BOTH_ANSWERS)),
    Act::SecondTook(Text::All(OTHER_ANSWERS)),
    Act::Did(Deed::Failed, 0),
    Act::IsRefused(Deed::Arrived, Refusal::NoSuchConnection),
    Act::IsRefused(Deed::Finished, Refusal::NoSuchConnection),
    Act::IsRefused(Deed::Handed, Refusal::NoSuchConnection),
    Act::IsRefused(Deed::Closed, Refusal::NoSuchConnection),
];

const SLOW: Ends = Ends {
    reads: u64::MAX,
    writes: u64::MAX,
    reading: 5,
    writing: 1,
};

fn check_all_beside<Rt: Wait + AllocGlobal>(rt: &Rt) -> Result<(), Fault> {
    for reads in 0..=SET_AND_MGET.0.len() {
        check_beside(rt, Ends::reading(reads, 3))?;
    }
    for writes in 0..SET_AND_MGET.1.len() {
        check_beside(rt, Ends::writing(writes, 2))?;
    }
    Ok(())
}

#[test]
fn cut_clients_leave_others(rt: HostRuntime) -> Result<(), Fail> {
    check_all_beside(&rt)?;
    Ok(())
}

// A client asks 1,030 times and takes nothing: 1,024 are accepted, and no more is read till it takes bytes.
const NEVER_READS: &[Act] = &[
    Act::IsShut(true),
    Act::Opens(Feed::Then(b"", GET, 1_030), Ends::FREE),
    Act::Runs(0),
    Act::Did(Deed::Arrived, 1_024),
    Act::Unread(5),
    Act::Took(Text::All(b"")),
    Act::Links(Link::STUB),
    Act::Runs(0),
    Act::Did(Deed::Arrived, 1_024),
    Act::Unread(5),
    Act::Took(Text::All(b"")),
    Act::Did(Deed::Answered, 1_024),
    Act::Steps(Progress::Idle, 50),
    Act::IsShut(false),
    Act::Runs(0),
    Act::Took(Text::Times(NOTHING, 1_030, b"")),
    Act::ClientFailed(None),
    Act::HostFailed(None),
];

#[test]
fn clients_that_never_read_stop_all(rt: HostRuntime) -> Result<(), Fail> {
    play(&rt, 1, Scene::of(NEVER_READS))?;
    Ok(())
}
