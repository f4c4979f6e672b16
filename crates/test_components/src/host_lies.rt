//! Hosts that answer partly, too much, wrongly, late or never, over links that fail at any byte.

use crate::acts::{Act, Fault, Scene, play};
use crate::fake_devices::{Feed, Text};
use crate::journal::Deed;
use crate::rig::{Ends, Link, Peer, REPLY_MS, StepFailure};
use crate::texts::{FAILURE, GET, NOTHING, SET};
use proxy_core::{Kind, Trip};
use proxy_engines::{EngineError, Progress};
use std::sync::Wait;
use std::test::Fail;
use stub_server::Act as Serves;

// A host sends this part of a reply and ends. The part is lost.
fn check_half<Rt: Wait + AllocGlobal>(rt: &Rt, half: &'static [u8]) -> Result<(), Fault> {
    let says = [Act::HostSays(Feed::Whole(half))];
    let scene = Scene {
        before: &[],
        acts: &says,
        after: HALF,
    };
    play(rt, 1, scene)
}

const HALF: &[Act] = &[
    Act::Opens(Feed::Whole(GET), Ends::FREE),
    Act::Links(Link::TEXT),
    Act::Runs(3),
    Act::Took(Text::All(FAILURE)),
    Act::Lost(Kind::Dropped, 1, 3),
    Act::ClientFailed(None),
    Act::HostFailed(None),
];

fn check_halves<Rt: Wait + AllocGlobal>(rt: &Rt, reply: &'static [u8]) -> Result<(), Fault> {
    for len in 0..reply.len() {
        check_half(rt, reply.split_at(len).0)?;
    }
    Ok(())
}

#[test]
fn half_replies_are_lost(rt: HostRuntime) -> Result<(), Fail> {
    check_halves(&rt, b"$1\r\nx\r\n")?;
    Ok(())
}

// The first reply answers the request, and the second is one bad result. The fourth fault after it ejects the host.
const SECOND_REPLY: &[Act] = &[
    Act::Opens(Feed::Whole(SET), Ends::FREE),
    Act::HostSays(Feed::Open(b"+OK\r\n+OK\r\n")),
    Act::Links(Link::TEXT),
    Act::Runs(3),
    Act::Took(Text::All(b"+OK\r\n")),
    Act::Lost(Kind::Garbled, 0, 3),
    Act::Did(Deed::Answered, 1),
    Act::LinkRefused(1, Trip::None),
    Act::LinkRefused(2, Trip::None),
    Act::LinkRefused(3, Trip::None),
    Act::LinkRefused(4, Trip::Ejected),
];

#[test]
fn second_replies_end_the_link(rt: HostRuntime) -> Result<(), Fail> {
    play(&rt, 1, Scene::of(SECOND_REPLY))?;
    Ok(())
}

const GARBLED_REPLY: &[Act] = &[
    Act::Opens(Feed::Open(GET), Ends::FREE),
    Act::Links(Link {
        to: Peer::Stub(&[Serves::Garble]),
        reads: u64::MAX,
        writes: u64::MAX,
    }),
    Act::Runs(3),
    Act::Took(Text::All(FAILURE)),
    Act::Lost(Kind::Garbled, 1, 3),
    Act::Says(Feed::Whole(GET)),
    Act::Links(Link::STUB),
    Act::Runs(4),
    Act::Took(Text::All(b"-upstream failure\r\n$-1\r\n")),
    Act::Sent(1, 1),
    Act::AskedLater(Text::All(GET)),
];

#[test]
fn garbled_replies_end_the_link(rt: HostRuntime) -> Result<(), Fail> {
    play(&rt, 1, Scene::of(GARBLED_REPLY))?;
    Ok(())
}

const ZEROS: &[u8] = &[b'0'; 8_192];

const NINE: &[Act] = &[
    Act::Opens(Feed::Open(GET), Ends::FREE),
    Act::Links(Link::TEXT),
    Act::Runs(3),
    Act::HostSays(Feed::Open(b"*9\r\n")),
    Act::Runs(3),
];

// One bulk string of 1,040,384 bytes: 127 times 8,192.
const BULK: &[Act] = &[
    Act::HostSays(Feed::Then(b"$1040384\r\n", ZEROS, 127)),
    Act::Runs(3),
    Act::HostSays(Feed::Open(b"\r\n")),
    Act::Runs(3),
];

// The last one has 65,426 bytes. The reply then has 8,388,608, and goes out unchanged.
const GREATEST: &[Act] = &[
    Act::HostSays(Feed::Then(b"$65426\r\n", ZEROS, 7)),
    Act::Runs(3),
    Act::HostSays(Feed::Open(&[b'0'; 8_082])),
    Act::Runs(3),
    Act::HostSays(Feed::Open(b"\r\n")),
    Act::Runs(3),
    Act::Took(Text::Long(8_388_608, b"*9\r\n$1040384\r\n000", b"000\r\n")),
    Act::Did(Deed::Failed, 0),
];

// The last one has one byte more, and the reply is refused.
const TOO_LONG: &[Act] = &[
    Act::HostSays(Feed::Then(b"$65427\r\n", ZEROS, 7)),
    Act::Runs(3),
    Act::HostSays(Feed::Open(&[b'0'; 8_083])),
    Act::Runs(3),
    Act::HostSays(Feed::Open(b"\r\n")),
    Act::Runs(3),
    Act::Took(Text::All(FAILURE)),
    Act::Lost(Kind::Garbled, 1, 3),
];

const EIGHT_OF_NINE: &[&[Act]] = &[NINE, BULK, BULK, BULK, BULK, BULK, BULK, BULK, BULK];

// A reply of nine bulk strings, the last of which comes by these acts.
fn check_length<Rt: Wait + AllocGlobal>(rt: &Rt, last: &[Act]) -> Result<(), Fault> {
    let scene = Scene {
        before: EIGHT_OF_NINE,
        acts: last,
        after: &[],
    };
    play(rt, 1, scene)
}

#[test]
fn replies_have_a_greatest_length(rt: HostRuntime) -> Result<(), Fail> {
    check_length(&rt, GREATEST)?;
    check_length(&rt, TOO_LONG)?;
    Ok(())
}

// A part taken at the moment 10 is late at 5,010, and not earlier. That is one step.
const LATE_REPLY: &[Act] = &[
    Act::Opens(Feed::Open(GET), Ends::FREE),
    Act::Links(Link::TEXT),
    Act::Runs(10),
    Act::Recorded(3),
    Act::Runs(5_009),
    Act::Recorded(0),
    Act::HostSteps(5_010, Progress::Moved),
    Act::Lost(Kind::Late, 1, 5_010),
    Act::Recorded(1),
    Act::Runs(5_010),
    Act::Took(Text::All(FAILURE)),
];

#[test]
fn held_replies_are_late(rt: HostRuntime) -> Result<(), Fail> {
    play(&rt, 1, Scene::of(LATE_REPLY))?;
    Ok(())
}

// Of 1,025 commands for one host the last is held back. The others are lost and answered before it is sent over the
// next link.
const HELD_COMMAND: &[Act] = &[
    Act::Opens(Feed::Then(b"", GET, 1_025), Ends::FREE),
    Act::Links(Link::TEXT),
    Act::Runs(0),
    Act::Did(Deed::Arrived, 1_024),
    Act::Unread(0),
    Act::Sent(0, 1_024),
    Act::Asked(Text::Times(GET, 1_024, b"")),
    Act::Links(Link::STUB),
    Act::Runs(REPLY_MS),
    Act::Lost(Kind::Late, 1_024, REPLY_MS),
    Act::HandedBefore(1_024),
    Act::Took(Text::Times(FAILURE, 1_024, NOTHING)),
    Act::Sent(1, 1),
    Act::AskedLater(Text::All(GET)),
];

#[test]
fn held_commands_wait_for_room(rt: HostRuntime) -> Result<(), Fail> {
    play(&rt, 1, Scene::of(HELD_COMMAND))?;
    Ok(())
}

// Four parts of 87 bytes together; an empty stub's replies have 26.
const FOUR_PARTS: &[u8] =
    b"*3\r\n$3\r\nSET\r\n$1\r\na\r\n$1\r\n1\r\n*2\r\n$3\r\nGET\r\n$1\r\na\r\n*3\r\n$4\r\nMGET\r\n$1\r\na\r\n$1\r\na\r\n";

// The first of two links fails after this many bytes. Its error is returned once; each part is answered or lost, and
// sent at most once.
fn check_link<Rt: Wait + AllocGlobal>(
    rt: &Rt,
    (reads, writes): (u64, u64),
    (told, times): (Option<StepFailure>, usize),
) -> Result<(), Fault> {
    let to = Peer::Stub(&[]);
    let links = [
        Act::Opens(Feed::Whole(FOUR_PARTS), Ends::FREE),
        Act::Links(Link { to, reads, writes }),
        Act::Links(Link::STUB),
        Act::Runs(3),
        Act::HostFailed(told),
        Act::Did(Deed::Failed, times),
    ];
    let scene = Scene {
        before: &[],
        acts: &links,
        after: FOUR_ANSWERED,
    };
    play(rt, 1, scene)
}

const FOUR_ANSWERED: &[Act] = &[
    Act::Did(Deed::Handed, 3),
    Act::AnsweredOrLost(4),
    Act::WroteSent,
    Act::DidAtMost(Deed::Taken, 4),
];

const READ_FAILED: (Option<StepFailure>, usize) = (
    Some(StepFailure {
        error: EngineError::ReadFailed,
        deed: Some(Deed::Failed),
    }),
    1,
);

const WRITE_FAILED: (Option<StepFailure>, usize) = (
    Some(StepFailure {
        error: EngineError::WriteFailed,
        deed: Some(Deed::Failed),
    }),
    1,
);

fn check_links<Rt: Wait + AllocGlobal>(rt: &Rt) -> Result<(), Fault> {
    for reads in 0..27 {
        check_link(rt, (reads, u64::MAX), READ_FAILED)?;
    }
    for writes in 0..87 {
        check_link(rt, (u64::MAX, writes), WRITE_FAILED)?;
    }
    check_link(rt, (27, 87), (None, 0))
}

#[test]
fn failing_links_are_dropped_once(rt: HostRuntime) -> Result<(), Fail> {
    check_links(&rt)?;
    Ok(())
}

// A host asks for a link exactly when it has bytes to send and no link.
const ASKS_FOR_LINKS: &[Act] = &[
    Act::Opens(Feed::Open(b""), Ends::FREE),
    Act::Says(Feed::Open(b"*1\r\n$4\r\nPING\r\n")),
    Act::Runs(0),
    Act::HostSteps(0, Progress::Idle),
    Act::Says(Feed::Open(GET)),
    Act::Runs(0),
    Act::HostSteps(0, Progress::NeedsLink),
    Act::Runs(0),
    Act::HostSteps(0, Progress::NeedsLink),
    Act::Links(Link {
        to: Peer::Stub(&[Serves::Reply, Serves::Drop]),
        reads: u64::MAX,
        writes: u64::MAX,
    }),
    Act::Runs(0),
    Act::HostSteps(0, Progress::Idle),
    Act::Says(Feed::Open(GET)),
    Act::Runs(0),
    Act::HostSteps(0, Progress::Idle),
    Act::Did(Deed::Failed, 1),
    Act::Says(Feed::Open(GET)),
    Act::Runs(0),
    Act::HostSteps(0, Progress::NeedsLink),
    Act::Took(Text::All(b"+PONG\r\n$-1\r\n-upstream failure\r\n")),
];

#[test]
fn links_are_asked_for_where_bytes_wait(rt: HostRuntime) -> Result<(), Fail> {
    play(&rt, 1, Scene::of(ASKS_FOR_LINKS))?;
    Ok(())
}
