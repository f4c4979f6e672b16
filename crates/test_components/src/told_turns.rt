//! What the turns of a core that counts tell its workers.

use crate::counting_journals::counting_core;
use crate::next_replies::{Move, event};
use limits::MAX_UNSEEN;
use proxy_core::Event;
use proxy_notices::{Notices, ReadyWord};
use proxy_stats::TalliedCore;
use std::alloc::Global;
use std::sync::Arc;
use std::test::Fail;
use ticket_gate::Recorded;

// Connection 0's client is worker 1's, connection 1's is worker 0's.
const KEYS: [usize; 2] = [3, 69];

// What the two workers hear of a turn. The only host is worker 0's.
#[derive(Clone, Copy, PartialEq, Eq)]
enum Heard {
    Nothing,
    // Worker 0 hears that parts wait.
    Parts,
    // The connection's worker hears that its client is ready.
    Reply(usize),
    // Both hear that any client may be ready.
    Replies,
    Other,
}

const MOVES: &[(Move, Heard)] = &[
    (Move::Opens, Heard::Nothing),
    (Move::Opens, Heard::Nothing),
    (Move::Gets(1), Heard::Parts),
    // Parts waited already.
    (Move::Gets(0), Heard::Nothing),
    (Move::Gets(0), Heard::Nothing),
    (Move::IsSent, Heard::Nothing),
    (Move::IsSent, Heard::Nothing),
    (Move::IsAnswered, Heard::Reply(1)),
    (Move::Hands(1), Heard::Nothing),
    (Move::IsAnswered, Heard::Reply(0)),
    (Move::IsSent, Heard::Nothing),
    // The queue was empty before.
    (Move::Gets(1), Heard::Parts),
    // The client that asked sees its own reply.
    (Move::Pings(1), Heard::Nothing),
    (Move::IsSent, Heard::Nothing),
    (Move::Closes(0), Heard::Nothing),
    // A reply to nobody.
    (Move::IsAnswered, Heard::Nothing),
    (Move::Gets(0), Heard::Nothing),
    (Move::Gets(1), Heard::Parts),
    (Move::Fails, Heard::Replies),
    // The fault emptied the queue.
    (Move::Gets(1), Heard::Parts),
    (Move::Fails, Heard::Nothing),
];

// One host and two workers.
fn counted(alloc: Global) -> Result<(TalliedCore, Arc<Notices>), Fail> {
    let notices = Arc::new(alloc, Notices::new(alloc, 2)?)?;
    notices.add_client(0, 1, KEYS[0]);
    notices.add_client(1, 0, KEYS[1]);
    let counted = TalliedCore::new(alloc, counting_core(alloc)?, notices.clone()?)?;
    Ok((counted, notices))
}

fn turn(counted: &mut TalliedCore, event: Event) {
    drop(Recorded::turn(counted, 0, event));
}

fn word_of(conn: usize) -> Option<ReadyWord> {
    let key = *KEYS.get(conn)?;
    Some(ReadyWord {
        index: key / 64,
        bits: 1 << (key % 64),
    })
}

fn take_news(notices: &Notices) -> Heard {
    let hosts = [notices.take_hosts(0), notices.take_hosts(1)];
    let all = [notices.take_all(0), notices.take_all(1)];
    let words = [notices.take_word(0), notices.take_word(1)];
    match (hosts, all, words) {
        ([0, 0], [false, false], [None, None]) => Heard::Nothing,
        ([1, 0], [false, false], [None, None]) => Heard::Parts,
        ([0, 0], [true, true], [None, None]) => Heard::Replies,
        ([0, 0], [false, false], words) if words == [None, word_of(0)] => Heard::Reply(0),
        ([0, 0], [false, false], words) if words == [word_of(1), None] => Heard::Reply(1),
        _ => Heard::Other,
    }
}

#[test]
fn turns_tell_whom_they_concern(rt: HostRuntime) -> Result<(), Fail> {
    let (mut counted, notices) = counted(rt.alloc())?;
    for (place, (it, expected)) in MOVES.iter().enumerate() {
        let event = event(rt.alloc(), *it)?;
        turn(&mut counted, event);
        if take_news(&notices) != *expected {
            return Err(place.into());
        }
    }
    drop(counted);
    Ok(())
}

// The hosts that are pressed after connection 0 asked this many times.
fn pressed_after(
    alloc: Global,
    counted: &mut TalliedCore,
    notices: &Notices,
    times: u64,
) -> Result<u64, Fail> {
    for _ in 0..times {
        let event = event(alloc, Move::Gets(0))?;
        turn(counted, event);
    }
    Ok(notices.pressed())
}

// The hosts that are pressed.
#[derive(Clone, Copy, PartialEq, Eq, Drop)]
struct Pressed {
    // At one part before the worker has too many unseen.
    before: u64,
    // At that part.
    at: u64,
    until_seen: bool,
}

const PRESSED: Pressed = Pressed {
    before: 0,
    at: 1,
    until_seen: true,
};

// The client of connection 0 asks until the only host is pressed, and its worker looks.
fn pressed_once(
    alloc: Global,
    counted: &mut TalliedCore,
    notices: &Notices,
) -> Result<Pressed, Fail> {
    let before = pressed_after(alloc, counted, notices, MAX_UNSEEN - 1)?;
    let at = pressed_after(alloc, counted, notices, 1)?;
    let until_seen = notices.mark_seen(0, at);
    Ok(Pressed {
        before,
        at,
        until_seen,
    })
}

#[test]
fn a_host_is_pressed_by_parts_that_its_worker_has_not_seen(rt: HostRuntime) -> Result<(), Fail> {
    let alloc = rt.alloc();
    let (mut counted, notices) = counted(alloc)?;
    turn(&mut counted, Event::Opened);
    let first = pressed_once(alloc, &mut counted, &notices)?;
    let second = pressed_once(alloc, &mut counted, &notices)?;
    pressed_after(alloc, &mut counted, &notices, MAX_UNSEEN - 1)?;
    // The worker takes a part, which shows that it looks.
    turn(&mut counted, Event::Taken { host: 0 });
    let after = pressed_after(alloc, &mut counted, &notices, 1)?;
    drop(counted);
    drop(notices);
    assert!(rt; [first, second] == [PRESSED; 2]);
    assert!(rt; after == 0);
    Ok(())
}
