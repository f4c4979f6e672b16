//! Whose reply comes next from a host, and which connections have a reply to hand out.

use crate::core_at_gate::core;
use bytes::Bytes;
use proxy_core::{Core, Event, Kind, Request};
use resp_core::{Payload, Value, Values};
use std::alloc::Global;
use std::test::Fail;

// What happens: to a connection by its number, or to the only host.
#[derive(Clone, Copy)]
pub(crate) enum Move {
    Opens,
    Gets(u64),
    Pings(u64),
    IsSent,
    IsAnswered,
    Fails,
    Hands(u64),
    Closes(u64),
}

// The connection of the host's next reply, and which of the connections 0, 1 and 2 are ready.
pub(crate) type Told = (Option<u64>, [bool; 3]);

const NONE: [bool; 3] = [false; 3];

pub(crate) const MOVES: &[(Move, Told)] = &[
    (Move::Opens, (None, NONE)),
    (Move::Opens, (None, NONE)),
    // What waits doesn't fly.
    (Move::Gets(1), (None, NONE)),
    (Move::Gets(0), (None, NONE)),
    // The proxy answers this one itself, but it isn't the oldest.
    (Move::Pings(0), (None, NONE)),
    (Move::IsSent, (Some(1), NONE)),
    (Move::IsSent, (Some(1), NONE)),
    (Move::IsAnswered, (Some(0), [false, true, false])),
    (Move::Hands(1), (Some(0), NONE)),
    (Move::Pings(1), (Some(0), [false, true, false])),
    (Move::Closes(1), (Some(0), NONE)),
    (Move::Opens, (Some(0), NONE)),
    (Move::Gets(2), (Some(0), NONE)),
    (Move::IsSent, (Some(0), NONE)),
    // The reply to a closed connection is still to come, and is for nobody.
    (Move::Closes(0), (None, NONE)),
    (Move::IsAnswered, (Some(2), NONE)),
    // A fault answers what flies.
    (Move::Fails, (None, [false, false, true])),
    (Move::Hands(2), (None, NONE)),
];

fn request(alloc: Global, words: &[&[u8]]) -> Result<Request, Fail> {
    let mut members = Vec::new(alloc);
    for word in words {
        members.push(Value::Bulk(Payload::new(Bytes::copy_from_slice(alloc, word)?)))?;
    }
    Ok(Request::Read(Value::List(Values(members))))
}

pub(crate) fn event(alloc: Global, it: Move) -> Result<Event, Fail> {
    let (host, epoch, t) = (0, 0, 0);
    Ok(match it {
        Move::Opens => Event::Opened,
        Move::Gets(conn) => Event::Arrived {
            conn,
            request: request(alloc, &[b"GET", b"a"])?,
        },
        Move::Pings(conn) => Event::Arrived {
            conn,
            request: request(alloc, &[b"PING"])?,
        },
        Move::IsSent => Event::Taken { host },
        Move::IsAnswered => Event::Answered {
            host,
            epoch,
            value: Value::NullBulk,
            t,
        },
        Move::Fails => Event::Failed {
            host,
            epoch,
            kind: Kind::Dropped,
            t,
        },
        Move::Hands(conn) => Event::Handed { conn },
        Move::Closes(conn) => Event::Closed { conn },
    })
}

fn accepts(core: &mut Core, event: Event) -> bool {
    let turned = core.turn(0, event);
    let is_accepted = turned.is_ok();
    drop(turned);
    is_accepted
}

fn told(core: &Core) -> Told {
    let last = core.hosts() - 1;
    let are_ready = [core.is_ready(0), core.is_ready(1), core.is_ready(2)];
    (core.next_owner(last), are_ready)
}

#[test]
fn next_replies_are_told(rt: HostRuntime) -> Result<(), Fail> {
    let mut core = core(rt.alloc())?;
    for (place, (it, expected)) in MOVES.iter().enumerate() {
        let event = event(rt.alloc(), *it)?;
        if !accepts(&mut core, event) || told(&core) != *expected {
            return Err(place.into());
        }
    }
    drop(core);
    Ok(())
}
