//! What turns tell workers: each hears of its own hosts and clients, once.

use proxy_notices::{MAX_KEYS, MAX_WORDS, Notices, ReadyWord};
use std::alloc::Global;
use std::rt::Clock;
use std::sync::Wait;
use std::test::Fail;
use std::thread;
use std::thread::Threads;
use std::time::Duration;

// A taker gives up after this many looks.
const MAX_LOOKS: u32 = 10_000_000;

// A taker sleeps for a millisecond whenever it has made this many looks.
const LOOKS: u32 = 1_000;

// What is told, and what a worker takes or asks, with the answer that is due.
#[derive(Clone, Copy)]
enum Act {
    Adds {
        conn: u64,
        worker: usize,
        key: usize,
    },
    Removes {
        conn: u64,
        worker: usize,
        key: usize,
    },
    Replies(u64),
    Parts(usize),
    Presses(usize),
    // The worker takes whether replies may have come to any client.
    TakesAll(usize, bool),
    // The worker takes the word of this index with these bits.
    TakesWord(usize, Option<(usize, u64)>),
    // The worker takes the hosts for which parts came.
    TakesHosts(usize, u64),
    Concerns(usize, bool),
    // The hosts that are pressed.
    Pressed(u64),
    // Whether any of these is the worker's.
    HasPressed(usize, bool),
    // The worker has seen these hosts. `any`: a pressed one of its own is among them.
    Sees {
        worker: usize,
        hosts: u64,
        any: bool,
    },
}

const TOLD_ONCE: &[Act] = &[
    Act::Adds {
        conn: 7,
        worker: 1,
        key: 70,
    },
    Act::Concerns(1, false),
    Act::Replies(7),
    Act::Replies(7),
    Act::Concerns(1, true),
    Act::Concerns(0, false),
    Act::Concerns(2, false),
    Act::TakesWord(1, Some((1, 1 << 6))),
    Act::TakesWord(1, None),
    Act::TakesAll(1, false),
    Act::Concerns(1, false),
];

const SHARED_SLOT: &[Act] = &[
    Act::Adds {
        conn: 5,
        worker: 0,
        key: 1,
    },
    Act::Adds {
        conn: 5 + MAX_KEYS as u64,
        worker: 1,
        key: 2,
    },
    Act::Replies(5),
    Act::TakesAll(0, true),
    Act::TakesAll(1, true),
    Act::TakesAll(0, false),
    Act::Concerns(1, false),
    // The slot doesn't become free: it is still another's.
    Act::Removes {
        conn: 5,
        worker: 0,
        key: 1,
    },
    Act::Replies(5 + MAX_KEYS as u64),
    Act::TakesAll(1, true),
];

const FREE_SLOT: &[Act] = &[
    Act::Adds {
        conn: 5,
        worker: 0,
        key: 1,
    },
    Act::Removes {
        conn: 5,
        worker: 0,
        key: 1,
    },
    Act::Adds {
        conn: 5 + MAX_KEYS as u64,
        worker: 1,
        key: 64,
    },
    Act::Replies(5 + MAX_KEYS as u64),
    Act::Concerns(0, false),
    Act::TakesWord(1, Some((1, 1))),
];

const WITHOUT_CODE: &[Act] = &[
    Act::Adds {
        conn: 1,
        worker: 0,
        key: MAX_KEYS,
    },
    Act::Replies(1),
    Act::TakesAll(0, true),
    Act::TakesAll(1, true),
    Act::Replies(2),
    Act::TakesAll(0, true),
    Act::TakesAll(1, true),
    Act::Adds {
        conn: 3,
        worker: 9,
        key: 1,
    },
    Act::Replies(3),
    Act::TakesAll(0, true),
    Act::TakesAll(1, true),
];

const HOSTS_OF_WORKERS: &[Act] = &[
    Act::Parts(0),
    Act::Parts(4),
    Act::Parts(5),
    Act::Parts(63),
    Act::TakesHosts(0, 1 | 1 << 63),
    Act::TakesHosts(1, 1 << 4),
    Act::TakesHosts(2, 1 << 5),
    Act::TakesHosts(0, 0),
];

const HELD_BACK: &[Act] = &[
    Act::Presses(4),
    Act::Presses(5),
    Act::Pressed(1 << 4 | 1 << 5),
    Act::HasPressed(1, true),
    Act::HasPressed(2, true),
    Act::HasPressed(0, false),
    Act::Sees {
        worker: 0,
        hosts: u64::MAX,
        any: false,
    },
    Act::Pressed(1 << 4 | 1 << 5),
    Act::Sees {
        worker: 1,
        hosts: u64::MAX,
        any: true,
    },
    Act::Sees {
        worker: 1,
        hosts: u64::MAX,
        any: false,
    },
    Act::Pressed(1 << 5),
    // A host that was pressed after the worker looked stays so.
    Act::Sees {
        worker: 2,
        hosts: 1 << 4,
        any: false,
    },
    Act::Pressed(1 << 5),
];

fn is_right(notices: &Notices, act: Act) -> bool {
    match act {
        Act::Adds { conn, worker, key } => notices.add_client(conn, worker, key),
        Act::Removes { conn, worker, key } => notices.remove_client(conn, worker, key),
        Act::Replies(conn) => notices.reply_came(conn),
        Act::Parts(host) => notices.parts_came(host),
        Act::Presses(host) => notices.press(host),
        Act::TakesAll(worker, due) => return notices.take_all(worker) == due,
        Act::TakesWord(worker, due) => {
            let due = due.map(|(index, bits)| ReadyWord { index, bits });
            return notices.take_word(worker) == due;
        }
        Act::TakesHosts(worker, due) => return notices.take_hosts(worker) == due,
        Act::Concerns(worker, due) => return notices.concern(worker) == due,
        Act::Pressed(due) => return notices.pressed() == due,
        Act::HasPressed(worker, due) => {
            return notices.has_any_of(worker, notices.pressed()) == due;
        }
        Act::Sees { worker, hosts, any } => return notices.mark_seen(worker, hosts) == any,
    }
    true
}

fn play(alloc: Global, workers: usize, acts: &[Act]) -> Result<(), Fail> {
    let notices = Notices::new(alloc, workers)?;
    for (place, act) in acts.iter().enumerate() {
        if !is_right(&notices, *act) {
            return Err(place.into());
        }
    }
    Ok(())
}

#[test]
fn a_reply_is_told_to_its_client_alone_and_once(rt: HostRuntime) -> Result<(), Fail> {
    play(rt.alloc(), 3, TOLD_ONCE)
}

#[test]
fn connections_that_share_a_slot_are_told_to_all(rt: HostRuntime) -> Result<(), Fail> {
    play(rt.alloc(), 2, SHARED_SLOT)
}

#[test]
fn a_slot_is_free_once_its_client_is_gone(rt: HostRuntime) -> Result<(), Fail> {
    play(rt.alloc(), 2, FREE_SLOT)
}

#[test]
fn a_key_or_connection_without_a_code_is_told_to_all(rt: HostRuntime) -> Result<(), Fail> {
    play(rt.alloc(), 2, WITHOUT_CODE)
}

#[test]
fn parts_are_told_to_the_worker_of_their_host(rt: HostRuntime) -> Result<(), Fail> {
    play(rt.alloc(), 3, HOSTS_OF_WORKERS)
}

#[test]
fn clients_are_held_back_until_the_host_s_own_worker_has_looked(
    rt: HostRuntime,
) -> Result<(), Fail> {
    play(rt.alloc(), 3, HELD_BACK)
}

// False: it gave up before each key was taken.
fn takes_all_keys<R: Wait + Clock>(rt: &R, notices: &Notices) -> bool {
    let mut missing = MAX_KEYS as u32;
    for look in 0..MAX_LOOKS {
        if missing == 0 {
            return true;
        }
        match notices.take_word(0) {
            Some(word) if word.index < MAX_WORDS => {
                missing = missing.saturating_sub(word.bits.count_ones());
            }
            _ if look % LOOKS == 0 => thread::sleep(rt, Duration::from_millis(1)),
            _ => thread::yield_now(),
        }
    }
    false
}

// A word can still be marked whose keys were taken before it was.
fn are_all_taken(notices: &Notices) -> bool {
    for _ in 0..=MAX_WORDS {
        match notices.take_word(0) {
            Some(word) if word.bits == 0 => {}
            left => return left.is_none(),
        }
    }
    false
}

// One thread tells of replies for all keys while another takes them.
fn are_taken_beside<R: Threads + Wait + Clock + Sync>(rt: &R, notices: &Notices) -> bool {
    let ((), takes_all) = thread::join(
        rt,
        || {
            for conn in 0..MAX_KEYS {
                notices.reply_came(conn as u64);
            }
        },
        || takes_all_keys(rt, notices),
    );
    takes_all && are_all_taken(notices)
}

#[test]
fn no_reply_is_lost_between_two_threads(rt: HostRuntime) -> Result<(), Fail> {
    let notices = Notices::new(rt.alloc(), 1)?;
    for key in 0..MAX_KEYS {
        notices.add_client(key as u64, 0, key);
    }
    for time in 0..20usize {
        if !are_taken_beside(&rt, &notices) {
            return Err(time.into());
        }
    }
    Ok(())
}
