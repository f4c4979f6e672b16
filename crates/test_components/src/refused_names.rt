//! The names of refused commands, as a core that counts keeps them.

use crate::counting_journals::counting_core;
use proxy_core::{Event, Request};
use proxy_notices::Notices;
use proxy_stats::{MAX_REFUSED_NAMES, RefusedNames, TalliedCore};
use resp_core::{Limits, Reader};
use std::alloc::Global;
use std::sync::Arc;
use std::test::Fail;
use ticket_gate::Recorded;

const SHOWN: &[(&[u8], &[u8])] = &[
    (b"SELECT", b"select"),
    (b"sElEcT", b"select"),
    (b"json.get", b"json.get"),
    (b"A-_|.9", b"a-_|.9"),
    (
        b"ABCDEFGHIJKLMNOPQRSTUVWXYZ012345",
        b"abcdefghijklmnopqrstuvwxyz012345",
    ),
];

const HIDDEN: &[&[u8]] = &[
    b"",
    b"sel ect",
    b"\"",
    b"select\0",
    b"\xc3\xa9",
    b"abcdefghijklmnopqrstuvwxyz0123456",
];

fn counted(alloc: Global) -> Result<TalliedCore, Fail> {
    let notices = Arc::new(alloc, Notices::new(alloc, 1)?)?;
    let mut counted = TalliedCore::new(alloc, counting_core(alloc)?, notices)?;
    drop(Recorded::turn(&mut counted, 0, Event::Opened));
    Ok(counted)
}

fn push_length(text: &mut Vec<u8>, len: usize) -> Result<(), Fail> {
    text.push(b'$')?;
    text.push(b'0' + (len / 10 % 10) as u8)?;
    text.push(b'0' + (len % 10) as u8)?;
    Ok(text.extend_from_slice(b"\r\n")?)
}

// With a zero before its length a short name isn't in its one spelling.
fn text_of(alloc: Global, name: &[u8]) -> Result<Vec<u8>, Fail> {
    let mut text = Vec::new(alloc);
    text.extend_from_slice(b"*1\r\n")?;
    push_length(&mut text, name.len())?;
    text.extend_from_slice(name)?;
    text.extend_from_slice(b"\r\n")?;
    Ok(text)
}

fn request(alloc: Global, name: &[u8]) -> Result<Request, Fail> {
    let mut reader = Reader::new(alloc, Limits::CLIENT);
    if reader.feed(text_of(alloc, name)?.as_slice()).is_err() {
        return Err("refused".into());
    }
    if let Some(command) = reader.next_spelled()? {
        return Ok(Request::Spelled(command));
    }
    match reader.next_value() {
        Ok(Some(value)) => Ok(Request::Read(value)),
        _ => Err("no value".into()),
    }
}

fn arrives(alloc: Global, counted: &mut TalliedCore, name: &[u8]) -> Result<(), Fail> {
    let request = request(alloc, name)?;
    let event = Event::Arrived { conn: 0, request };
    drop(Recorded::turn(counted, 0, event));
    Ok(())
}

fn count_of(names: &RefusedNames, name: &[u8]) -> u64 {
    for place in &names.places {
        if !place.is_free() && place.name() == name {
            return place.count;
        }
    }
    0
}

fn places_in(names: &RefusedNames) -> usize {
    let mut taken = 0;
    for place in &names.places {
        if !place.is_free() && taken < MAX_REFUSED_NAMES {
            taken += 1;
        }
    }
    taken
}

#[test]
fn names_are_told_in_lower_case(rt: HostRuntime) -> Result<(), Fail> {
    let mut counted = counted(rt.alloc())?;
    for (name, _) in SHOWN {
        arrives(rt.alloc(), &mut counted, name)?;
    }
    for name in HIDDEN {
        arrives(rt.alloc(), &mut counted, name)?;
    }
    arrives(rt.alloc(), &mut counted, b"PING")?;
    let names = *counted.refused_names();
    drop(counted);
    for (place, (_, told)) in SHOWN.iter().enumerate() {
        if count_of(&names, told) != if place < 2 { 2 } else { 1 } {
            return Err(place.into());
        }
    }
    assert_eq!(rt; places_in(&names), SHOWN.len() - 1);
    assert_eq!(rt; names.others, HIDDEN.len() as u64);
    Ok(())
}

// The 31 places left are taken, and the next name frees them again.
#[test]
fn many_names_leave_one_that_comes_often(rt: HostRuntime) -> Result<(), Fail> {
    let mut counted = counted(rt.alloc())?;
    for _ in 0..3 {
        arrives(rt.alloc(), &mut counted, b"select")?;
    }
    for i in 0..40u8 {
        arrives(
            rt.alloc(),
            &mut counted,
            &[b'x', b'0' + i / 10, b'0' + i % 10],
        )?;
    }
    let names = *counted.refused_names();
    drop(counted);
    assert_eq!(rt; count_of(&names, b"select"), 3);
    assert_eq!(rt; count_of(&names, b"x00"), 0);
    assert_eq!(rt; count_of(&names, b"x39"), 1);
    assert_eq!(rt; places_in(&names), 9);
    assert_eq!(rt; names.others, 32);
    Ok(())
}

fn noted(names: &[&[u8]]) -> RefusedNames {
    let mut noted = RefusedNames::NONE;
    for name in names {
        noted.note(name);
    }
    noted
}

#[test]
fn a_sum_has_the_names_of_both(rt: HostRuntime) -> Result<(), Fail> {
    let one = noted(&[b"select", b"multi", b"\0"]);
    let other = noted(&[b"MULTI", b"multi", b"exec", b"a b"]);
    let sum = one.plus(&other);
    assert_eq!(rt; count_of(&sum, b"select"), 1);
    assert_eq!(rt; count_of(&sum, b"multi"), 3);
    assert_eq!(rt; count_of(&sum, b"exec"), 1);
    assert_eq!(rt; sum.others, 2);
    Ok(())
}

#[test]
fn a_sum_keeps_the_names_that_came_more(rt: HostRuntime) -> Result<(), Fail> {
    let mut one = RefusedNames::NONE;
    for i in 0..MAX_REFUSED_NAMES as u8 {
        one.note(&[b'a' + i / 16, b'a' + i % 16]);
    }
    let sum = one.plus(&noted(&[b"select", b"select", b"exec"]));
    assert_eq!(rt; count_of(&sum, b"select"), 2);
    assert_eq!(rt; count_of(&sum, b"exec"), 0);
    assert_eq!(rt; places_in(&sum), MAX_REFUSED_NAMES);
    assert_eq!(rt; sum.others, 2);
    Ok(())
}
