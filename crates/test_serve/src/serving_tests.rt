//! Generations of few steps, and of a full journal.
use crate::rig::{PING, PONG, anywhere, say, serve};
use mio::net::TcpListener;
use proxy_serve::Marks;
use std::alloc::Global;
use std::io::{Read, Write};
use std::net::{Net, SocketAddr, TcpStream};
use std::rt::Clock;
use std::sync::Wait;
use std::test::Fail;
use std::thread::{Threads, join};
use std::{io, net};

const SETTINGS: &[u8] = b"{\"hosts\":[\"127.0.0.1:1\"],\"workers\":2}";

// Reads this many bytes. False: it ended before.
fn hears(mut wire: &TcpStream, bytes: usize) -> bool {
    let mut piece = [0u8; 4_096];
    let mut got = 0usize;
    for _ in 0..bytes {
        if got >= bytes {
            break;
        }
        match wire.read(&mut piece) {
            Ok(0) | Err(_) => return false,
            Ok(count) => got = got.saturating_add(count),
        }
    }
    true
}

// A client that asks `times` times, each time after an answer of this length. Returns the number of answers.
fn ask<R: Net<Listener = net::TcpListener, Stream = TcpStream> + AllocGlobal>(
    rt: &R,
    address: SocketAddr,
    (asked, answer): (&[u8], usize),
    times: u32,
) -> io::Result<u32> {
    let stream = TcpStream::connect(rt, address)?;
    let mut wire: &TcpStream = &stream;
    for time in 0..times {
        if wire.write_all(asked).is_err() || !hears(&stream, answer) {
            return Ok(time);
        }
    }
    Ok(times)
}

// Clients, one after another, each of which asks at most this many times.
fn ask_each<R: Net<Listener = net::TcpListener, Stream = TcpStream> + AllocGlobal>(
    rt: &R,
    address: SocketAddr,
    exchange: (&[u8], usize),
    times: &[u32],
) -> io::Result<Vec<u32>> {
    let mut all = Vec::new(rt.alloc());
    for most in times {
        all.push(ask(rt, address, exchange, *most)?)?;
    }
    Ok(all)
}

// Serves two lists of clients side by side. Returns each number of answers, and the last line.
fn run<
    R: AllocGlobal
        + Threads
        + Wait
        + Net<Listener = net::TcpListener, Stream = TcpStream>
        + Clock
        + Eprint
        + Sync,
>(
    rt: &R,
    marks: Marks,
    exchange: (&[u8], usize),
    (times, beside): (&[u32], &[u32]),
) -> Result<(Vec<u32>, Vec<u8>), Fail> {
    let listener = TcpListener::bind(rt, anywhere())?;
    let address = listener.local_addr()?;
    let connections = times.len().saturating_add(beside.len());
    let mut line = Vec::new(rt.alloc());
    let (has_served, (answered, others)) = join(
        rt,
        || serve(rt, listener, SETTINGS, (connections, marks), &mut line),
        || {
            join(
                rt,
                || ask_each(rt, address, exchange, times),
                || ask_each(rt, address, exchange, beside),
            )
        },
    );
    if !has_served {
        return Err("it ends with an error".into());
    }
    let mut all = answered?;
    all.extend_from_slice(others?.as_slice())?;
    Ok((all, line))
}

// The accepted commands of the last line, if as many were handed out and no host was asked.
fn handed(line: &[u8]) -> Option<u32> {
    let mut words = std::str::from_utf8(line).ok()?.split(' ');
    let accepted = words.nth(1)?;
    let is_told = words.nth(1)? == accepted
        && line.ends_with(b"sent 0 answered 0 lost 0 ejections 0\n");
    if is_told {
        accepted.parse::<u32>().ok()
    } else {
        None
    }
}

const FEW: Marks = Marks {
    steps: 100,
    bytes: 58_720_256,
};

// A client asks this many times. Long before, its socket goes on in the next generation.
const TIMES: u32 = 2_000;

fn sum(counts: &[u32]) -> u32 {
    let mut all = 0u32;
    for count in counts {
        all = all.saturating_add(*count);
    }
    all
}

#[test]
fn many_generations_answer_each_command(rt: HostRuntime) -> Result<(), Fail> {
    let (answered, line) = run(&rt, FEW, (PING, PONG.len()), (&[TIMES; 12], &[]))?;
    assert!(&rt; sum(answered.as_slice()) == 12 * TIMES);
    assert!(&rt; handed(line.as_slice()) == Some(12 * TIMES));
    Ok(())
}

fn pings(alloc: Global, times: usize) -> Result<Vec<u8>, Fail> {
    let mut all = Vec::new(alloc);
    for _ in 0..times {
        all.extend_from_slice(PING)?;
    }
    Ok(all)
}

// Two pipelining clients at a time: each socket goes on over many generations.
#[test]
fn pipelining_clients_go_on(rt: HostRuntime) -> Result<(), Fail> {
    let asked = pings(rt.alloc(), 10)?;
    let exchange = (asked.as_slice(), 10 * PONG.len());
    let (answered, line) = run(&rt, FEW, exchange, (&[TIMES; 4], &[TIMES; 4]))?;
    assert!(&rt; sum(answered.as_slice()) == 8 * TIMES);
    assert!(&rt; handed(line.as_slice()) == Some(80 * TIMES));
    Ok(())
}

// Without marks a generation accepts what 262,144 steps are for: four a connection, two a PING. The rest goes over.
#[test]
fn full_journal_is_followed_by_another(rt: HostRuntime) -> Result<(), Fail> {
    let marks = Marks {
        steps: u64::MAX,
        bytes: u64::MAX,
    };
    let asked = pings(rt.alloc(), 1_000)?;
    let exchange = (asked.as_slice(), 1_000 * PONG.len());
    let (answered, line) = run(&rt, marks, exchange, (&[300, 10], &[]))?;
    assert!(&rt; answered.as_slice() == [300, 10].as_slice());
    assert!(&rt; handed(line.as_slice()) == Some(310_000));
    Ok(())
}

#[test]
fn three_clients_get_twenty_each(rt: HostRuntime) -> Result<(), Fail> {
    let (answered, line) = run(&rt, FEW, (PING, PONG.len()), (&[20, 20], &[20]))?;
    assert!(&rt; answered.as_slice() == [20, 20, 20].as_slice());
    assert!(&rt; handed(line.as_slice()) == Some(60));
    Ok(())
}

// Serves one connection, whose client closes its sending half.
fn close_half<
    R: AllocGlobal
        + Threads
        + Wait
        + Net<Listener = net::TcpListener, Stream = TcpStream>
        + Clock
        + Eprint
        + Sync,
>(rt: &R, asked: &[u8]) -> Result<(Vec<u8>, Vec<u8>), Fail> {
    let listener = TcpListener::bind(rt, anywhere())?;
    let address = listener.local_addr()?;
    let mut line = Vec::new(rt.alloc());
    let (has_served, got) = join(
        rt,
        || serve(rt, listener, SETTINGS, (1, Marks::full()), &mut line),
        || say(rt, address, asked),
    );
    if !has_served {
        return Err("it ends with an error".into());
    }
    Ok((got?, line))
}

#[test]
fn one_that_closes_half_is_answered(rt: HostRuntime) -> Result<(), Fail> {
    let (got, line) = close_half(&rt, PING)?;
    assert!(&rt; got.as_slice() == PONG);
    let told = b"accepted 1 handed 1 sent 0 answered 0 lost 0 ejections 0\n";
    assert!(&rt; line.as_slice() == told.as_slice());
    Ok(())
}
