//! Clients before two stubs, each behind a socket.
use crate::rig::{anywhere, say, serve};
use mio::net::TcpListener;
use proxy_serve::Marks;
use std::alloc::Global;
use std::io::{Read, Write};
use std::net::{Net, SocketAddr, TcpStream};
use std::rt::Clock;
use std::sync::Wait;
use std::test::Fail;
use std::thread::{Threads, join};
use std::{io, net};
use stub_server::{Stub, StubLink};

// A host that serves one link until that ends. True: it was asked something.
fn host<R: AllocGlobal + Wait>(rt: &R, listener: &net::TcpListener) -> io::Result<bool> {
    let alloc = rt.alloc();
    let (stream, _) = listener.accept()?;
    let mut wire: &TcpStream = &stream;
    let Ok((mut replies, mut requests)) = StubLink::new(alloc, Stub::new(alloc)).ends(alloc) else {
        return Err(io::Error::from(io::ErrorKind::OutOfMemory));
    };
    let mut piece = [0u8; 4_096];
    let mut said = Vec::new(alloc);
    let mut was_asked = false;
    for _ in rt.forever() {
        let count = wire.read(&mut piece)?;
        if count == 0 {
            break;
        }
        was_asked = true;
        requests.write_all(&piece[..count])?;
        // (this ends when no reply waits)
        let _ = replies.read_to_end(&mut said);
        wire.write_all(&said)?;
        said.clear();
    }
    Ok(was_asked)
}

// True: both were asked.
fn host_both<R: AllocGlobal + Threads + Wait + Sync>(
    rt: &R,
    one: &net::TcpListener,
    other: &net::TcpListener,
) -> io::Result<bool> {
    let (first, second) = join(rt, || host(rt, one), || host(rt, other));
    Ok(first? && second?)
}

// True: it ended well. A connection at the end releases a host that wasn't asked.
fn serve_before<
    R: AllocGlobal
        + Threads
        + Wait
        + Net<Listener = net::TcpListener, Stream = TcpStream>
        + Clock
        + Eprint
        + Sync,
>(
    rt: &R,
    listener: TcpListener,
    [one, other]: [SocketAddr; 2],
    line: &mut Vec<u8>,
) -> io::Result<bool> {
    let mut settings = Vec::new(rt.alloc());
    settings.write_fmt(format_args!("{{\"hosts\":[\"{one}\",\"{other}\"],\"workers\":2}}"))?;
    let has_served = serve(rt, listener, &settings, (2, Marks::full()), line);
    drop(TcpStream::connect(rt, one)?);
    drop(TcpStream::connect(rt, other)?);
    Ok(has_served)
}

// The requests that SET 100 keys, each to its own value, and GET each, and the replies.
fn sets_and_gets(alloc: Global, first: u32) -> io::Result<(Vec<u8>, Vec<u8>)> {
    let (mut asked, mut wanted) = (Vec::new(alloc), Vec::new(alloc));
    for key in first..first.saturating_add(100) {
        let value = key.saturating_add(5_000);
        asked.write_fmt(format_args!("*3\r\n$3\r\nSET\r\n$4\r\n{key}\r\n$4\r\n{value}\r\n"))?;
        wanted.write_all(b"+OK\r\n")?;
    }
    for key in first..first.saturating_add(100) {
        let value = key.saturating_add(5_000);
        asked.write_fmt(format_args!("*2\r\n$3\r\nGET\r\n$4\r\n{key}\r\n"))?;
        wanted.write_fmt(format_args!("$4\r\n{value}\r\n"))?;
    }
    Ok((asked, wanted))
}

// True: it got exactly these replies.
fn set_and_get<R: Net<Listener = net::TcpListener, Stream = TcpStream> + AllocGlobal>(
    rt: &R,
    address: SocketAddr,
    first: u32,
) -> io::Result<bool> {
    let (asked, wanted) = sets_and_gets(rt.alloc(), first)?;
    Ok(say(rt, address, &asked)? == wanted)
}

// Two such clients before two hosts. Returns whether both were asked, the server ended well and each got its replies;
// and the last line.
fn play<
    R: AllocGlobal
        + Threads
        + Wait
        + Net<Listener = net::TcpListener, Stream = TcpStream>
        + Clock
        + Eprint
        + Sync,
>(rt: &R) -> Result<([bool; 4], Vec<u8>), Fail> {
    let one = net::TcpListener::bind(rt, anywhere())?;
    let other = net::TcpListener::bind(rt, anywhere())?;
    let hosts = [one.local_addr()?, other.local_addr()?];
    let listener = TcpListener::bind(rt, anywhere())?;
    let address = listener.local_addr()?;
    let mut line = Vec::new(rt.alloc());
    let (were_asked, (has_served, (first, second))) = join(
        rt,
        || host_both(rt, &one, &other),
        || {
            join(
                rt,
                || serve_before(rt, listener, hosts, &mut line),
                || {
                    join(
                        rt,
                        || set_and_get(rt, address, 1_000),
                        || set_and_get(rt, address, 2_000),
                    )
                },
            )
        },
    );
    Ok(([were_asked?, has_served?, first?, second?], line))
}

#[test]
fn two_clients_ask_two_hosts(rt: HostRuntime) -> Result<(), Fail> {
    let (are_well, line) = play(&rt)?;
    assert!(&rt; are_well.as_slice() == [true; 4].as_slice());
    let told = b"accepted 400 handed 400 sent 400 answered 400 lost 0 ejections 0\n";
    assert!(&rt; line.as_slice() == told.as_slice());
    Ok(())
}
