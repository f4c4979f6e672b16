//! A server with all its ends in one process.
use mio::net::TcpListener;
use proxy_config::Config;
use proxy_serve::{Marks, serve_run};
use std::io::{Read, Write};
use std::net::{Ipv4Addr, Net, Shutdown, SocketAddr, TcpStream};
use std::rt::Clock;
use std::sync::Wait;
use std::thread::Threads;
use std::{io, net};

pub(crate) const PING: &[u8] = b"*1\r\n$4\r\nPING\r\n";

pub(crate) const PONG: &[u8] = b"+PONG\r\n";

/// A free port of the loopback.
pub(crate) fn anywhere() -> SocketAddr {
    SocketAddr::from((Ipv4Addr::LOCALHOST, 0))
}

/// Serves this many connections by these settings. True: it ended well.
pub(crate) fn serve<
    R: AllocGlobal
        + Threads
        + Wait
        + Net<Listener = net::TcpListener, Stream = TcpStream>
        + Clock
        + Eprint
        + Sync,
>(
    rt: &R,
    listener: TcpListener,
    settings: &[u8],
    (connections, marks): (usize, Marks),
    line: &mut Vec<u8>,
) -> bool {
    let alloc = rt.alloc();
    match Config::read(alloc, settings) {
        Ok(config) => {
            serve_run(rt, alloc, listener, config, connections as u64, marks, line).is_ok()
        }
        Err(_) => false,
    }
}

/// A client that sends a text, closes its sending half, and reads to the end. Returns what came.
pub(crate) fn say<R: Net<Listener = net::TcpListener, Stream = TcpStream> + AllocGlobal>(
    rt: &R,
    address: SocketAddr,
    asked: &[u8],
) -> io::Result<Vec<u8>> {
    let stream = TcpStream::connect(rt, address)?;
    let mut wire: &TcpStream = &stream;
    wire.write_all(asked)?;
    stream.shutdown(Shutdown::Write)?;
    let mut got = Vec::new(rt.alloc());
    wire.read_to_end(&mut got)?;
    Ok(got)
}
