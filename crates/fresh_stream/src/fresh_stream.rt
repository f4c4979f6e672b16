ghost use Rattle.std.specs.Prelude.{◌≡◌, None, Some, IfOk};

use mio::net::{TcpListener, TcpStream};
use mio::{Interest, Registry, Token};
use std::io;
use std::marker::Model;
use std::net::{Net, SocketAddr};
use std::snapshot::Snapshot;

/// What became of a connect.
#[derive(Clone, Copy, Debug, PartialEq, Eq, Drop)]
pub enum Connected {
    /// It isn't decided yet.
    Pending,
    /// It failed.
    Refused,
    /// The stream has its peer.
    Established,
}

/// A stream of which no byte was read, and to which none was written. Contracts see the address that it was to be connected
/// to; an accepted one has none.
#[derive(Drop)]
pub struct FreshStream {
    stream: TcpStream,
    // The address that it was to be connected to.
    peer: Snapshot<Option<SocketAddr>>,
}

impl Model for FreshStream {
    ghost use Rattle.std.specs.Prelude.{Option};
    ghost use Rattle.std.specs.declared.net.socket_addr.SocketAddr.{SocketAddr};

    ghost Value = { Option SocketAddr };

    ghost view = { λ s. s.peer.value };
}

impl FreshStream {
    /// Begins to connect to the address, and returns at once; `connected` tells what became of it. The system's error, if it
    /// refuses at once.
    pub fn connect<R: Net>(rt: &R, address: SocketAddr) -> io::Result<FreshStream>
        ensures { IfOk result (λ s. s ≡ Some address) }
    {
        let peer = Snapshot::of(&Some(address));
        let stream = TcpStream::connect(rt, address)?;
        Ok(FreshStream { stream, peer })
    }

    /// The next connection of the listener; the system's error where there is none.
    pub fn accept(listener: &TcpListener) -> io::Result<FreshStream>
        ensures { IfOk result (λ s. s ≡ None) }
    {
        let peer = Snapshot::of(&None);
        let (stream, _) = listener.accept()?;
        Ok(FreshStream { stream, peer })
    }

    /// Has a poll report under this token when it may be read or written, and has small writes sent at once. The system's
    /// error, if it refuses.
    pub fn register(&mut self, registry: &Registry, token: Token) -> io::Result<()>
        ensures { self.new ≡ self.old }
    {
        let _ = self.stream.set_nodelay(true);
        let interests = Interest::READABLE | Interest::WRITABLE;
        registry.register(&mut self.stream, token, interests)
    }

    /// What has become of its connect, once the poll has reported it.
    pub fn connected(&self) -> Connected {
        match self.stream.take_error() {
            Ok(None) if self.stream.peer_addr().is_ok() => Connected::Established,
            Ok(None) => Connected::Pending,
            Ok(Some(_)) | Err(_) => Connected::Refused,
        }
    }

    /// The stream, to be read and written.
    pub fn into_used(self) -> UsedStream
        ensures { result ≡ self }
    {
        let FreshStream { stream, peer } = self;
        UsedStream { stream, peer }
    }
}

/// A stream that was fresh, and is read and written. Contracts see the same of it.
#[derive(Drop)]
pub struct UsedStream {
    stream: TcpStream,
    peer: Snapshot<Option<SocketAddr>>,
}

impl Model for UsedStream {
    ghost use Rattle.std.specs.Prelude.{Option};
    ghost use Rattle.std.specs.declared.net.socket_addr.SocketAddr.{SocketAddr};

    ghost Value = { Option SocketAddr };

    ghost view = { λ s. s.peer.value };
}

impl UsedStream {
    /// The stream itself.
    pub fn stream(&self) -> &TcpStream {
        &self.stream
    }
}
