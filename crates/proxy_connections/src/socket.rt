//! The socket of a client or a host: its two halves for an engine, and the stream that they share.
ghost use Rattle.std.specs.Prelude.{◌≡◌, IfOk};
ghost use Rattle.proxy_engines.specs.Keeps.{no_logs};
ghost use Rattle.proxy_connections.specs.Sockets.{logs_of};
ghost use Rattle.socket_halves.specs.SocketWriter.{passed_of};
ghost use Rattle.socket_halves.specs.WriteBuffer.{accepted};

use fresh_stream::{FreshStream, UsedStream};
use mio::event::Event;
use mio::net::TcpStream;
use mio::unix::SourceFd;
use mio::{Interest, Registry, Token};
use open_sockets::Traffic;
use socket_halves::{SocketReader, SocketWriter};
use std::alloc::{AllocError, Global};
use std::io;
use std::io::{Read, Write};
use std::marker::Model;
use std::net::Shutdown;
use std::os::fd::AsRawFd;
use std::sync::Arc;

pub(crate) type Reader = SocketReader<SharedStream>;

pub(crate) type Writer = SocketWriter<SharedStream>;

/// A stream, which both halves of its socket and their owner hold. Contracts see the address that it was to be connected to;
/// an accepted one has none.
#[derive(Drop)]
pub(crate) struct SharedStream {
    stream: Arc<UsedStream>,
    traffic: Arc<Traffic>,
}

impl Model for SharedStream {
    ghost use Rattle.std.specs.Prelude.{Option};
    ghost use Rattle.std.specs.declared.net.socket_addr.SocketAddr.{SocketAddr};

    ghost Value = { Option SocketAddr };

    ghost view = { λ s. s.stream.value };
}

impl SharedStream {
    fn new(
        alloc: Global,
        stream: FreshStream,
        traffic: &Arc<Traffic>,
    ) -> Result<SharedStream, AllocError>
        ensures { IfOk result (λ s. s ≡ stream) }
    {
        let Ok(traffic) = Arc::try_clone(traffic) else {
            return Err(AllocError);
        };
        match Arc::new(alloc, stream.into_used()) {
            Ok(stream) => Ok(SharedStream { stream, traffic }),
            Err(_) => Err(AllocError),
        }
    }

    fn share(&self) -> Result<SharedStream, AllocError>
        ensures { IfOk result (λ s. s ≡ self.now) }
    {
        let Ok(traffic) = Arc::try_clone(&self.traffic) else {
            return Err(AllocError);
        };
        match Arc::try_clone(&self.stream) {
            Ok(stream) => Ok(SharedStream { stream, traffic }),
            Err(_) => Err(AllocError),
        }
    }

    fn stream(&self) -> &TcpStream {
        self.stream.stream()
    }

    pub(crate) fn register(&self, registry: &Registry, token: Token) -> io::Result<()> {
        let fd = self.stream().as_raw_fd();
        registry.register(
            &mut SourceFd(&fd),
            token,
            Interest::READABLE | Interest::WRITABLE,
        )
    }

    pub(crate) fn deregister(&self, registry: &Registry) {
        let fd = self.stream().as_raw_fd();
        let _ = registry.deregister(&mut SourceFd(&fd));
    }

    pub(crate) fn shut_write(&self) {
        let _ = self.stream().shutdown(Shutdown::Write);
    }
}

impl Read for SharedStream {
    fn read(&mut self, buffer: &mut [u8]) -> io::Result<usize> {
        let mut stream = self.stream();
        let count = stream.read(buffer)?;
        self.traffic.count_read(count);
        Ok(count)
    }
}

impl Write for SharedStream {
    fn write(&mut self, bytes: &[u8]) -> io::Result<usize> {
        let mut stream = self.stream();
        let count = stream.write(bytes)?;
        self.traffic.count_written(count);
        Ok(count)
    }

    fn flush(&mut self) -> io::Result<()> {
        Ok(())
    }
}

#[derive(Drop)]
pub(crate) struct Socket {
    pub(crate) stream: SharedStream,
    pub(crate) reader: Reader,
    pub(crate) writer: Writer,
}

impl Socket {
    /// Nothing was read or written. What it moves is counted in this traffic.
    pub(crate) fn new(
        alloc: Global,
        stream: FreshStream,
        traffic: &Arc<Traffic>,
    ) -> Result<Socket, AllocError>
        ensures logs { IfOk result (λ s. logs_of s.reader s.writer ≡ no_logs) }
        ensures stream { IfOk result (λ s. s.stream ≡ stream) }
    {
        let stream = SharedStream::new(alloc, stream, traffic)?;
        let reader = SocketReader::new(stream.share()?);
        let writer = SocketWriter::new(alloc, stream.share()?);
        Ok(Socket {
            stream,
            reader,
            writer,
        })
    }
}

pub(crate) fn note_readable(reader: &mut Reader, event: &Event)
    ensures logs { reader.new.end.delivered ≡ reader.old.end.delivered }
    ensures counts { reader.new.counts ≡ reader.old.counts }
{
    if event.is_readable() || event.is_read_closed() || event.is_error() {
        reader.set_readable();
    }
    if event.is_read_closed() || event.is_error() {
        reader.set_closed();
    }
}

pub(crate) fn note_writable(writer: &mut Writer, event: &Event)
    ensures logs { accepted writer.new.output ≡ accepted writer.old.output }
    ensures passed { passed_of writer.new.output ≡ passed_of writer.old.output }
    ensures counts { writer.new.counts ≡ writer.old.counts }
{
    if event.is_writable() || event.is_write_closed() || event.is_error() {
        writer.set_writable();
    }
}
