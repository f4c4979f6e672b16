//! The link of a host: where it leads, and how it stands with its stream.
ghost use Rattle.std.specs.Prelude.{◌≡◌, Some, IfSome};

use crate::round::HostRound;
use crate::socket::SharedStream;
use fresh_stream::{Connected, FreshStream};
use limits::CONNECTING_MS;
use mio::Token;
use std::marker::Model;
use std::mem;
use std::net::{Net, SocketAddr};

#[derive(Drop)]
pub(crate) enum LinkState {
    Down,
    /// Connecting since this moment; `has_event`: the poll has reported an event.
    Connecting {
        stream: FreshStream,
        since: u64,
        has_event: bool,
    },
    /// The engine has its two halves.
    Up(SharedStream),
}

/// A link that leads to one address, which contracts see.
pub(crate) struct HostLink {
    address: SocketAddr,
    token: Token,
    // A connect is given up after this many milliseconds.
    reply_ms: u64,
    state: LinkState,
}

impl Drop for HostLink {
    fn drop(self) {
        let HostLink {
            address: _,
            token: _,
            reply_ms: _,
            state: _,
        } = self;
    }
}

impl Model for HostLink {
    ghost use Rattle.std.specs.declared.net.socket_addr.SocketAddr.{SocketAddr};
    ghost use Rattle.proxy_connections.specs.Links.{LeadsTo};

    ghost Value = { SocketAddr };

    ghost view = { λ l. l.address };

    ghost invariant = { λ l. LeadsTo l.address l.state };
}

impl HostLink {
    pub(crate) fn new(address: SocketAddr, token: Token, reply_ms: u64) -> HostLink
        ensures { result ≡ address }
    {
        HostLink {
            address,
            token,
            reply_ms,
            state: LinkState::Down,
        }
    }

    pub(crate) fn address(&self) -> SocketAddr
        ensures { result ≡ self.now }
    {
        self.address
    }

    pub(crate) fn state(&self) -> &LinkState {
        &self.state
    }

    /// Whether it has been connecting for less than `CONNECTING_MS`.
    pub(crate) fn is_connecting(&self, now: u64) -> bool {
        match &self.state {
            LinkState::Connecting { since, .. } => now.saturating_sub(*since) < CONNECTING_MS,
            LinkState::Down | LinkState::Up(_) => false,
        }
    }

    /// Records that the poll reported an event.
    pub(crate) fn on_readiness(&mut self)
        ensures { self.new ≡ self.old }
    {
        if let LinkState::Connecting { has_event, .. } = &mut self.state {
            *has_event = true;
        }
    }

    /// Gives up its stream.
    pub(crate) fn cut(&mut self)
        ensures { self.new ≡ self.old }
    {
        drop(mem::replace(&mut self.state, LinkState::Down));
    }

    /// Gives up a connect.
    pub(crate) fn abandon_connecting(&mut self)
        ensures { self.new ≡ self.old }
    {
        if matches!(self.state, LinkState::Connecting { .. }) {
            self.cut();
        }
    }

    /// Keeps the stream of the halves that the engine has.
    pub(crate) fn keep(&mut self, stream: SharedStream)
        requires { stream ≡ Some self.old }
        ensures { self.new ≡ self.old }
    {
        drop(mem::replace(&mut self.state, LinkState::Up(stream)));
    }

    /// Takes the stream that was connecting. `None`: there is none, and it stays as it is.
    pub(crate) fn take_connecting(&mut self) -> Option<FreshStream>
        ensures stream { IfSome result (λ s. s ≡ Some self.old) }
        ensures same { self.new ≡ self.old }
    {
        match mem::replace(&mut self.state, LinkState::Down) {
            LinkState::Connecting { stream, .. } => Some(stream),
            other => {
                drop(mem::replace(&mut self.state, other));
                None
            }
        }
    }

    /// Begins to connect, or asks what has become of it.
    pub(crate) fn connect<R: Net>(&mut self, rt: &R, round: HostRound<'_>) -> Connected
        ensures { self.new ≡ self.old }
    {
        if let LinkState::Connecting {
            stream,
            since,
            has_event,
        } = &mut self.state
        {
            let is_overdue = round.now.saturating_sub(*since) >= self.reply_ms;
            let found = if mem::replace(has_event, false) {
                stream.connected()
            } else {
                Connected::Pending
            };
            return match found {
                Connected::Pending if is_overdue => Connected::Refused,
                other => other,
            };
        }
        match FreshStream::connect(rt, self.address) {
            Ok(stream) => self.begin_connecting(stream, round),
            Err(_) => Connected::Refused,
        }
    }

    fn begin_connecting(&mut self, mut stream: FreshStream, round: HostRound<'_>) -> Connected
        requires { stream ≡ Some self.old }
        ensures { self.new ≡ self.old }
    {
        if stream.register(round.registry, self.token).is_err() {
            return Connected::Refused;
        }
        drop(mem::replace(
            &mut self.state,
            LinkState::Connecting {
                stream,
                since: round.now,
                has_event: false,
            },
        ));
        Connected::Pending
    }
}
