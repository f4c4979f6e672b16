//! The clients and hosts of a worker, and the turns by which these are stepped.
ghost use Rattle.std.specs.Bool.{OnTrue};
ghost use Rattle.std.specs.Prelude.{◌≡◌, ◌↔◌, ◌<◌, ◌+◌, [], IfOk, IfSome, IsTrue, None, OnOk, length, map};
ghost use Rattle.slab.specs.Slab.{HasRoomFor};
ghost use Rattle.proxy_notices.specs.Places.{hosts_of};
ghost use Rattle.proxy_connections.specs.WorkerConnections.{AddsClient, ChangesClient, ChangesHost, HasFailed, HasIdle, HasNewClient, IsMostStalled, IsNewcomer, KeepsClients, LetsGo, MakesRoom, MayCarry, MayClose, NoneIsStalled, RemovesClient, RiseTo, ServesHosts, number_of, steps_of};

use crate::client_connection::{
    CarriedSocket, ClientConnection, ClientRound, Lent, NewSocket, Opening, Stepped,
};
use crate::host_connection::{HostConnection, HostStepped, HostTime};
use crate::host_link::HostLink;
use crate::round::{HostRound, Round};
use crate::stalled;
use crate::stalled::Stalled;
use crate::step_error::StepError;
use close_behind::CloseBehind;
use journal_budget::StepKind;
use journal_room::{JournalRoom, MeteredTurns, OpenConnection};
use mio::event::Event;
use mio::{Registry, Token};
use open_sockets::{AdmittedStream, WorkerTraffic};
use proxy_config::Config;
use proxy_exit_status::Ending;
use proxy_histogram::{Histogram, Unanswered};
use proxy_notices::{MAX_WORDS, Notices, Place};
use proxy_serve_core::ReadyClients;
use proxy_stats::TalliedCore;
use slab::Slab;
use std::alloc::Global;
use std::marker::Model;
use std::mem;
use std::net::{Net, SocketAddr};
use std::sync::{Arc, Wait};
use ticket_gate::Seated;

/// Tokens from here on are hosts. The token of a client is its key.
pub const HOSTS: usize = 1 << 32;

/// What came of a client's round.
#[derive(Clone, Copy, Drop)]
pub struct ClientResult {
    /// What the round came to, or why it failed.
    pub stepped: Result<Stepped, StepError>,
    /// Whether its connection was closed in it, which is to be counted.
    pub has_closed: bool,
}

/// What came of a host's round.
#[derive(Clone, Copy, Drop)]
pub struct HostResult {
    /// What the round came to, or why it failed.
    pub stepped: Result<HostStepped, StepError>,
    /// The host's address.
    pub address: SocketAddr,
    /// Whether more can be done at once.
    pub may_go: bool,
}

/// What a worker's connections are made with.
#[derive(Clone, Copy)]
pub struct ConnectionSetup<'a> {
    /// Where their memory comes from.
    pub alloc: Global,
    /// The settings.
    pub config: &'a Config,
    /// What their sockets move is counted here.
    pub traffic: &'a WorkerTraffic,
}

/// The clients and hosts of a worker.
///
/// At all times each client's engine has done just what its socket's logs show, and each host's what its link's show,
/// over the steps of this seat. None of these is of a host of another worker. A client goes only by `remove` and `carry`.
pub struct WorkerConnections<'a> {
    alloc: Global,
    turns: MeteredTurns<Seated<'a, TalliedCore>>,
    place: Place,
    config: &'a Config,
    behind: &'a CloseBehind,
    clients: Slab<ClientConnection>,
    ready: ReadyClients,
    hosts: Vec<HostConnection>,
    // Bit h: parts came for host h since its last round.
    stirred: u64,
    lent: Lent,
    traffic: &'a WorkerTraffic,
}

impl Drop for WorkerConnections<'_> {
    fn drop(self) {
        let WorkerConnections {
            alloc: _,
            turns: _,
            place: _,
            config: _,
            behind: _,
            clients: _,
            ready: _,
            hosts: _,
            stirred: _,
            lent: _,
            traffic: _,
        } = self;
    }
}

impl<'a> Model for WorkerConnections<'a> {
    ghost use Rattle.proxy_connections.specs.WorkerConnections.{WorkerConnectionsState, IsServing, steps_of};

    ghost Value = { WorkerConnectionsState };

    ghost use Rattle.proxy_connections.specs.contracts.client_connection.ClientConnection as client;
    ghost use Rattle.proxy_connections.specs.contracts.host_connection.HostConnection as host_connection;
    ghost use Rattle.slab.specs.Slab.{slab_code};
    ghost use Rattle.std.specs.Coded.{codes};
    ghost use Rattle.resp_core.specs.Code.{tree_code};

    ghost coded = { Prim.hlevel (codes, tree_code, slab_code, client.the_row.coded, host_connection.the_row.coded) };

    ghost view = { λ c. record {
      place = c.place;
      settings = c.config.now.hosts.items;
      clients = c.clients;
      hosts = c.hosts.items;
      steps = steps_of c.turns.turns;
    } };

    ghost invariant = { λ c. IsServing c.place c.config.now.hosts.items c.clients c.hosts.items
        (steps_of c.turns.turns) };
}

impl<'a> WorkerConnections<'a> {
    /// The hosts of the worker at this place, each without a link, and no client. Each client's connection is closed behind
    /// these refused commands. Ends with `Memory` where there is none for the hosts.
    pub fn new(
        setup: ConnectionSetup<'a>,
        place: Place,
        behind: &'a CloseBehind,
        seat: Seated<'a, TalliedCore>,
    ) -> Result<WorkerConnections<'a>, Ending>
        requires { steps_of seat ≡ [] }
        ensures place { IfOk result (λ made. made.place ≡ place) }
        ensures settings { IfOk result (λ made.
            made.settings ≡ setup.entry.config.now.hosts.items) }
        ensures hosts { 0 < place.workers → IfOk result (λ made.
            map number_of made.hosts ≡ hosts_of place (length setup.entry.config.now.hosts.items)) }
    {
        let hosts = hosts_of(setup, place)?;
        let ConnectionSetup {
            alloc,
            config,
            traffic,
        } = setup;
        Ok(WorkerConnections {
            alloc,
            turns: MeteredTurns::new(seat),
            place,
            config,
            behind,
            clients: Slab::new(alloc),
            ready: ReadyClients::new(alloc),
            hosts,
            stirred: 0,
            lent: Lent {
                buffer: Vec::new(alloc),
                answered: Unanswered::new(alloc),
                durations: Histogram::new(),
            },
            traffic,
        })
    }

    /// The worker's place.
    pub fn place(&self) -> Place
        ensures { result ≡ self.now.place }
    {
        self.place
    }

    /// The clients' keys are below this number.
    pub fn capacity(&self) -> usize {
        self.clients.capacity()
    }

    /// Whether there is no client.
    pub fn is_empty(&self) -> bool {
        self.clients.is_empty()
    }

    /// The key of the next client.
    pub fn vacant_key(&self) -> usize {
        self.clients.vacant_key()
    }

    /// The number of hosts.
    pub fn host_count(&self) -> usize {
        self.hosts.len()
    }

    /// Whether a host's link has been connecting for less than `CONNECTING_MS`.
    pub fn is_connecting(&self, now: u64) -> bool {
        is_any_connecting(&self.hosts, now)
    }

    // One step for a fault of each link, because a fault must be recorded.
    fn reserve(&self) -> u64
        ensures { result ≡ length self.now.hosts }
    {
        self.hosts.len() as u64
    }

    /// Reports what its turns did, and returns unspent steps. A step for a fault of each link stays lent.
    pub fn settle<R: Wait>(&mut self, rt: &R, room: &JournalRoom)
        ensures { self.new ≡ self.old }
    {
        let reserve = self.reserve();
        room.settle(rt, &mut self.turns, reserve);
    }

    /// Borrows the steps of a further connection and a command of it. False: the journal hasn't that many left.
    pub fn borrow_for_client<R: Wait>(&mut self, rt: &R, room: &JournalRoom) -> bool
        ensures { self.new ≡ self.old }
    {
        let reserve = self.reserve().saturating_add(StepKind::Opened.cost());
        room.lend(rt, &mut self.turns, reserve)
    }

    /// Makes room for one more client. False: there is no memory.
    pub fn reserve_slot(&mut self) -> bool
        ensures makes { MakesRoom self.old self.new }
        ensures room { OnTrue result (HasRoomFor self.new.clients 1) }
    {
        self.clients.reserve(1).is_ok() && self.ready.reserve(self.clients.capacity()).is_ok()
    }

    /// The least key of a ready client, from one number on and below another.
    pub fn next_ready(&self, from: usize, end: usize) -> Option<usize> {
        match self.ready.next(from) {
            Some(key) if key < end => Some(key),
            _ => None,
        }
    }

    /// Whether a client is ready.
    pub fn has_ready(&self) -> bool {
        self.ready.next(0).is_some()
    }

    /// Whether nothing is left to do for the hosts unless further parts come.
    pub fn are_hosts_at_rest(&self) -> bool {
        self.stirred == 0 && self.hosts.iter().all(|host| host.is_at_rest())
    }

    /// Whether a client waits for replies, and all that was handed out to it is written.
    pub fn may_be_answered(&self) -> bool {
        may_any_be_answered(&self.clients)
    }

    /// Makes all clients ready.
    pub fn make_all_ready(&mut self)
        ensures { self.new ≡ self.old }
    {
        self.ready.make_all_ready(self.clients.capacity());
    }

    /// Takes what turns told: clients to which replies came are ready, and hosts for which parts came are stepped in
    /// their next round.
    pub fn hear(&mut self, notices: &Notices)
        ensures { self.new ≡ self.old }
    {
        self.stirred |= notices.take_hosts(self.place.index);
        make_told_ready(&mut self.ready, notices, self.place.index);
    }

    /// Has each host stepped in the next round, told of parts or not.
    pub fn stir_hosts(&mut self)
        ensures { self.new ≡ self.old }
    {
        self.stirred |= self.bits_of_hosts();
    }

    fn bits_of_hosts(&self) -> u64 {
        let mut bits = 0;
        for host in &self.hosts {
            bits |= host.bit();
        }
        bits
    }

    /// Counts the durations of the commands answered since the last call, as of this moment, in microseconds.
    pub fn count_answered(&mut self, now_us: u64)
        ensures { self.new ≡ self.old }
    {
        self.lent
            .answered
            .answered(now_us, u64::MAX, &mut self.lent.durations);
    }

    /// Takes the durations of commands counted since the last call.
    pub fn take_durations(&mut self) -> Histogram
        ensures { self.new ≡ self.old }
    {
        mem::replace(&mut self.lent.durations, Histogram::new())
    }

    /// Takes the durations of a host's replies since the last call, by its index. `None`: there are none.
    pub fn take_host_time(&mut self, index: usize) -> Option<HostTime>
        ensures { ChangesHost index self.old self.new }
    {
        let Some(host) = self.hosts.get_mut(index) else {
            return None;
        };
        host.take_time()
    }

    /// Opens a connection on a new socket, which is registered under the vacant key.
    pub fn open<R: Wait>(
        &mut self,
        rt: &R,
        round: Round<'_>,
        stream: AdmittedStream,
        open_connection: OpenConnection,
    ) -> Result<(), StepError>
        requires { HasRoomFor self.old.clients 1 }
        ensures adds { AddsClient self.old self.new }
        ensures there { OnOk result (HasNewClient self.old self.new) }
    {
        let new = NewSocket {
            stream,
            open_connection,
            behind: self.behind,
            traffic: &self.traffic.clients,
        };
        match ClientConnection::open(rt, self.alloc, &mut self.turns, new) {
            Ok(client) => {
                self.insert(round, client);
                Ok(())
            }
            Err(error) => Err(StepError::from(error)),
        }
    }

    /// Opens a connection on a carried-over socket, which it registers under the vacant key. If the connection is refused
    /// the socket comes back.
    pub fn open_carried<R: Wait>(
        &mut self,
        rt: &R,
        round: Round<'_>,
        carried: CarriedSocket,
        open_connection: OpenConnection,
    ) -> Result<(), (StepError, CarriedSocket)>
        requires { HasRoomFor self.old.clients 1 }
        ensures adds { AddsClient self.old self.new }
        ensures there { OnOk result (HasNewClient self.old self.new) }
    {
        let opening = Opening {
            registry: round.registry,
            token: Token(self.clients.vacant_key()),
        };
        let turns = &mut self.turns;
        match ClientConnection::open_carried(rt, turns, opening, carried, open_connection) {
            Ok(client) => {
                client.note_carried(round.room);
                self.insert(round, client);
                Ok(())
            }
            Err((error, carried)) => Err((StepError::from(error), carried)),
        }
    }

    // The client has a connection from here on.
    fn insert(&mut self, round: Round<'_>, mut client: ClientConnection)
        requires room { HasRoomFor self.old.clients 1 }
        requires newcomer { IsNewcomer client.engine self.old.clients self.old.steps }
        ensures same { (self.new.place ≡ self.old.place)
            × (self.new.settings ≡ self.old.settings) }
        ensures hosts { self.new.hosts ≡ self.old.hosts }
        ensures steps { self.new.steps ≡ self.old.steps }
        ensures stay { KeepsClients self.old.clients self.new.clients }
        ensures there { HasNewClient self.old self.new }
    {
        begin_input(&mut client, round);
        let conn = client.conn();
        let key = self.clients.insert_reserved(client);
        round.notices.add_client(conn, self.place.index, key);
        self.ready.make_ready(key);
    }

    /// Records what the poll reports of a client's socket.
    pub fn on_client_event(&mut self, key: usize, event: &Event)
        ensures { ChangesClient key self.old self.new }
    {
        let Some(client) = self.clients.get_mut(key) else {
            return;
        };
        client.on_readiness(event);
        self.ready.make_ready(key);
    }

    /// Records what the poll reports of a host's socket.
    pub fn on_host_event(&mut self, index: usize, event: &Event)
        ensures { ChangesHost index self.old self.new }
    {
        let Some(host) = self.hosts.get_mut(index) else {
            return;
        };
        host.on_readiness(event);
    }

    /// Takes in no further commands of the client with this key. Accepted ones are answered, then the connection ends;
    /// its socket may go over.
    pub fn drain(&mut self, key: usize)
        ensures { ChangesClient key self.old self.new }
    {
        let Some(client) = self.clients.get_mut(key) else {
            return;
        };
        client.drain();
        self.ready.make_ready(key);
    }

    /// Ends the input of the client with this key behind the bytes that have come. Those are answered, then the
    /// connection is closed.
    pub fn end_input(&mut self, key: usize)
        ensures { ChangesClient key self.old self.new }
    {
        let Some(client) = self.clients.get_mut(key) else {
            return;
        };
        client.end_input();
        self.ready.make_ready(key);
    }

    /// Ends the input of the client with this key behind what has come, where it is served and has been idle for `idle_ms` of
    /// the round; 0 is never. True: it does, and counts that.
    pub fn end_idle(&mut self, round: Round<'_>, key: usize) -> bool
        ensures changes { ChangesClient key self.old self.new }
        ensures ends { IsTrue result
            ↔ HasIdle round.entry.now round.entry.idle_ms self.old.clients key }
    {
        let Some(client) = self.clients.get_mut(key) else {
            return false;
        };
        let is_idle = client.is_idle(round.now, round.idle_ms);
        if is_idle {
            client.end_idle();
            self.ready.make_ready(key);
        }
        is_idle
    }

    /// Steps the client with this key. `None`: it can't make progress now, or there is no such client. It is ready again
    /// only where its round left something to do.
    pub fn step_client<R: Wait>(
        &mut self,
        rt: &R,
        round: Round<'_>,
        key: usize,
    ) -> Option<ClientResult>
        ensures changes { ChangesClient key self.old self.new }
        ensures leaves { IfSome result (λ r. IfOk r.stepped
            (λ s. LetsGo s self.new.clients key)) }
    {
        let reserve = self.reserve();
        self.ready.begin(key);
        let Some(client) = self.clients.get_mut(key) else {
            return None;
        };
        if !client.may_go(round.now) {
            return None;
        }
        let was_counted = client.is_counted();
        let own = client_round(round, reserve);
        let stepped = client.run_once(rt, &mut self.turns, &mut self.lent, own);
        let awaits = client.awaits_reply();
        let is_ready = client.has_more() || matches!(stepped, Ok(Stepped::Ready));
        let has_closed = client.is_counted() && !was_counted;
        self.ready.end(key, is_ready, awaits);
        Some(ClientResult {
            stepped,
            has_closed,
        })
    }

    /// Steps the host with this index. `None`: it can't make progress now, or there is no such host.
    pub fn step_host<R: Wait + Net>(
        &mut self,
        rt: &R,
        round: Round<'_>,
        index: usize,
    ) -> Option<HostResult>
        ensures { ChangesHost index self.old self.new }
    {
        let Some(host) = self.hosts.get_mut(index) else {
            return None;
        };
        let bit = host.bit();
        let is_stirred = self.stirred & bit != 0;
        if !is_stirred && !round.gives_up && !host.may_go(round.now) {
            return None;
        }
        self.stirred &= !bit;
        let own = host_round(round);
        let stepped = host.run_once(rt, &mut self.turns, &mut self.lent.buffer, own);
        Some(HostResult {
            stepped,
            address: host.address(),
            may_go: host.may_go(round.now),
        })
    }

    /// The client that is stalled, and for which most bytes wait of all that are. `None`: none is.
    pub fn most_stalled(&self, now: u64) -> Option<Stalled>
        ensures some { IfSome result (IsMostStalled now self.now.clients) }
        ensures none { result ≡ None → NoneIsStalled now self.now.clients }
    {
        stalled::most_stalled(&self.clients, now)
    }

    /// Ends the connection of the client with this key, if there is one: its socket takes and gives nothing more.
    pub fn break_off(&mut self, key: usize)
        ensures changes { ChangesClient key self.old self.new }
        ensures failed { HasFailed self.new.clients key }
    {
        let Some(client) = self.clients.get_mut(key) else {
            return;
        };
        client.break_off();
        self.ready.make_ready(key);
    }

    /// Drops a client whose sending half is closed: what its writer took has passed to the system, or a write failed or was
    /// broken off.
    pub fn remove(&mut self, notices: &Notices, key: usize)
        requires { MayClose self.old.clients key }
        ensures { RemovesClient key self.old self.new }
    {
        self.ready.forget(key);
        if let Some(client) = self.clients.try_remove(key) {
            notices.remove_client(client.conn(), self.place.index, key);
            drop(client);
        }
    }

    /// Takes the socket of a client whose connection is closed with all answered, with its unused input, for the newest
    /// generation.
    pub fn carry(&mut self, round: Round<'_>, key: usize) -> CarriedSocket
        requires { MayCarry self.old.clients key }
        ensures { RemovesClient key self.old self.new }
    {
        self.ready.forget(key);
        let Some(client) = self.clients.try_remove(key) else {
            unreachable!()
        };
        let conn = client.conn();
        round.notices.remove_client(conn, self.place.index, key);
        client.carry(self.alloc, round.registry, round.room)
    }

    /// Counts a refusal of memory to a client's socket that would go over. The client tries again, unless too many were
    /// refused in a row. `None`: there is no such client.
    pub fn count_no_memory(&mut self, key: usize) -> Option<StepError>
        ensures { ChangesClient key self.old self.new }
    {
        let Some(client) = self.clients.get_mut(key) else {
            return None;
        };
        self.ready.make_ready(key);
        Some(client.count_no_memory())
    }

    /// Writes what the client's socket takes at once, closes its sending half, and discards what has come. True: its
    /// connection wasn't counted as closed yet. `None`: there is no such client.
    pub fn shut_down(&mut self, key: usize) -> Option<bool>
        ensures { ChangesClient key self.old self.new }
    {
        let Some(client) = self.clients.get_mut(key) else {
            return None;
        };
        let is_cut = !client.is_counted();
        client.shut_down(&mut self.lent.buffer);
        Some(is_cut)
    }
}

// The worker keeps `reserve` steps for its links.
fn client_round(round: Round<'_>, reserve: u64) -> ClientRound<'_> {
    ClientRound {
        room: round.room,
        now: round.now,
        came_us: round.came_us,
        reserve,
        most_parts: round.most_parts,
        carries_over: round.carries_over,
        buffers_all: round.buffers_all,
        idle_ms: round.idle_ms,
    }
}

fn host_round(round: Round<'_>) -> HostRound<'_> {
    HostRound {
        room: round.room,
        registry: round.registry,
        now: round.now,
        now_us: round.now_us,
        gives_up: round.gives_up,
    }
}

fn may_any_be_answered(clients: &Slab<ClientConnection>) -> bool {
    for key in 0..clients.capacity() {
        if let Some(client) = clients.get(key) {
            if client.may_be_answered() {
                return true;
            }
        }
    }
    false
}

fn make_told_ready(ready: &mut ReadyClients, notices: &Notices, worker: usize) {
    if notices.take_all(worker) {
        ready.make_awaiting_ready();
    }
    for _ in 0..MAX_WORDS {
        let Some(word) = notices.take_word(worker) else {
            return;
        };
        ready.make_word_ready(word.index, word.bits);
    }
}

// (it may have been idle for long enough in generations before)
fn begin_input(client: &mut ClientConnection, round: Round<'_>)
    ensures { client.new.engine ≡ client.old.engine }
{
    if round.ends_inputs {
        client.end_input();
    } else if client.is_idle(round.now, round.idle_ms) {
        client.end_idle();
    }
}

fn is_any_connecting(hosts: &[HostConnection], now: u64) -> bool {
    hosts.iter().any(|host| host.is_connecting(now))
}

fn hosts_of(setup: ConnectionSetup<'_>, place: Place) -> Result<Vec<HostConnection>, Ending>
    ensures serves { IfOk result (λ hosts.
        ServesHosts place setup.entry.config.now.hosts.items hosts.items []) }
    ensures all { 0 < place.workers → IfOk result (λ hosts.
        map number_of hosts.items ≡ hosts_of place (length setup.entry.config.now.hosts.items)) }
{
    let mut hosts = Vec::new(setup.alloc);
    if place.workers == 0 {
        return Ok(hosts);
    }
    for host in 0..setup.config.hosts.len() {
        push_host(&mut hosts, setup, host, place)?;
    }
    Ok(hosts)
}

fn push_host(
    hosts: &mut Vec<HostConnection>,
    setup: ConnectionSetup<'_>,
    host: usize,
    place: Place,
) -> Result<(), Ending>
    requires workers { 0 < place.workers }
    requires there { host < length setup.config.now.hosts.items }
    ensures { RiseTo place setup.entry.config.now.hosts.items hosts.old.items host
        → OnOk result (RiseTo place setup.entry.config.now.hosts.items hosts.new.items (host + 1)) }
{
    if !place.has(host) {
        return Ok(());
    }
    let Ok(traffic) = Arc::try_clone(&setup.traffic.hosts) else {
        return Err(Ending::Memory);
    };
    let entry = &setup.config.hosts[host];
    let token = Token(HOSTS.saturating_add(hosts.len()));
    let reply_ms = u64::from(setup.config.reply_ms);
    let link = HostLink::new(entry.address, token, reply_ms);
    let connection = HostConnection::new(setup.alloc, host, link, reply_ms, traffic);
    hosts.push(connection)?;
    Ok(())
}
