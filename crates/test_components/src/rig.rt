//! Clients and hosts over one core, all stepped until nothing moves.
ghost use Rattle.std.specs.Prelude.{◌≡◌, [], IfOk, None};

use crate::fake_devices::{Feed, Reader, Source, Taken, Writer};
use crate::journal::{Deed, last_deed};
use crate::stage::{Stage, Visitor};
use crate::turns::{Ration, Rationed};
use close_behind::CloseBehind;
use ketama::Ring;
use proxy_core::{Core, Event, Refusal, Settings};
use proxy_engines::{ClientEnds, ClientEngine, EngineError, Faulty, HostEngine, Progress, Tallied};
use std::alloc::Global;
use std::sync::Wait;
use stub_server::{Act as Serves, Stub, StubLink, StubReader, StubWriter};
use ticket_gate::{Alone, TurnRefusal, Turns};

type Input<'a> = Faulty<Tallied<Reader<'a>>>;

type Output<'a> = Faulty<Tallied<Writer<'a>>>;

type Host<'a> = HostEngine<Input<'a>, Output<'a>>;

enum Engine<'a> {
    Client(ClientEngine<Input<'a>, Output<'a>>),
    Host(Host<'a>),
}

impl Drop for Engine<'_> {
    fn drop(self) {
        match self {
            Engine::Client(client) => drop(client),
            Engine::Host(host) => drop(host),
        }
    }
}

pub(crate) const REPLY_MS: u64 = 5_000;

// A run ends after this many rounds without a move: a piece comes after a pause.
const QUIET_ROUNDS: u32 = 4;

// The points of three hosts: `abc` belongs to host 0, `a` to host 1, and the empty key and `b` to host 2 and host 0.
const POINTS: [(u32, usize); 3] = [(2_555_380_112, 0), (3_111_502_092, 1), (3_649_838_548, 2)];

// The bytes until each end fails, and the most bytes a call.
#[derive(Clone, Copy)]
pub(crate) struct Ends {
    pub(crate) reads: u64,
    pub(crate) writes: u64,
    pub(crate) reading: usize,
    pub(crate) writing: usize,
}

impl Ends {
    pub(crate) const ALL: usize = 100_000;

    pub(crate) const FREE: Ends = Ends {
        reads: u64::MAX,
        writes: u64::MAX,
        reading: Ends::ALL,
        writing: Ends::ALL,
    };

    pub(crate) fn reading(reads: usize, reading: usize) -> Ends {
        Ends {
            reads: reads as u64,
            reading,
            ..Ends::FREE
        }
    }

    pub(crate) fn writing(writes: usize, writing: usize) -> Ends {
        Ends {
            writes: writes as u64,
            writing,
            ..Ends::FREE
        }
    }
}

#[derive(Clone, Copy)]
pub(crate) enum Peer {
    // A stub that is empty at first, and serves by these acts.
    Stub(&'static [Serves]),
    // It sends the stage's text whatever it is asked.
    Text,
}

// A link to a host, and the bytes until each end fails.
#[derive(Clone, Copy)]
pub(crate) struct Link {
    pub(crate) to: Peer,
    pub(crate) reads: u64,
    pub(crate) writes: u64,
}

impl Link {
    pub(crate) const STUB: Link = Link {
        to: Peer::Stub(&[]),
        reads: u64::MAX,
        writes: u64::MAX,
    };

    pub(crate) const TEXT: Link = Link {
        to: Peer::Text,
        reads: u64::MAX,
        writes: u64::MAX,
    };
}

// An error of an engine's step, and the newest step of the journal right after it.
#[derive(Clone, Copy, PartialEq)]
pub(crate) struct StepFailure {
    pub(crate) error: EngineError,
    pub(crate) deed: Option<Deed>,
}

impl StepFailure {
    fn now(error: EngineError, core: &Core) -> StepFailure {
        let deed = last_deed(core);
        StepFailure { error, deed }
    }
}

pub(crate) struct Rig<'a> {
    pub(crate) stage: &'a Stage,
    turns: Rationed,
    // The hosts, and behind them the clients.
    engines: Vec<Engine<'a>>,
    hosts: usize,
    // The links for hosts, in this order.
    links: Vec<Link>,
    // The number of links given.
    given: usize,
    // The newest error of a client.
    pub(crate) of_client: Option<StepFailure>,
    // The newest error of a host.
    pub(crate) of_host: Option<StepFailure>,
    // The length of the journal at the last look.
    pub(crate) seen: usize,
}

impl Drop for Rig<'_> {
    fn drop(self) {
        let Rig {
            stage: _,
            turns,
            engines,
            hosts: _,
            links,
            given: _,
            of_client: _,
            of_host: _,
            seen: _,
        } = self;
        drop(engines);
        drop(links);
        drop(turns);
    }
}

fn core(alloc: Global, hosts: usize) -> Result<Core, EngineError>
    ensures { IfOk result (λ core. core.steps ≡ []) }
{
    let points = POINTS.get(..hosts).unwrap_or(&POINTS);
    let Ok(ring) = Ring::of_points(alloc, hosts, points) else {
        return Err(EngineError::NoMemory);
    };
    Core::new(alloc, ring, Settings::default()).or(Err(EngineError::NoMemory))
}

impl<'a> Rig<'a> {
    pub(crate) fn new(
        alloc: Global,
        stage: &'a Stage,
        hosts: usize,
        ration: Ration,
    ) -> Result<Rig<'a>, EngineError> {
        let turns = Rationed::new(Alone::new(core(alloc, hosts)?, 0), ration);
        let mut rig = Rig {
            stage,
            turns,
            engines: Vec::new(alloc),
            hosts,
            links: Vec::new(alloc),
            given: 0,
            of_client: None,
            of_host: None,
            seen: 0,
        };
        match rig.add_hosts(alloc) {
            Ok(()) => Ok(rig),
            Err(error) => Err(error),
        }
    }

    fn add_hosts(&mut self, alloc: Global) -> Result<(), EngineError> {
        for host in 0..self.hosts {
            self.add(Engine::Host(HostEngine::new(alloc, host, REPLY_MS)))?;
        }
        Ok(())
    }

    fn add(&mut self, engine: Engine<'a>) -> Result<(), EngineError> {
        self.engines.push(engine).or(Err(EngineError::NoMemory))
    }

    fn open_once<Rt: Wait + AllocGlobal>(
        &mut self,
        rt: &Rt,
        visitor: &'a Visitor,
        ends: Ends,
    ) -> Result<(), EngineError> {
        let reader = Reader::Text(Source {
            feed: &visitor.says,
            most: ends.reading,
        });
        let writer = Writer {
            stub: None,
            taken: &visitor.took,
            most: ends.writing,
        };
        let ends = ClientEnds {
            reader: Faulty::new(Tallied::new(reader), ends.reads),
            writer: Faulty::new(Tallied::new(writer), ends.writes),
            behind: CloseBehind::none(),
        };
        match ClientEngine::open(rt, rt.alloc(), &mut self.turns, ends) {
            Ok(client) => self.add(Engine::Client(client)),
            Err(error) => Err(error),
        }
    }

    // Opens the next of two clients' connections. A refused turn is made again, once.
    pub(crate) fn open<Rt: Wait + AllocGlobal>(
        &mut self,
        rt: &Rt,
        says: Feed,
        ends: Ends,
    ) -> Result<(), EngineError> {
        let stage = self.stage;
        let visitor = if self.engines.len() == self.hosts {
            &stage.first
        } else {
            &stage.second
        };
        visitor.says.set(says);
        match self.open_once(rt, visitor, ends) {
            Ok(()) => Ok(()),
            Err(_) => self.open_once(rt, visitor, ends),
        }
    }

    pub(crate) fn add_link(&mut self, link: Link) -> Result<(), EngineError> {
        self.links.push(link).or(Err(EngineError::NoMemory))
    }

    pub(crate) fn core(&self) -> &Core {
        self.turns.core()
    }

    pub(crate) fn into_core(self) -> Core {
        let Rig {
            stage: _,
            turns,
            engines,
            hosts: _,
            links,
            given: _,
            of_client: _,
            of_host: _,
            seen: _,
        } = self;
        drop(engines);
        drop(links);
        turns.into_core()
    }

    pub(crate) fn refusal<Rt: Wait>(&mut self, rt: &Rt, event: Event) -> Option<Refusal> {
        let result = self.turns.turn(rt, event);
        let cause = match &result {
            Err(TurnRefusal::State { cause, .. }) => Some(*cause),
            _ => None,
        };
        drop(result);
        cause
    }

    fn step_at<Rt: Wait>(
        &mut self,
        rt: &Rt,
        place: usize,
        moment: u64,
    ) -> Option<Result<Progress, EngineError>> {
        match self.engines.get_mut(place) {
            Some(Engine::Client(client)) => Some(client.step(rt, &mut self.turns)),
            Some(Engine::Host(host)) => Some(host.step(rt, &mut self.turns, moment)),
            None => None,
        }
    }

    pub(crate) fn step_client<Rt: Wait>(
        &mut self,
        rt: &Rt,
    ) -> Option<Result<Progress, EngineError>> {
        self.step_at(rt, self.hosts, 0)
    }

    pub(crate) fn step_host<Rt: Wait>(
        &mut self,
        rt: &Rt,
        moment: u64,
    ) -> Option<Result<Progress, EngineError>> {
        self.step_at(rt, 0, moment)
    }

    // Steps each host and client once, and gives a host that needs a link the next one. False: none moved. A refused
    // step is no move.
    fn step<Rt: Wait + AllocGlobal>(&mut self, rt: &Rt, moment: u64) -> Result<bool, EngineError> {
        let mut has_moved = false;
        for engine in self.engines.iter_mut() {
            match engine {
                Engine::Client(client) => match client.step(rt, &mut self.turns) {
                    Ok(progress) => has_moved |= progress == Progress::Moved,
                    Err(error) => self.of_client = Some(StepFailure::now(error, self.turns.core())),
                },
                Engine::Host(host) => match host.step(rt, &mut self.turns, moment) {
                    Ok(Progress::NeedsLink) => {
                        if let Some(link) = self.links.get(self.given) {
                            attach(rt.alloc(), host, self.stage, *link, self.given == 0)?;
                            self.given = self.given.saturating_add(1);
                            has_moved = true;
                        }
                    }
                    Ok(progress) => has_moved |= progress == Progress::Moved,
                    Err(error) => self.of_host = Some(StepFailure::now(error, self.turns.core())),
                },
            }
        }
        Ok(has_moved)
    }

    // Steps all until nothing moves. False: there was no end.
    pub(crate) fn run<Rt: Wait + AllocGlobal>(
        &mut self,
        rt: &Rt,
        moment: u64,
    ) -> Result<bool, EngineError> {
        let mut quiet = 0u32;
        for _ in 0..1_000_000 {
            quiet = if self.step(rt, moment)? {
                0
            } else {
                quiet.saturating_add(1)
            };
            if quiet >= QUIET_ROUNDS {
                return Ok(true);
            }
        }
        Ok(false)
    }
}

fn attach<'a>(
    alloc: Global,
    host: &mut Host<'a>,
    stage: &'a Stage,
    link: Link,
    is_first: bool,
) -> Result<(), EngineError>
    requires none { host.old.link ≡ None }
    requires no_fault { host.old.fault ≡ None }
{
    let asked = if is_first {
        &stage.asked
    } else {
        &stage.asked_later
    };
    let (reader, writer) = link_ends(alloc, stage, link.to, asked)?;
    let reader = Faulty::new(Tallied::new(reader), link.reads);
    let writer = Faulty::new(Tallied::new(writer), link.writes);
    match host.attach(reader, writer) {
        Ok(()) => Ok(()),
        Err((error, reader, writer)) => {
            drop(reader);
            drop(writer);
            Err(error)
        }
    }
}

// The stage keeps the requests.
fn link_ends<'a>(
    alloc: Global,
    stage: &'a Stage,
    peer: Peer,
    taken: &'a Taken,
) -> Result<(Reader<'a>, Writer<'a>), EngineError> {
    let most = Ends::ALL;
    match peer {
        Peer::Stub(acts) => {
            let (reader, writer) = stub(alloc, acts)?;
            let stub = Some(writer);
            Ok((Reader::Stub(reader), Writer { stub, taken, most }))
        }
        Peer::Text => {
            let feed = &stage.host;
            let stub = None;
            Ok((
                Reader::Text(Source { feed, most }),
                Writer { stub, taken, most },
            ))
        }
    }
}

pub(crate) fn stub(
    alloc: Global,
    acts: &[Serves],
) -> Result<(StubReader, StubWriter), EngineError> {
    let mut script = Vec::new(alloc);
    script
        .extend_from_slice(acts)
        .or(Err(EngineError::NoMemory))?;
    let mut stub = Stub::new(alloc);
    stub.script(script);
    match StubLink::new(alloc, stub).ends(alloc) {
        Ok(ends) => Ok(ends),
        Err(refused) => {
            drop(refused);
            Err(EngineError::NoMemory)
        }
    }
}
