//! Three hosts in memory, the core that knows them, and their engines.
ghost use Rattle.std.specs.Prelude.{◌≡◌, [], ◌∷◌, map, IfOk, IfErr};
ghost use Rattle.ketama.specs.HostName.{IsHostName};
ghost use Rattle.ketama.specs.Ketama.{IsKetamaRing};
ghost use Rattle.proxy_local.specs.Stubs.{IsOfStubs, stub_names, stub_weights};
ghost use Rattle.proxy_exit_status.specs.declared.ending.Ending.TheVariants.{Memory};

use crate::ending::ending_of;
use ketama::{HostName, Ring, RingError};
use proxy_core::{Core, Refusal, Settings};
use proxy_engines::{HostEngine, Tallied};
use proxy_exit_status::Ending;
use std::alloc::Global;
use stub_server::{Stub, StubLink, StubReader, StubWriter};

pub(crate) type StubEngine = HostEngine<Tallied<StubReader>, Tallied<StubWriter>>;

const HOSTS: usize = 3;

// A reply is late after this many milliseconds.
const REPLY_MS: u64 = 5_000;

/// A core with an empty journal, for the hosts `stub-0`, `stub-1` and `stub-2` and the default settings.
pub(crate) fn stub_core(alloc: Global) -> Result<Core, Ending>
    ensures setting { IfOk result (λ core. IsOfStubs core.setting) }
    ensures empty { IfOk result (λ core. core.steps ≡ []) }
    ensures err { IfErr result (λ e. e ≡ Memory) }
{
    match Core::new(alloc, stub_ring(alloc)?, Settings::default()) {
        Ok(core) => Ok(core),
        Err(Refusal::NoMemory) => Err(Ending::Memory),
        Err(_) => unreachable!(),
    }
}

fn stub_ring(alloc: Global) -> Result<Ring, Ending>
    ensures ring { IfOk result (IsKetamaRing stub_names stub_weights) }
    ensures err { IfErr result (λ e. e ≡ Memory) }
{
    let names = vec![in alloc;
        host_name(alloc, b"stub-0")?,
        host_name(alloc, b"stub-1")?,
        host_name(alloc, b"stub-2")?,
    ]?;
    match Ring::build(alloc, &names, &[1; HOSTS]) {
        Ok(ring) => Ok(ring),
        Err(RingError::NoMemory) => Err(Ending::Memory),
        Err(_) => unreachable!(),
    }
}

fn host_name(alloc: Global, bytes: &[u8]) -> Result<HostName, Ending>
    requires { IsHostName bytes.now }
    ensures name { IfOk result (λ name. name ≡ bytes.now) }
    ensures err { IfErr result (λ e. e ≡ Memory) }
{
    match HostName::read(alloc, bytes) {
        Ok(name) => Ok(name),
        Err(RingError::NoMemory) => Err(Ending::Memory),
        Err(_) => unreachable!(),
    }
}

/// The hosts' engines, by their numbers, each with a link to an empty stub.
pub(crate) fn stub_engines(alloc: Global) -> Result<Vec<StubEngine>, Ending>
    ensures hosts { IfOk result (λ es. map (λ e. e.outbox.host) es.items ≡ 0 ∷ 1 ∷ 2 ∷ []) }
    ensures err { IfErr result (λ e. e ≡ Memory) }
{
    let mut engines = Vec::with_capacity(alloc, HOSTS)?;
    for host in 0..HOSTS {
        engines.push(stub_engine(alloc, host)?)?;
    }
    Ok(engines)
}

fn stub_engine(alloc: Global, host: usize) -> Result<StubEngine, Ending>
    ensures host { IfOk result (λ e. e.outbox.host ≡ host) }
    ensures err { IfErr result (λ e. e ≡ Memory) }
{
    let (reader, writer) = stub_ends(alloc)?;
    let mut engine = HostEngine::new(alloc, host, REPLY_MS);
    match engine.attach(Tallied::new(reader), Tallied::new(writer)) {
        Ok(()) => Ok(engine),
        Err((error, _, _)) => Err(ending_of(error)),
    }
}

fn stub_ends(alloc: Global) -> Result<(StubReader, StubWriter), Ending>
    ensures err { IfErr result (λ e. e ≡ Memory) }
{
    match StubLink::new(alloc, Stub::new(alloc)).ends(alloc) {
        Ok(ends) => Ok(ends),
        Err(_) => Err(Ending::Memory),
    }
}
