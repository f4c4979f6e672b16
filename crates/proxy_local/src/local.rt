//! One client, answered from a reader to a writer, with three hosts in memory behind it.
ghost use Rattle.std.specs.Prelude.{◌≡◌, ◌≢◌, ◌⊎◌, ◌+◌, ◌∷◌, [], IfOk, IfErr, OnOk, false, true};
ghost use Rattle.std.specs.Io.Buffered.{writer_contents};
ghost use Rattle.std.specs.Io.KnownBytes.{Keeps, append_known};
ghost use Rattle.proxy_core.specs.Recorded.{IsCauseIn, journal_of, made_with};
ghost use Rattle.proxy_devices.specs.Device.{passed_all};
ghost use Rattle.std.specs.List.{AllZip};
ghost use Rattle.journal_core.specs.Journal.{step_by};
ghost use Rattle.proxy_history.specs.declared.answer.Answer.{Answer};
ghost use Rattle.proxy_history.specs.declared.event.Event.{Event};
ghost use Rattle.proxy_engines.specs.Client.{Carries, Client};
ghost use Rattle.proxy_engines.specs.ClientSteps.{OpensClient};
ghost use Rattle.proxy_engines.specs.Turns.{KeepsTurns, own_history, own_steps};
ghost use Rattle.proxy_engines.specs.declared.client.Stage.{Stage};
ghost use Rattle.proxy_local.specs.Local.{RunsLocal};
ghost use Rattle.proxy_local.specs.Moves.{GoesBeside, HaveRested, IsBeside, RestsIdle};

use crate::announced::Announced;
use crate::ending::ending_of;
use crate::stubs::{stub_core, stub_engines};
use limits::MAX_BUFFERED;
use proxy_core::{Answer, Core, CoreTurns, Step};
use proxy_engines::{
    ClientEnds, ClientEngine, CloseBehind, HostEngine, Progress, ReadTally, Tallied, WriteTally,
};
use proxy_exit_status::Ending;
use std::alloc::Global;
use std::io::{BufWriter, Read, Write};
use std::sync::Wait;
use ticket_gate::Alone;

// The most steps of all engines of a run together.
pub(crate) const MAX_ENGINE_STEPS: u32 = 1_073_741_824;

// The pass that makes all turns.
const PASS: u64 = 0;

// The moment of each event.
const MOMENT: u64 = 0;

type Output<W> = Tallied<BufWriter<W>>;

type Client<R, W> = ClientEngine<Announced<Tallied<R>>, Output<W>>;

/// Serves the one client whose bytes the reader has, and returns the writer, which has the replies.
///
/// Ends Ok after a request that finishes the connection, or at the end of the input. Each read takes at most 16,384
/// bytes. Replies are written together: before the next read, once `MAX_BUFFERED` bytes are buffered, and at the end,
/// however the run ends.
///
/// Ends with `JournalFull` if the journal takes no further step: 262,144 steps, or 67,108,864 bytes of payload. Ends
/// with `Socket` if the reader or the writer fails, and after 1,073,741,824 steps of engines; with `Memory` if memory
/// is refused. A reader that pauses is read again.
pub fn local_run<Rt: Wait, R: Read + Drop, W: Write + Drop>(
    rt: &Rt,
    alloc: Global,
    reader: R,
    writer: W,
) -> Result<W, Ending>
    ensures runs { IfOk result
        (λ w. RunsLocal (R.remaining reader) (W.contents writer) (W.contents w)) }
{
    let mut turns = Alone::new(stub_core(alloc)?, PASS);
    let mut hosts = stub_engines(alloc)?;
    let client = open_client(rt, alloc, &mut turns, reader, writer)?;
    let (ran, writer) = run_to_end(rt, &mut turns, client, hosts.as_mut_slice())?;
    ran?;
    Ok(writer)
}

// Opens the client's connection.
fn open_client<Rt: Wait, T: CoreTurns, R: Read + Drop, W: Write + Drop>(
    rt: &Rt,
    alloc: Global,
    turns: &mut T,
    reader: R,
    writer: W,
) -> Result<Client<R, W>, Ending>
    ensures turns { KeepsTurns (T.facts turns.old) (T.facts turns.new) }
    ensures opened { IfOk result (λ e. OpensClient (T.facts turns.old).pass
        (own_history (T.facts turns.old)) (own_history (T.facts turns.new))
        (record {
          remaining = R.remaining reader;
          told = [];
          counts = record { failed = 0; paused = 0 };
        })
        (record {
          contents = append_known (W.contents writer) [];
          taken = [];
          passed = passed_all [];
          counts = record { failed = 0; paused = 0 };
        }) (record { all = false; names = [] }) e) }
    ensures carries { IfOk result (λ e. Carries e
        (own_history (T.facts turns.new)) [] []) }
{
    let Ok(output) = BufWriter::with_capacity(alloc, MAX_BUFFERED, writer) else {
        return Err(Ending::Memory);
    };
    let ends = ClientEnds {
        reader: Announced::new(Tallied::new(reader)),
        writer: Tallied::new(output),
        behind: CloseBehind::none(),
    };
    match ClientEngine::open(rt, alloc, turns, ends) {
        Ok(client) => Ok(client),
        Err(error) => Err(ending_of(error)),
    }
}

// Runs the client until it ends; the buffered bytes are written in any case.
fn run_to_end<
    Rt: Wait,
    R: ReadTally + Drop,
    W: Write + Drop,
    P: ReadTally + Drop,
    Q: WriteTally + Drop,
>(
    rt: &Rt,
    turns: &mut Alone<Core>,
    client: ClientEngine<R, Output<W>>,
    hosts: &mut [HostEngine<P, Q>],
) -> Result<(Result<(), Ending>, W), Ending>
    ensures pass { turns.new.pass ≡ turns.old.pass }
    ensures setting { made_with turns.new.state ≡ made_with turns.old.state }
    ensures runs { IfOk result (λ r. (last : Client) × Keeps last.outbox.held (W.contents r.1)
        × GoesBeside client last
        (own_steps turns.old.pass (journal_of turns.old.state))
        (own_steps turns.new.pass (journal_of turns.new.state))
        × OnOk r.0 (last.stage ≡ Stage.Closed false)) }
    ensures err { IfErr result (λ e. e ≡ Ending.Socket) }
{
    let mut client = client;
    let ran = run_client(rt, turns, &mut client, hosts);
    let writer = written_out(client.into_writer())?;
    Ok((ran, writer))
}

fn written_out<W: Write + Drop>(output: Output<W>) -> Result<W, Ending>
    ensures ok { IfOk result (λ w. Keeps (writer_contents W.contents output.inner) (W.contents w)) }
    ensures err { IfErr result (λ e. e ≡ Ending.Socket) }
{
    let Ok(mut writer) = output.into_inner().into_inner() else {
        return Err(Ending::Socket);
    };
    if writer.flush().is_err() {
        return Err(Ending::Socket);
    }
    Ok(writer)
}

// After each step, steps the hosts if they may have something to do.
fn run_client<
    Rt: Wait,
    R: ReadTally + Drop,
    W: WriteTally + Drop,
    P: ReadTally + Drop,
    Q: WriteTally + Drop,
>(
    rt: &Rt,
    turns: &mut Alone<Core>,
    client: &mut ClientEngine<R, W>,
    hosts: &mut [HostEngine<P, Q>],
) -> Result<(), Ending>
    ensures pass { turns.new.pass ≡ turns.old.pass }
    ensures setting { made_with turns.new.state ≡ made_with turns.old.state }
    ensures goes { GoesBeside client.old client.new
        (own_steps turns.old.pass (journal_of turns.old.state))
        (own_steps turns.new.pass (journal_of turns.new.state)) }
    ensures ended { OnOk result (client.new.stage ≡ Stage.Closed false) }
{
    let mut left = MAX_ENGINE_STEPS;
    for _ in 0..MAX_ENGINE_STEPS {
        if let Progress::Ended = step_all(rt, turns, client, hosts, &mut left)? {
            return Ok(());
        }
    }
    Err(Ending::Socket)
}

fn asks_hosts(core: &Core) -> bool {
    match core.journal().last() {
        Some(
            Step {
                answer: Answer::Accepted { parts, .. },
                ..
            },
        ) => *parts > 0,
        _ => false,
    }
}

// Steps the client once. Then steps the hosts until all are idle, unless the client ended or moved without parts for
// hosts.
fn step_all<
    Rt: Wait,
    R: ReadTally + Drop,
    W: WriteTally + Drop,
    P: ReadTally + Drop,
    Q: WriteTally + Drop,
>(
    rt: &Rt,
    turns: &mut Alone<Core>,
    client: &mut ClientEngine<R, W>,
    hosts: &mut [HostEngine<P, Q>],
    left: &mut u32,
) -> Result<Progress, Ending>
    ensures pass { turns.new.pass ≡ turns.old.pass }
    ensures setting { made_with turns.new.state ≡ made_with turns.old.state }
    ensures goes { GoesBeside client.old client.new
        (own_steps turns.old.pass (journal_of turns.old.state))
        (own_steps turns.new.pass (journal_of turns.new.state)) }
    ensures ended { IfOk result (λ p. p ≡ Progress.Ended → client.new.stage ≡ Stage.Closed false) }
    ensures rested { IfOk result (λ p. (p ≡ Progress.Ended) ⊎ ((p ≡ Progress.Moved)
        ⊎ HaveRested (IsCauseIn (made_with turns.old.state)) (journal_of turns.old.state)
        (journal_of turns.new.state) hosts.new)) }
{
    let progress = step_client(rt, turns, client, left)?;
    match progress {
        Progress::Ended => Ok(progress),
        Progress::Moved if !asks_hosts(turns.state()) => Ok(progress),
        _ => {
            settle(rt, turns, hosts, left)?;
            Ok(progress)
        }
    }
}

// If the client is idle, everything is answered, and buffered bytes are written.
fn step_client<Rt: Wait, T: CoreTurns, R: ReadTally + Drop, W: WriteTally + Drop>(
    rt: &Rt,
    turns: &mut T,
    client: &mut ClientEngine<R, W>,
    left: &mut u32,
) -> Result<Progress, Ending>
    ensures turns { KeepsTurns (T.facts turns.old) (T.facts turns.new) }
    ensures goes { GoesBeside client.old client.new
        (own_history (T.facts turns.old))
        (own_history (T.facts turns.new)) }
    ensures ended { IfOk result (λ p. p ≡ Progress.Ended → client.new.stage ≡ Stage.Closed false) }
    ensures cut { IfOk result (λ p. p ≢ Progress.Cut) }
{
    spend(left)?;
    match client.step(rt, turns) {
        Ok(Progress::Idle) => match client.flush() {
            Ok(()) => Ok(Progress::Idle),
            Err(_) => Err(Ending::Socket),
        },
        Ok(Progress::Cut) => Err(Ending::Socket),
        Ok(progress) => Ok(progress),
        Err(error) => Err(ending_of(error)),
    }
}

fn settle<Rt: Wait, T: CoreTurns, P: ReadTally + Drop, Q: WriteTally + Drop>(
    rt: &Rt,
    turns: &mut T,
    hosts: &mut [HostEngine<P, Q>],
    left: &mut u32,
) -> Result<(), Ending>
    ensures turns { KeepsTurns (T.facts turns.old) (T.facts turns.new) }
    ensures beside { IsBeside (own_history (T.facts turns.old))
        (own_history (T.facts turns.new)) }
    ensures rested { OnOk result (HaveRested (T.cause (T.facts turns.old).setting)
        (T.facts turns.old).seen (T.facts turns.new).seen hosts.new) }
{
    for _ in 0..MAX_ENGINE_STEPS {
        if step_hosts(rt, turns, hosts, left)? {
            return Ok(());
        }
    }
    Err(Ending::Socket)
}

// True: all were idle.
fn step_hosts<Rt: Wait, T: CoreTurns, P: ReadTally + Drop, Q: WriteTally + Drop>(
    rt: &Rt,
    turns: &mut T,
    hosts: &mut [HostEngine<P, Q>],
    left: &mut u32,
) -> Result<bool, Ending>
    ensures turns { KeepsTurns (T.facts turns.old) (T.facts turns.new) }
    ensures beside { IsBeside (own_history (T.facts turns.old))
        (own_history (T.facts turns.new)) }
    ensures idle { IfOk result (λ b. b ≡ true → AllZip
        (RestsIdle (T.cause (T.facts turns.old).setting)
        (T.facts turns.old).seen (T.facts turns.new).seen) hosts.old hosts.new) }
{
    let mut are_idle = true;
    for host in hosts.iter_mut() {
        if !step_host(rt, turns, host, left)? {
            are_idle = false;
        }
    }
    Ok(are_idle)
}

// True: it was idle.
fn step_host<Rt: Wait, T: CoreTurns, P: ReadTally + Drop, Q: WriteTally + Drop>(
    rt: &Rt,
    turns: &mut T,
    host: &mut HostEngine<P, Q>,
    left: &mut u32,
) -> Result<bool, Ending>
    ensures turns { KeepsTurns (T.facts turns.old) (T.facts turns.new) }
    ensures beside { IsBeside (own_history (T.facts turns.old))
        (own_history (T.facts turns.new)) }
    ensures idle { IfOk result (λ b. b ≡ true → RestsIdle (T.cause (T.facts turns.old).setting)
        (T.facts turns.old).seen (T.facts turns.new).seen host.old host.new) }
{
    spend(left)?;
    match host.step(rt, turns, MOMENT) {
        Ok(Progress::Idle) => Ok(true),
        Ok(Progress::NeedsLink) => Err(Ending::Socket),
        Ok(_) => Ok(false),
        Err(error) => Err(ending_of(error)),
    }
}

fn spend(left: &mut u32) -> Result<(), Ending>
    ensures ok { OnOk result (left.new + 1 ≡ left.old) }
    ensures err { IfErr result (λ e. (left.old ≡ 0) × (e ≡ Ending.Socket)) }
{
    if *left == 0 {
        return Err(Ending::Socket);
    }
    *left -= 1;
    Ok(())
}
