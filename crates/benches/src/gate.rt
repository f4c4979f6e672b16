//! The speed of the gate, beside that of std's `Mutex`.
ghost use Rattle.std.specs.Prelude.{◌≡◌, [], IfOk};
ghost use Rattle.ticket_gate.specs.Gate.{IsSpareOf};

use crate::laden::{Laden, TurnWork, stirred};
use anyhow::{Result, bail};
use std::alloc::Global;
use std::rt::Clock;
use std::sync::{Mutex, Wait};
use std::thread;
use std::thread::Threads;
use std::time::{Duration, Instant};
use test_total::AdditionRefusal;
use ticket_gate::{Gate, Recorded, Seated, Spare, Turns};

const THREADS: [usize; 4] = [1, 2, 4, 8];

/// The turns of a trial that isn't timed.
const FEW_TURNS: u64 = 20_000;

/// The turns of a timed trial.
const MANY_TURNS: u64 = 400_000;

/// Work of some 200 ns.
const ROUNDS: u32 = 80;

/// The work of a thread: that of each turn, and the rounds after it.
#[derive(Clone, Copy)]
struct Work {
    inside: TurnWork,
    outside: u32,
}

const NO_WORK: Work = Work {
    inside: TurnWork {
        rounds: 0,
        stops: false,
    },
    outside: 0,
};

/// Work of 200 ns in each turn.
const SHORT: TurnWork = TurnWork {
    rounds: ROUNDS,
    stops: false,
};

/// The same, but one turn of 1,000 takes a millisecond.
const STOPPING: TurnWork = TurnWork {
    rounds: ROUNDS,
    stops: true,
};

const TIMED: [(&str, Work); 4] = [
    ("no work", NO_WORK),
    (
        "200 ns inside",
        Work {
            inside: SHORT,
            outside: 0,
        },
    ),
    (
        "200 ns inside and 400 outside",
        Work {
            inside: SHORT,
            outside: 2 * ROUNDS,
        },
    ),
    (
        "the same, and a stop of a millisecond in one turn of 1,000",
        Work {
            inside: STOPPING,
            outside: 2 * ROUNDS,
        },
    ),
];

#[derive(Clone, Copy)]
struct Trial {
    threads: usize,
    turns: u64,
    work: Work,
}

fn make_turns<T: Turns<Event = u64, Answer = u64, Refusal = AdditionRefusal>, R: Wait>(
    rt: &R,
    turns: &mut T,
    times: u64,
    outside: u32,
) -> u64 {
    let mut seed = 1;
    for _ in 0..times {
        let _ = turns.turn(rt, 1);
        seed = stirred(seed, outside);
    }
    seed
}

fn open<S: Recorded + Drop>(alloc: Global, state: S) -> Result<(Gate<S>, Spare<S>)>
    requires { S.journal state ≡ [] }
    ensures { IfOk result (λ made. IsSpareOf made.0 made.1) }
{
    match Gate::new(alloc, state) {
        Ok(made) => Ok(made),
        Err(refused) => {
            drop(refused);
            bail!("there is no memory for a gate")
        }
    }
}

fn seat_passes<'a, R: Wait>(
    rt: &R,
    alloc: Global,
    gate: &'a Gate<Laden>,
    spare: Spare<Laden>,
    passes: usize,
) -> Result<Vec<Seated<'a, Laden>>>
    requires { IsSpareOf gate.now spare }
{
    let mut seated = Vec::new(alloc);
    let mut spare = spare;
    for _ in 0..passes {
        let (rest, one) = gate.split(spare);
        spare = rest;
        let Ok(pass) = gate.enrol(rt, one) else {
            bail!("there is no place at the gate");
        };
        seated.push(Seated::new(gate, pass))?;
    }
    Ok(seated)
}

impl Trial {
    fn times(&self) -> u64 {
        self.turns / (self.threads as u64).max(1)
    }

    /// Each thread has its own pass. Returns the journal's length.
    fn at_a_gate<R: Threads + Wait + Sync>(&self, rt: &R, alloc: Global) -> Result<usize> {
        let (gate, spare) = open(alloc, Laden::new(alloc, self.work.inside))?;
        let (mine, spare) = gate.split(spare);
        let Ok(mine) = gate.enrol(rt, mine) else {
            bail!("there is no place at the gate");
        };
        let seated = seat_passes(rt, alloc, &gate, spare, self.threads)?;
        let times = self.times();
        let outside = self.work.outside;
        thread::map_vec(
            rt,
            seated,
            &|turns| {
                let mut turns = turns;
                make_turns(rt, &mut turns, times, outside)
            },
        )?;
        match gate.close(mine) {
            Some(state) => Ok(state.turns()),
            None => bail!("the gate's state is out"),
        }
    }

    /// Returns the journal's length.
    fn under_a_mutex<R: Threads + Wait + Sync>(&self, rt: &R, alloc: Global) -> Result<usize> {
        let state = Mutex::new(Laden::new(alloc, self.work.inside));
        let mut passes = Vec::new(alloc);
        for pass in 0..self.threads as u64 {
            passes.push(pass)?;
        }
        let shared = &state;
        let times = self.times();
        let outside = self.work.outside;
        thread::map_vec(
            rt,
            passes,
            &|pass| {
                let mut seed = 1;
                for _ in 0..times {
                    let _ = shared.lock(rt).turn(pass, 1);
                    seed = stirred(seed, outside);
                }
                seed
            },
        )?;
        Ok(state.into_inner().turns())
    }

    fn gate_speed<R: Threads + Wait + Sync + Clock>(&self, rt: &R, alloc: Global) -> Result<u128> {
        let start = Instant::now(rt)?;
        let turns = self.at_a_gate(rt, alloc)?;
        Ok(per_second(turns, start.elapsed(rt)?))
    }

    fn mutex_speed<R: Threads + Wait + Sync + Clock>(&self, rt: &R, alloc: Global) -> Result<u128> {
        let start = Instant::now(rt)?;
        let turns = self.under_a_mutex(rt, alloc)?;
        Ok(per_second(turns, start.elapsed(rt)?))
    }

    /// Makes the turns both ways, and prints the turns a second.
    fn print_speeds<R: Threads + Wait + Sync + Clock + Print>(
        &self,
        rt: &R,
        alloc: Global,
        name: &str,
    ) -> Result<()> {
        let by_gate = self.gate_speed(rt, alloc)?;
        let by_mutex = self.mutex_speed(rt, alloc)?;
        println!(rt;
            "threads {}, {name}: {by_gate} a second at a gate, {by_mutex} under a mutex",
            self.threads
        )?;
        Ok(())
    }
}

fn per_second(turns: usize, time: Duration) -> u128 {
    turns as u128 * 1_000_000_000 / time.as_nanos().max(1)
}

/// Prints the lengths of the journals.
pub(crate) fn print_few<R: Threads + Wait + Sync + Print>(rt: &R, alloc: Global) -> Result<()> {
    for threads in THREADS {
        let few = Trial {
            threads,
            turns: FEW_TURNS,
            work: NO_WORK,
        };
        let at_gate = few.at_a_gate(rt, alloc)?;
        let under_mutex = few.under_a_mutex(rt, alloc)?;
        println!(rt; "threads {threads}: {at_gate} turns at a gate, {under_mutex} under a mutex")?;
    }
    Ok(())
}

/// Prints the turns a second.
pub(crate) fn print_speeds<R: Threads + Wait + Sync + Clock + Print>(
    rt: &R,
    alloc: Global,
) -> Result<()> {
    for threads in THREADS {
        for (name, work) in TIMED {
            let many = Trial {
                threads,
                turns: MANY_TURNS,
                work,
            };
            many.print_speeds(rt, alloc, name)?;
        }
    }
    Ok(())
}
