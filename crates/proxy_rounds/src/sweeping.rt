//! The sweeping thread: sweeps when due, and watches hosts and journal.
ghost use Rattle.std.specs.Prelude.{◌≡◌, ◌<◌, []};
ghost use Rattle.proxy_connections.specs.WorkerConnections.{steps_of};

use crate::generation_state::{GenerationState, ThreadContext};
use journal_room::MeteredTurns;
use mio::Waker;
use proxy_config::Config;
use proxy_core::Handover;
use proxy_exit_status::Ending;
use proxy_generations::{At, Look, Marks, Phase};
use proxy_serve_core::{EjectedHost, EjectionReason, Refusals};
use proxy_server::{Inherited, Level, Log, Stop, now};
use proxy_stats::{Sight, TalliedCore};
use std::marker::Model;
use std::net::SocketAddr;
use std::rt::Clock;
use std::sync::Wait;
use std::time::Duration;
use std::{mem, thread};
use sweeper::{SweepRefusal, Swept, sweep_once};
use ticket_gate::Seated;

// The milliseconds between two looks of the generation that serves, and of one that drains.
const SERVING_PAUSE_MS: u64 = 5;

const DRAINING_PAUSE_MS: u64 = 20;

/// Sweeps, logs which hosts are ejected and return, and asks for the next generation in time. At all times none of its pass's
/// steps is of a host.
pub(crate) struct SweepThread<'a> {
    turns: MeteredTurns<Seated<'a, TalliedCore>>,
    generation: &'a GenerationState<'a>,
    config: &'a Config,
    marks: Marks,
    // The wakers for new sockets, used once the generation opens.
    wakers: Vec<Waker>,
    refusals: Refusals,
    // The number of commands that the hosts had answered at the last look.
    answered: u64,
    // The moment of a sweep since then that ejected hosts.
    ejected_at: Option<u64>,
}

impl Drop for SweepThread<'_> {
    fn drop(self) {
        let SweepThread {
            turns: _,
            generation: _,
            config: _,
            marks: _,
            wakers: _,
            refusals: _,
            answered: _,
            ejected_at: _,
        } = self;
    }
}

impl<'a> Model for SweepThread<'a> {
    ghost use Rattle.std.specs.Prelude.{ℕ};
    ghost use Rattle.proxy_connections.specs.Places.{HasNoHostStep};
    ghost use Rattle.proxy_connections.specs.WorkerConnections.{steps_of};

    ghost Value = { ℕ };

    ghost view = { λ s. s.turns.turns.pass.number };

    ghost invariant = { λ s. HasNoHostStep (steps_of s.turns.turns) };
}

impl<'a> SweepThread<'a> {
    pub(crate) fn new(
        context: ThreadContext<'a>,
        seat: Seated<'a, TalliedCore>,
        wakers: Vec<Waker>,
    ) -> SweepThread<'a>
        requires { steps_of seat ≡ [] }
        ensures { result ≡ seat.entry.pass.number }
    {
        let ThreadContext {
            alloc: _,
            generation,
            config,
            behind: _,
            marks,
        } = context;
        SweepThread {
            turns: MeteredTurns::new(seat),
            generation,
            config,
            marks,
            wakers,
            refusals: Refusals::new(),
            answered: 0,
            ejected_at: None,
        }
    }

    /// Opens the generation once all its threads have come. Sweeps until that is drained or the server ends, or ends
    /// the server.
    pub(crate) fn run<R: Wait + Clock + Eprint>(mut self, rt: &R) {
        if !self.generation.wait_for_all(rt) {
            return;
        }
        if let Err(stop) = self.open_and_sweep(rt) {
            self.generation.line().end(rt, stop);
        }
    }

    // The generation at this moment.
    fn at(&self, now: u64) -> At {
        At {
            number: self.generation.number(),
            now,
        }
    }

    // The operator's pages show what the newest open generation recorded last, so it looks before it opens.
    fn open_and_sweep<R: Wait + Clock + Eprint>(&mut self, rt: &R) -> Result<(), Stop> {
        self.sight(rt)?;
        self.open(rt);
        self.sweep_on(rt)
    }

    // Opens the generation: new sockets come to it, and its workers are woken for them.
    fn open<R: Wait + Clock>(&mut self, rt: &R) {
        let alloc = *self.wakers.allocator();
        let wakers = mem::replace(&mut self.wakers, Vec::new(alloc));
        self.generation.line().open(rt, self.at(now(rt)), wakers);
    }

    fn sweep_on<R: Wait + Clock + Eprint>(&mut self, rt: &R) -> Result<(), Stop> {
        for _ in rt.forever() {
            if self.ends(rt) {
                return Ok(());
            }
            let phase = self.generation.phase();
            let moment = now(rt);
            if phase != Phase::Stopped {
                self.sweep_if_due(rt, moment)?;
            }
            self.look(rt, phase, moment)?;
            thread::sleep(rt, Duration::from_millis(pause(phase)));
        }
        unreachable!()
    }

    // Whether the server ends, or the generation is drained, which is reported.
    fn ends<R: Wait>(&self, rt: &R) -> bool {
        let line = self.generation.line();
        if line.runs() && self.generation.is_drained() {
            line.drained(rt, self.generation.number());
            return true;
        }
        !line.runs()
    }

    fn sweep_if_due<R: Wait>(&mut self, rt: &R, moment: u64) -> Result<(), Stop> {
        let (line, at) = (self.generation.line(), self.at(moment));
        if line.is_sweep_due(rt, at) && self.sweep(rt, moment)? {
            line.swept(rt, at);
        }
        Ok(())
    }

    // Sweeps once, if the journal has a step to spare. False: it has to be made again.
    fn sweep<R: Wait>(&mut self, rt: &R, moment: u64) -> Result<bool, Stop> {
        if !self.generation.room.lend_steps(rt, &mut self.turns, 1) {
            return Ok(false);
        }
        let swept = sweep_once(rt, &mut self.turns, moment);
        self.ejected_at = ejected_at(&swept, moment);
        self.generation.room.settle(rt, &mut self.turns, 0);
        match swept {
            Ok(_) | Err(SweepRefusal::JournalFull) => {
                self.refusals.succeeded();
                Ok(true)
            }
            Err(SweepRefusal::NoMemory) => {
                if self.refusals.refused() {
                    return Err(Stop::from(Ending::Memory));
                }
                Ok(false)
            }
            Err(SweepRefusal::Spent) => Err(Stop::from(Ending::Spent)),
        }
    }

    // The core's state, which is also recorded for the operator's pages.
    fn sight<R: Wait>(&mut self, rt: &R) -> Result<Sight, Stop> {
        match self.turns.sight(rt) {
            Ok(sight) => {
                let line = self.generation.line();
                line.looked(rt, self.generation.number(), &sight);
                Ok(sight)
            }
            Err(_) => Err(Stop::from(Ending::Spent)),
        }
    }

    // Looks at the core: a draining generation reports that hosts still answer, a serving one what hosts and its journal
    // came to.
    fn look<R: Wait + Eprint>(&mut self, rt: &R, phase: Phase, moment: u64) -> Result<(), Stop> {
        let Sight {
            handover,
            counts,
            ..
        } = self.sight(rt)?;
        if phase == Phase::Serving {
            self.answered = counts.answered;
            self.log_ejections(rt, &handover);
            self.ejected_at = None;
            self.report_marks(rt, handover, moment);
        } else {
            self.report_progress(rt, counts.answered, moment);
        }
        Ok(())
    }

    // Reports that hosts have answered since the last look.
    fn report_progress<R: Wait>(&mut self, rt: &R, answered: u64, moment: u64) {
        if mem::replace(&mut self.answered, answered) != answered {
            let at = self.at(moment);
            self.generation.line().progressed(rt, at);
        }
    }

    // Reports a journal that is nearly full, and one that has reached its marks or takes in nothing more.
    fn report_marks<R: Wait>(&self, rt: &R, handover: Handover, moment: u64) {
        let (line, at) = (self.generation.line(), self.at(moment));
        let room = &self.generation.room;
        let report = self.marks.report(Look {
            made: handover.steps(),
            spent: room.spent(rt),
            bytes: handover.bytes(),
            is_full: room.is_full(),
        });
        if report.near {
            line.near(rt, at);
        }
        if report.full {
            let average = room.average(rt);
            line.full(rt, at, Inherited { handover, average });
        }
    }

    // Logs each host that has been ejected or has returned since the last look of any generation of the line, if no other line
    // has it ejected.
    fn log_ejections<R: Wait + Eprint>(&self, rt: &R, sight: &Handover) {
        let (line, number) = (self.generation.line(), self.generation.number());
        let mut ejections = line.ejections(rt);
        let hosts = sight.rules().hosts;
        for (host, entry) in self.config.hosts.iter().enumerate() {
            if host >= hosts {
                return;
            }
            let seen = self.ejected_host(sight, host);
            if ejections.note(number, host, seen) && line.note_out(rt, host, seen.is_some()) {
                match seen {
                    Some(ejected) => self.log_ejected(rt, entry.address, sight, ejected),
                    None => log_back(rt, line.log(), entry.address),
                }
            }
        }
    }

    // A sweep ejects by rates, all else by streaks.
    fn ejected_host(&self, sight: &Handover, host: usize) -> Option<EjectedHost>
        requires { host < sight.now.detection.rules.hosts }
    {
        if !sight.is_out(host) {
            return None;
        }
        let at = sight.ejected_at(host);
        let reason = match self.ejected_at {
            Some(moment) if at >= moment => EjectionReason::Rate,
            Some(_) | None => EjectionReason::Streak,
        };
        Some(EjectedHost {
            reason,
            at,
            until: at.saturating_add(sight.ejection_ms(host)),
        })
    }

    fn log_ejected<R: Eprint>(
        &self,
        rt: &R,
        address: SocketAddr,
        sight: &Handover,
        ejected: EjectedHost,
    ) {
        let tag = self.generation.line().log().tag(Level::Warning);
        let ms = ejected.until.saturating_sub(ejected.at);
        let _ = match ejected.reason {
            EjectionReason::Rate => eprintln!(rt;
                "{tag}redproxy: host {address} is put aside for {ms} ms, for its share of failures"
            ),
            EjectionReason::Streak => {
                let many = sight.rules().settings.consecutive;
                eprintln!(rt;
                    "{tag}redproxy: host {address} is put aside for {ms} ms, after {many} failures in a row"
                )
            }
        };
    }
}

fn pause(phase: Phase) -> u64 {
    match phase {
        Phase::Serving => SERVING_PAUSE_MS,
        Phase::Unopened | Phase::Draining | Phase::GivingUp | Phase::Stopped => DRAINING_PAUSE_MS,
    }
}

// The moment of a sweep, if it ejected hosts.
fn ejected_at(swept: &Result<Swept, SweepRefusal>, moment: u64) -> Option<u64> {
    match swept {
        Ok(counts) if counts.ejected > 0 => Some(moment),
        Ok(_) | Err(_) => None,
    }
}

fn log_back<R: Eprint>(rt: &R, log: Log, address: SocketAddr) {
    let tag = log.tag(Level::Notice);
    let _ = eprintln!(rt; "{tag}redproxy: host {address} is back");
}
