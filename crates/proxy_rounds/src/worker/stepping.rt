//! How a worker steps its hosts and clients in a round.
ghost use Rattle.std.specs.Prelude.{IfOk};
ghost use Rattle.proxy_connections.specs.WorkerConnections.{LetsGo, MayCarry};

use super::{ALL_CLIENTS_MS, Remaining, Worker};
use proxy_connections::{ClientResult, HostResult, HostStepped, StepError, Stepped};
use proxy_serve_core::KeyRange;
use proxy_server::Stop;
use std::net::{Net, SocketAddr};
use std::sync::Wait;

impl Worker<'_> {
    pub(super) fn step_hosts<R: Wait + Net + Eprint>(&mut self, rt: &R) -> Result<Remaining, Stop> {
        let notices = self.generation.notices();
        let pressed = notices.pressed();
        self.connections.hear(notices);
        let mut remaining = Remaining::Nothing;
        for index in 0..self.connections.host_count() {
            remaining = remaining.or(self.step_host(rt, index)?);
        }
        self.clear_pressed(pressed);
        Ok(remaining)
    }

    fn step_host<R: Wait + Net + Eprint>(
        &mut self,
        rt: &R,
        index: usize,
    ) -> Result<Remaining, Stop> {
        let round = self
            .generation
            .round(self.poll.registry(), self.mode, self.now, self.came_us);
        let Some(
            HostResult {
                stepped,
                address,
                may_go,
            },
        ) = self.connections.step_host(rt, round, index)
        else {
            return Ok(Remaining::Nothing);
        };
        self.handle_host(rt, address, stepped)?;
        Ok(Remaining::work_if(may_go))
    }

    fn handle_host<R: Wait + Eprint>(
        &mut self,
        rt: &R,
        address: SocketAddr,
        stepped: Result<HostStepped, StepError>,
    ) -> Result<(), Stop> {
        match stepped {
            Ok(HostStepped::Done) => Ok(()),
            Ok(HostStepped::Faulty(lost_link)) => {
                self.handle_fault(rt, address, lost_link);
                Ok(())
            }
            Err(error) => self.handle_step_error(error),
        }
    }

    // Clears the worker's hosts from those for which clients are held back, unless a link is still connecting.
    fn clear_pressed(&self, pressed: u64) {
        if pressed == 0 || self.connections.is_connecting(self.now.ms) {
            return;
        }
        if self.generation.notices().mark_seen(self.index(), pressed) {
            self.generation.wake_held(self.index());
        }
    }

    // Steps each ready client once, beginning where the last round stopped.
    pub(super) fn step_clients<R: Wait + Net + Eprint>(
        &mut self,
        rt: &R,
    ) -> Result<Remaining, Stop> {
        self.is_held_back = false;
        self.find_ready(rt);
        let mut remaining = Remaining::Nothing;
        for range in KeyRange::round_from(self.next) {
            if self.is_held_back {
                return Ok(Remaining::Work);
            }
            remaining = remaining.or(self.step_ready(rt, range)?);
        }
        Ok(remaining)
    }

    // Makes clients ready to which replies came, and all clients each `ALL_CLIENTS_MS`: some things come by the clock alone, and no
    // client may depend on a notice.
    fn find_ready<R: Wait + Eprint>(&mut self, rt: &R) {
        self.connections.hear(self.generation.notices());
        if self.now.ms.saturating_sub(self.looked_at) >= ALL_CLIENTS_MS {
            self.looked_at = self.now.ms;
            self.connections.make_all_ready();
            self.close_stalled(rt);
            self.close_idle();
        }
    }

    // Steps each ready client with a key of this range, until clients are held back.
    fn step_ready<R: Wait + Net + Eprint>(
        &mut self,
        rt: &R,
        range: KeyRange,
    ) -> Result<Remaining, Stop> {
        let mut remaining = Remaining::Nothing;
        let mut from = range.begin;
        for _ in 0..self.connections.capacity() {
            let Some(key) = self.connections.next_ready(from, range.end) else {
                break;
            };
            if self.must_hold_back() {
                self.take_parts_before(rt, key)?;
            }
            if self.is_held_back {
                return Ok(Remaining::Work);
            }
            remaining = remaining.or(self.step_client(rt, key)?);
            from = key.saturating_add(1);
        }
        Ok(remaining)
    }

    // Whether clients must wait until other workers have looked at their hosts. Those that take nothing in needn't.
    pub(super) fn must_hold_back(&self) -> bool {
        !self.mode.drains && self.generation.must_hold_back()
    }

    // Steps the hosts, for whose parts clients are held back. Where others' hosts need that too, clients wait from this one on.
    fn take_parts_before<R: Wait + Net + Eprint>(
        &mut self,
        rt: &R,
        key: usize,
    ) -> Result<(), Stop> {
        self.step_hosts(rt)?;
        if self.must_hold_back() {
            self.hold_back(key);
        } else {
            self.connections.hear(self.generation.notices());
        }
        Ok(())
    }

    // Holds clients back from this one on.
    fn hold_back(&mut self, key: usize) {
        self.generation.wake_behind(self.index());
        self.next = key;
        self.is_held_back = true;
    }

    // Gives the socket to the worker of this index in the newest generation. Without memory it stays for now.
    fn carry_over<R: Wait>(&mut self, rt: &R, key: usize) -> Result<Remaining, Stop>
        requires { MayCarry self.old.connections.clients key }
    {
        let line = self.generation.line();
        if !line.reserve_to_carry(rt, self.index()) {
            if let Some(error) = self.connections.count_no_memory(key) {
                self.handle_step_error(error)?;
            }
            return Ok(Remaining::Work);
        }
        let round = self
            .generation
            .round(self.poll.registry(), self.mode, self.now, self.came_us);
        let carried = self.connections.carry(round, key);
        line.carry(rt, self.index(), carried);
        Ok(Remaining::Nothing)
    }

    fn step_client<R: Wait>(&mut self, rt: &R, key: usize) -> Result<Remaining, Stop> {
        if self.mode.drains {
            self.connections.drain(key);
        }
        let round = self
            .generation
            .round(self.poll.registry(), self.mode, self.now, self.came_us);
        let Some(
            ClientResult {
                stepped,
                has_closed,
            },
        ) = self.connections.step_client(rt, round, key)
        else {
            return Ok(Remaining::Nothing);
        };
        if has_closed {
            self.generation.line().count_closed();
        }
        self.handle_stepped(rt, key, stepped)
    }

    fn handle_stepped<R: Wait>(
        &mut self,
        rt: &R,
        key: usize,
        stepped: Result<Stepped, StepError>,
    ) -> Result<Remaining, Stop>
        requires { IfOk stepped (λ s. LetsGo s self.old.connections.clients key) }
    {
        match stepped {
            Ok(Stepped::Idle) => Ok(Remaining::Nothing),
            Ok(Stepped::Ready) => Ok(Remaining::Work),
            Ok(Stepped::Closed) => {
                self.connections.remove(self.generation.notices(), key);
                Ok(Remaining::Nothing)
            }
            Ok(Stepped::CarriedOver) => self.carry_over(rt, key),
            Err(error) => {
                self.handle_step_error(error)?;
                Ok(Remaining::Work)
            }
        }
    }
}
