//! How a worker opens the sockets in its queue.
ghost use Rattle.slab.specs.Slab.{HasRoomFor};

use super::{MAX_OPENED, Remaining, Worker};
use journal_room::OpenConnection;
use mio::Token;
use open_sockets::AdmittedStream;
use proxy_connections::{CarriedSocket, StepError};
use proxy_exit_status::Ending;
use proxy_generations::Phase;
use proxy_server::Stop;
use std::sync::Wait;

impl Worker<'_> {
    fn count_refusal(&mut self) -> Result<(), Stop> {
        self.lacks_memory = true;
        self.may_have_sockets = true;
        if self.opening.refused() {
            Err(Stop::from(Ending::Memory))
        } else {
            Ok(())
        }
    }

    fn handle_open_error(&mut self, error: StepError) -> Result<(), Stop> {
        match error {
            StepError::Memory => self.count_refusal(),
            StepError::Full | StepError::Ends(_) | StepError::EndsOne => self.handle_step_error(
                error,
            ),
        }
    }

    // Borrows room for one more connection and a command of it. False: the generation doesn't serve, or its journal has no such
    // room, and takes nothing more in.
    fn borrow_to_open<R: Wait>(&mut self, rt: &R) -> bool {
        if self.generation.worker_phase() != Phase::Serving {
            return false;
        }
        let has_room = self
            .connections
            .borrow_for_client(rt, &self.generation.room);
        if !has_room {
            self.generation.room.stop_accepting();
        }
        has_room
    }

    // Opens the sockets in the worker's queue, carried-over ones first. Each is counted before the phase is read: so
    // none comes to a generation that has drained. One that drains already counts none.
    pub(super) fn open_sockets<R: Wait>(&mut self, rt: &R) -> Result<(), Stop> {
        self.may_have_sockets = false;
        if self.generation.worker_phase() != Phase::Serving {
            return Ok(());
        }
        for _ in 0..MAX_OPENED {
            if !self.generation.line().has_waiting(rt, self.index()) {
                return Ok(());
            }
            let Ok(connection) = self.generation.room.count_opened() else {
                return self.count_refusal();
            };
            if !self.borrow_to_open(rt) || self.open_next(rt, connection)? == Remaining::Nothing {
                return Ok(());
            }
        }
        self.may_have_sockets = true;
        Ok(())
    }

    // Opens the first socket in the worker's queue, a carried-over one first. `Work`: others may wait. `Nothing`: none does, or it
    // can't be opened for now.
    fn open_next<R: Wait>(
        &mut self,
        rt: &R,
        connection: OpenConnection,
    ) -> Result<Remaining, Stop> {
        let line = self.generation.line();
        if !self.connections.reserve_slot() {
            self.count_refusal()?;
            return Ok(Remaining::Nothing);
        }
        if let Some(carried) = line.take_carried(rt, self.index()) {
            return self.open_carried(rt, carried, connection);
        }
        match line.pop(rt, self.index()) {
            Some(stream) => self.open(rt, stream, connection),
            None => Ok(Remaining::Nothing),
        }
    }

    fn open_carried<R: Wait>(
        &mut self,
        rt: &R,
        carried: CarriedSocket,
        connection: OpenConnection,
    ) -> Result<Remaining, Stop>
        requires { HasRoomFor self.old.connections.clients 1 }
    {
        let round = self
            .generation
            .round(self.poll.registry(), self.mode, self.now, self.came_us);
        match self
            .connections
            .open_carried(rt, round, carried, connection)
        {
            Ok(()) => {
                self.opening.succeeded();
                Ok(Remaining::Work)
            }
            Err((error, carried)) => self.refuse_carried(rt, error, carried),
        }
    }

    // The socket waits in the queue again where there is no memory or no step left; else, where its connection can't be
    // opened, its buffered bytes are written and it is closed.
    fn refuse_carried<R: Wait>(
        &mut self,
        rt: &R,
        error: StepError,
        carried: CarriedSocket,
    ) -> Result<Remaining, Stop> {
        let line = self.generation.line();
        self.handle_open_error(error)?;
        if error.ends_one() {
            drop(carried);
            line.count_closed();
            return Ok(Remaining::Work);
        }
        line.carry_back(rt, self.index(), carried);
        Ok(Remaining::Nothing)
    }

    // A socket whose connection can't be opened is dropped.
    fn open<R: Wait>(
        &mut self,
        rt: &R,
        mut stream: AdmittedStream,
        connection: OpenConnection,
    ) -> Result<Remaining, Stop>
        requires { HasRoomFor self.old.connections.clients 1 }
    {
        let token = Token(self.connections.vacant_key());
        if stream.register(self.poll.registry(), token).is_err() {
            return Ok(Remaining::Work);
        }
        let round = self
            .generation
            .round(self.poll.registry(), self.mode, self.now, self.came_us);
        match self.connections.open(rt, round, stream, connection) {
            Ok(()) => self.opening.succeeded(),
            Err(error) => self.handle_open_error(error)?,
        }
        Ok(Remaining::Work)
    }
}
