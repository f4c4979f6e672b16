ghost use Rattle.std.specs.Prelude.{◌≡◌, ◌≤◌, ◌<◌, ◌⊎◌, IfOk, IfErr, OnOk, length, true};
ghost use Rattle.stub_server.specs.Session.{left_of, steps_of};

use crate::error::StubError;
use crate::reply::Reply;
use crate::stub::{Response, Stub};
use crate::unread::{MAX_UNREAD, Unread};
use resp_core::{Limits, Reader, RespError, Value};
use std::alloc::Global;
use std::io::ErrorKind;
use std::mem;

/// The most bytes that one write takes.
pub const MAX_TAKEN: usize = 65_536;

#[derive(Drop)]
pub(crate) enum SessionStep {
    Read,
    Serve(Value),
    Say(Reply),
    Garble,
}

#[derive(Drop)]
pub(crate) struct Session {
    pub(crate) stub: Stub,
    requests: Reader,
    next: SessionStep,
    replies: Unread,
    // No further request is read.
    is_over: bool,
}

impl Session {
    pub(crate) fn new(alloc: Global) -> Session {
        Session {
            stub: Stub::new(alloc),
            requests: Reader::new(alloc, Limits::CLIENT),
            next: SessionStep::Read,
            replies: Unread::new(alloc),
            is_over: false,
        }
    }

    // It takes no bytes while earlier requests wait for memory or for room.
    pub(crate) fn write(&mut self, bytes: &[u8]) -> Result<usize, ErrorKind>
        ensures taken { IfOk result (λ n. n ≤ length bytes.now) }
        ensures kinds { IfErr result
            (λ kind. (kind ≡ ErrorKind.WouldBlock) ⊎ (kind ≡ ErrorKind.BrokenPipe)) }
    {
        let waits = !self.serve_all();
        if self.is_over {
            return Err(ErrorKind::BrokenPipe);
        }
        let taken = bytes.len().min(MAX_TAKEN);
        if waits || self.requests.feed(&bytes[..taken]).is_err() {
            return Err(ErrorKind::WouldBlock);
        }
        self.serve_all();
        Ok(taken)
    }

    // It returns 0 only at the end or for an empty buffer. `WouldBlock`: nothing is left before the end.
    pub(crate) fn read(&mut self, buffer: &mut [u8]) -> Result<usize, ErrorKind>
        ensures given { IfOk result (λ n. n ≤ length buffer.new) }
        ensures kinds { IfErr result (λ kind. kind ≡ ErrorKind.WouldBlock) }
    {
        self.serve_all();
        let given = self.replies.give(buffer);
        if given > 0 || self.is_over || buffer.is_empty() {
            return Ok(given);
        }
        Err(ErrorKind::WouldBlock)
    }

    // True: none is left.
    fn serve_all(&mut self) -> bool {
        while self.replies.len() < MAX_UNREAD {
            match self.go_on() {
                Ok(true) => {}
                Ok(false) => return true,
                Err(_) => return false,
            }
        }
        false
    }

    // False: there was none. A step without memory is made again later.
    fn go_on(&mut self) -> Result<bool, StubError>
        ensures falls { IfOk result (λ went. went ≡ true → left_of self.new < left_of self.old) }
    {
        match mem::replace(&mut self.next, SessionStep::Read) {
            SessionStep::Read => self.read_request(),
            SessionStep::Serve(request) => {
                self.serve(request)?;
                Ok(true)
            }
            SessionStep::Say(reply) => {
                self.say(reply)?;
                Ok(true)
            }
            SessionStep::Garble => {
                self.garble()?;
                Ok(true)
            }
        }
    }

    // False: none has come.
    fn read_request(&mut self) -> Result<bool, StubError>
        requires next { self.old.next ≡ SessionStep.Read }
        ensures falls { IfOk result (λ came. came ≡ true → left_of self.new < left_of self.old) }
    {
        if self.is_over {
            return Ok(false);
        }
        match self.requests.next_value() {
            Ok(Some(request)) => {
                self.then(SessionStep::Serve(request));
                Ok(true)
            }
            Ok(None) => Ok(false),
            Err(RespError::NoMemory) => Err(StubError::NoMemory),
            Err(_) => {
                self.is_over = true;
                Ok(false)
            }
        }
    }

    fn serve(&mut self, request: Value) -> Result<(), StubError>
        requires next { self.old.next ≡ SessionStep.Read }
        ensures requests { self.new.requests ≡ self.old.requests }
        ensures next { OnOk result (steps_of self.new.next ≤ 1) }
    {
        match self.serve_by_script(&request) {
            Ok(next) => {
                drop(request);
                self.then(next);
                Ok(())
            }
            Err(error) => {
                self.then(SessionStep::Serve(request));
                Err(error)
            }
        }
    }

    fn serve_by_script(&mut self, request: &Value) -> Result<SessionStep, StubError>
        ensures requests { (self.new.requests ≡ self.old.requests)
            × (self.new.next ≡ self.old.next) }
        ensures next { IfOk result (λ next. steps_of next ≤ 1) }
    {
        match self.stub.serve(request)? {
            Response::Answer(value) => Ok(SessionStep::Say(Reply { value })),
            Response::Silence => Ok(SessionStep::Read),
            Response::End => {
                self.is_over = true;
                Ok(SessionStep::Read)
            }
            Response::Garbage => Ok(SessionStep::Garble),
        }
    }

    fn say(&mut self, reply: Reply) -> Result<(), StubError>
        requires next { self.old.next ≡ SessionStep.Read }
        ensures requests { self.new.requests ≡ self.old.requests }
        ensures next { OnOk result (self.new.next ≡ SessionStep.Read) }
    {
        match self.replies.put(&reply) {
            Ok(()) => {
                drop(reply);
                Ok(())
            }
            Err(error) => {
                self.then(SessionStep::Say(reply));
                Err(error)
            }
        }
    }

    fn garble(&mut self) -> Result<(), StubError>
        requires next { self.old.next ≡ SessionStep.Read }
        ensures requests { self.new.requests ≡ self.old.requests }
        ensures next { OnOk result (self.new.next ≡ SessionStep.Read) }
    {
        let said = self.replies.put_garbage();
        if said.is_err() {
            self.then(SessionStep::Garble);
        }
        said
    }

    fn then(&mut self, next: SessionStep)
        ensures { self.new ≡ record self.old { next = next } }
    {
        drop(mem::replace(&mut self.next, next));
    }
}
