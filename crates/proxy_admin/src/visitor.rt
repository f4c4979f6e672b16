ghost use Rattle.std.specs.Prelude.{◌≡◌, ◌↔◌, ◌-◌, IsTrue};
ghost use Rattle.http_server.specs.Connection.{history};
ghost use Rattle.proxy_admin.specs.Visits.{AreAnswered, IsOver, moved_at, owed};
ghost use Rattle.proxy_pages.specs.declared.admin.Admin.{Admin as AnswersOf};

use crate::operated::Operated;
use http_server::{Config as Limits, Connection};
use limits::{MAX_BODY, MAX_HEAD, VISIT_MS};
use mio::net::TcpStream;
use proxy_pages::{Admin as Answers, Order};
use std::alloc::Global;
use std::hash::RandomState;
use std::io;
use std::io::ErrorKind;
use std::sync::Wait;

// The most reads and writes of one visitor in a round.
const MAX_MOVES: u32 = 16;

const VISIT_READ_SIZE: usize = 1_024;

fn limits() -> Limits {
    let mut limits = Limits::default();
    limits.limits.max_head_len = MAX_HEAD;
    limits.max_body_len = MAX_BODY;
    limits.max_pending = 0;
    limits.read_size = VISIT_READ_SIZE;
    limits
}

// The socket isn't ready, or a signal came.
fn is_pause(error: &io::Error) -> bool {
    error.kind() == ErrorKind::WouldBlock || error.kind() == ErrorKind::Interrupted
}

#[derive(Clone, Copy, Drop)]
enum Moved {
    Nothing,
    Something,
    Gone,
}

/// An order that a visitor gave. It has no `Drop`: it has to be carried out.
pub(crate) struct OwedOrder {
    order: Order,
}

impl OwedOrder {
    pub(crate) fn carry_out<R: Wait + Eprint, S: Operated>(self, rt: &R, server: &S, moment: u64) {
        let OwedOrder { order } = self;
        server.obey(rt, order, moment);
    }
}

fn owed(order: Option<Order>) -> Option<OwedOrder>
    ensures { result ≡ owed order }
{
    match order {
        Some(order) => Some(OwedOrder { order }),
        None => None,
    }
}

/// What came of a visitor's round.
pub(crate) struct Round {
    pub(crate) is_over: bool,
    pub(crate) order: Option<OwedOrder>,
}

pub(crate) struct Visitor {
    connection: Connection,
    stream: TcpStream,
    // When bytes last moved, in milliseconds.
    moved: u64,
}

impl Drop for Visitor {
    fn drop(self) {
        let Visitor {
            connection: _,
            stream: _,
            moved: _,
        } = self;
    }
}

impl Visitor {
    pub(crate) fn new(alloc: Global, keys: RandomState, stream: TcpStream, moment: u64) -> Visitor {
        Visitor {
            connection: Connection::new(alloc, keys, limits()),
            stream,
            moved: moment,
        }
    }

    pub(crate) fn moved(&self) -> u64
        ensures { result ≡ self.now.moved }
    {
        self.moved
    }

    // Writes once what is pending, or reads once.
    fn move_bytes(&mut self) -> io::Result<usize>
        ensures calls { (history self.new.connection).calls ≡ (history self.old.connection).calls }
        ensures moved { self.new.moved ≡ self.old.moved }
    {
        if self.connection.wants_write() {
            self.connection.write_to(&mut self.stream)
        } else {
            self.connection.read_from(&mut self.stream)
        }
    }

    fn answer_requests(&mut self, answers: &mut Answers<'_>) -> Moved
        ensures answered { AreAnswered answers.old answers.new self.old self.new }
        ensures moved { self.new.moved ≡ self.old.moved }
    {
        let mut moved = Moved::Nothing;
        for _ in 0..MAX_MOVES {
            self.connection.advance(answers);
            if self.connection.is_done() {
                return Moved::Gone;
            }
            match self.move_bytes() {
                Ok(_) => moved = Moved::Something,
                Err(error) if is_pause(&error) => return moved,
                Err(_) => return Moved::Gone,
            }
        }
        moved
    }

    /// Answers requests until the socket has to wait. An idle visit is over after `VISIT_MS` milliseconds.
    pub(crate) fn answer(&mut self, mut answers: Answers<'_>, moment: u64) -> Round
        ensures answered { (last : AnswersOf) × AreAnswered answers.entry last self.old self.new
            × (result.order ≡ owed last.order) }
    {
        let moved = self.answer_requests(&mut answers);
        let order = owed(answers.order());
        drop(answers);
        Round {
            is_over: self.is_over(moved, moment),
            order,
        }
    }

    // Whether the visit is over after a round with this result.
    fn is_over(&mut self, moved: Moved, moment: u64) -> bool
        ensures over { IsTrue result ↔ IsOver moved (moment - self.old.moved) }
        ensures moved { self.new
            ≡ record self.old { moved = moved_at moved self.old.moved moment } }
    {
        match moved {
            Moved::Something => {
                self.moved = moment;
                false
            }
            Moved::Nothing => moment.saturating_sub(self.moved) >= VISIT_MS,
            Moved::Gone => true,
        }
    }
}
