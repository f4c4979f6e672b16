//! The operator's listener and its visitors.

use crate::admin::Admin;
use crate::operated::Operated;
use crate::places::make_place;
use crate::visitor::{OwedOrder, Round, Visitor};
use limits::MAX_VISITORS;
use mio::net::TcpStream;
use mio::{Events, Interest, Poll, Token};
use proxy_config::Host;
use proxy_pages::{About, Admin as Answers, Snapshot};
use slab::Slab;
use std::alloc::{AllocError, Global};
use std::rt::Clock;
use std::sync::Wait;
use std::time::Duration;

/// The token of the operator's listener; a visitor's is its key in the slab.
pub(crate) const LISTENER: Token = Token(usize::MAX);

const MAX_EVENTS: usize = 64;

// The thread looks again after this many milliseconds at the latest.
const PAUSE_MS: u64 = 50;

pub(crate) struct Visits {
    alloc: Global,
    admin: Admin,
    poll: Poll,
    visitors: Slab<Visitor>,
}

impl Drop for Visits {
    fn drop(self) {
        let Visits {
            alloc: _,
            admin: _,
            poll: _,
            visitors: _,
        } = self;
    }
}

impl Visits {
    pub(crate) fn new(alloc: Global, admin: Admin, poll: Poll) -> Visits {
        Visits {
            alloc,
            admin,
            poll,
            visitors: Slab::new(alloc),
        }
    }

    pub(crate) fn serve<R: Wait + Clock + Eprint, S: Operated>(
        &mut self,
        rt: &R,
        server: &S,
        hosts: &[Host],
    ) {
        let Ok(mut events) = Events::with_capacity(self.alloc, MAX_EVENTS) else {
            return;
        };
        for _ in rt.forever() {
            if !server.runs() {
                return;
            }
            if let Err(error) = self
                .poll
                .poll(&mut events, Some(Duration::from_millis(PAUSE_MS)))
            {
                return server.log_silence(rt, error);
            }
            let moment = server.moment(rt);
            self.accept_visitors(moment);
            self.serve_visitors(rt, server, hosts, moment);
        }
        unreachable!()
    }

    // Where too many visitors are there, the one idle longest has to go.
    fn accept_visitors(&mut self, moment: u64) {
        for _ in 0..MAX_VISITORS {
            let Ok((stream, _)) = self.admin.listener.accept() else {
                return;
            };
            make_place(&mut self.visitors);
            let _ = self.open(stream, moment);
        }
    }

    fn register(&self, stream: &mut TcpStream) -> bool {
        let token = Token(self.visitors.vacant_key());
        let interests = Interest::READABLE | Interest::WRITABLE;
        self.poll
            .registry()
            .register(stream, token, interests)
            .is_ok()
    }

    // The socket is dropped where the poll refuses it or there is no memory.
    fn open(&mut self, mut stream: TcpStream, moment: u64) -> Result<(), AllocError> {
        self.visitors.reserve(1)?;
        if self.register(&mut stream) {
            let visitor = Visitor::new(self.alloc, self.admin.keys, stream, moment);
            drop(self.visitors.insert(visitor));
        }
        Ok(())
    }

    // Steps every visitor: they are few.
    fn serve_visitors<R: Wait + Eprint, S: Operated>(
        &mut self,
        rt: &R,
        server: &S,
        hosts: &[Host],
        moment: u64,
    ) {
        if self.visitors.is_empty() {
            return;
        }
        let mut snapshot = server.snapshot(rt, moment);
        snapshot.process = self.admin.process.process_use();
        let about = About {
            version: self.admin.version,
            kit: self.admin.kit,
            hosts,
        };
        for key in 0..self.visitors.capacity() {
            match self.serve_visitor(key, &about, &snapshot, moment) {
                Some(order) => order.carry_out(rt, server, moment),
                None => {}
            }
        }
    }

    fn serve_visitor(
        &mut self,
        key: usize,
        about: &About<'_>,
        snapshot: &Snapshot,
        moment: u64,
    ) -> Option<OwedOrder> {
        let visitor = self.visitors.get_mut(key)?;
        let Round { is_over, order } = visitor.answer(
            Answers::new(self.alloc, about, snapshot),
            moment,
        );
        if is_over {
            drop(self.visitors.try_remove(key));
        }
        order
    }
}
