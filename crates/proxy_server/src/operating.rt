use crate::log::Level;
use crate::moment::now;
use crate::server::Server;
use proxy_admin::Operated;
use proxy_pages::{Order, Snapshot};
use std::io::Error;
use std::rt::Clock;
use std::sync::Wait;

impl<C: Drop> Operated for Server<C> {
    fn runs(&self) -> bool {
        Server::runs(self)
    }

    fn moment<R: Clock>(&self, rt: &R) -> u64 {
        now(rt)
    }

    fn snapshot<R: Wait>(&self, rt: &R, moment: u64) -> Snapshot {
        Server::snapshot(self, rt, moment)
    }

    fn obey<R: Wait + Eprint>(&self, rt: &R, order: Order, moment: u64) {
        match order {
            Order::Drain { after_ms } => self.order_drain(rt, moment, after_ms),
            Order::Quit => self.quit(),
        }
    }

    fn log_silence<R: Eprint>(&self, rt: &R, error: Error) {
        let tag = self.log().tag(Level::Error);
        let _ = eprintln!(rt;
            "{tag}redproxy: nothing is answered at the operator's address any more: {error}"
        );
    }
}
