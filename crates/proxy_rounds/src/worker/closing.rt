//! How a worker closes clients that read nothing, and what is left at its end.

use super::Worker;
use limits::MAX_SOCKETS;
use proxy_connections::Stalled;
use proxy_server::Level;
use std::sync::Wait;

impl Worker<'_> {
    // Connections that are cut short are counted as closed.
    pub(super) fn close_clients<R: Wait + Eprint>(&mut self, rt: &R) {
        let line = self.generation.line();
        let mut cut = 0u32;
        for key in 0..self.connections.capacity() {
            if self.close_client(key) {
                cut = cut.saturating_add(1);
            }
        }
        if cut > 0 && line.runs() {
            let tag = line.log().tag(Level::Warning);
            let number = self.generation.number();
            let _ = eprintln!(rt;
                "{tag}redproxy: generation {number} is cut short, {cut} connections are closed"
            );
        }
        self.report_durations(rt);
        self.close_carried(rt);
    }

    // True: there was a client with this key, and its connection is cut short.
    fn close_client(&mut self, key: usize) -> bool {
        let Some(is_cut) = self.connections.shut_down(key) else {
            return false;
        };
        if is_cut {
            self.generation.line().count_closed();
        }
        is_cut
    }

    // Ends the inputs of clients that were idle for long enough.
    pub(super) fn close_idle(&mut self) {
        if self.generation.line().idle_ms() == 0 {
            return;
        }
        for key in 0..self.connections.capacity() {
            let round = self
                .generation
                .round(self.poll.registry(), self.mode, self.now, self.came_us);
            self.connections.end_idle(round, key);
        }
    }

    // While too many bytes wait for all sockets together, closes its stalled clients, as long as for no other worker's more wait.
    pub(super) fn close_stalled<R: Wait + Eprint>(&mut self, rt: &R) {
        let line = self.generation.line();
        if !line.has_too_much_waiting() {
            return;
        }
        let waiting = line.waiting();
        let mut count = 0u32;
        for _ in 0..self.connections.capacity() {
            let Some(key) = self.find_stalled(rt) else {
                break;
            };
            self.connections.break_off(key);
            count = count.saturating_add(1);
        }
        if count > 0 {
            let tag = line.log().tag(Level::Warning);
            let _ = eprintln!(rt;
                "{tag}redproxy: {waiting} bytes wait for clients, {count} that read nothing are closed"
            );
        }
    }

    // Its client to be closed next, while too many bytes wait.
    fn find_stalled<R: Wait>(&self, rt: &R) -> Option<usize> {
        let line = self.generation.line();
        if !line.has_too_much_waiting() {
            return None;
        }
        let now = self.now.ms;
        let Some(Stalled { key, bytes }) = self.connections.most_stalled(now) else {
            line.bid_stalled(rt, self.bidder, 0, now);
            return None;
        };
        line.bid_stalled(rt, self.bidder, bytes, now).then_some(key)
    }

    // Closes the sockets in the queue: once the server ends no generation takes them.
    fn close_carried<R: Wait>(&mut self, rt: &R) {
        let line = self.generation.line();
        for _ in 0..MAX_SOCKETS {
            if line.runs() {
                return;
            }
            let Some(carried) = line.take_carried(rt, self.index()) else {
                return;
            };
            drop(carried);
            line.count_closed();
        }
    }
}
