//! Faults of a worker's hosts, counted and logged.

use super::Worker;
use proxy_connections::{HostFault, LostLink, PassedLimit};
use proxy_serve_core::LinkLoss;
use proxy_server::Level;
use std::net::SocketAddr;
use std::sync::Wait;

fn limit_words(limit: PassedLimit) -> &'static str {
    match limit {
        PassedLimit::Bulk => "of more than 1,048,576 bytes",
        PassedLimit::Members => "of more than 65,536 members",
        PassedLimit::Text => "of more than 8,388,608 bytes in all",
        PassedLimit::Other => "past a limit",
    }
}

impl Worker<'_> {
    pub(super) fn handle_fault<R: Wait + Eprint>(
        &self,
        rt: &R,
        address: SocketAddr,
        link: LostLink,
    ) {
        let line = self.generation.line();
        let cause = link.fault.cause();
        if let HostFault::GivenUp = link.fault {
            return line.count_fault(rt, link.host, cause);
        }
        let loss = LinkLoss {
            cause,
            parts: link.lost,
        };
        if let Some(lost) = line.note_fault(rt, link.host, loss, self.now.ms) {
            self.log_fault(rt, address, LostLink { lost, ..link });
        }
    }

    fn log_fault<R: Eprint>(&self, rt: &R, address: SocketAddr, link: LostLink) {
        let lost = link.lost;
        let tag = self.generation.line().log().tag(Level::Warning);
        let _ = match link.fault {
            HostFault::Refused => {
                eprintln!(rt;
                    "{tag}redproxy: host {address} can't be reached; failed parts: {lost}"
                )
            }
            HostFault::Closed => {
                eprintln!(rt; "{tag}redproxy: host {address} closed the link; failed parts: {lost}")
            }
            HostFault::Late => {
                let ms = self.reply_ms;
                eprintln!(rt;
                    "{tag}redproxy: host {address} gave no answer for {ms} ms; failed parts: {lost}"
                )
            }
            HostFault::Garbled => {
                eprintln!(rt;
                    "{tag}redproxy: host {address} sent what is no reply; failed parts: {lost}"
                )
            }
            HostFault::TooLong(limit) => {
                let limit = limit_words(limit);
                eprintln!(rt;
                    "{tag}redproxy: host {address} sent a reply {limit}; failed parts: {lost}"
                )
            }
            HostFault::NoRoom => {
                eprintln!(rt;
                    "{tag}redproxy: the replies of host {address} have no room; failed parts: {lost}"
                )
            }
            HostFault::GivenUp => Ok(()),
        };
    }
}
