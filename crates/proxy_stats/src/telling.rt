ghost use Rattle.std.specs.Prelude.{◌≡◌, ◌<◌, ℕ, length, slice_index_or};
ghost use Rattle.proxy_history.specs.Setting.{hosts};
ghost use Rattle.proxy_history.specs.Proxy.{history_in};
ghost use Rattle.proxy_history.specs.Past.{past};
ghost use Rattle.proxy_history.specs.Waiting.{waiting_parts};
ghost use Rattle.proxy_notices.specs.declared.unseen_parts.UnseenParts.{UnseenParts};

use limits::MAX_HOSTS;
use proxy_core::{CountingCore, Event};
use proxy_notices::{Notices, UnseenParts};
use std::sync::Arc;

/// What an event may bring to workers, as far as it is known before its turn.
#[derive(Clone, Copy, Debug, PartialEq, Eq)]
pub(crate) enum Concern {
    /// Other parts wait, for any hosts.
    Parts,
    /// One part less waits for this host.
    Taken(usize),
    /// `None`: of no connection that is open.
    Reply(Option<u64>),
    /// All parts of this host have their replies.
    Fault(usize),
    Nothing,
}

#[derive(Drop)]
pub(crate) struct Teller {
    notices: Arc<Notices>,
    parts: [UnseenParts; MAX_HOSTS],
}

#[inline(always)]
pub(crate) fn concern_of(core: &CountingCore, event: &Event) -> Concern {
    match event {
        Event::Arrived { .. } | Event::Closed { .. } => Concern::Parts,
        Event::Taken { host } => Concern::Taken(*host),
        Event::Answered { host, .. } => Concern::Reply(if *host < core.hosts() {
            core.next_owner(*host)
        } else {
            None
        }),
        Event::Failed { host, .. } => Concern::Fault(*host),
        _ => Concern::Nothing,
    }
}

impl Teller {
    /// Tells by these notices. No part waits yet.
    pub(crate) fn new(notices: Arc<Notices>) -> Teller {
        Teller {
            notices,
            parts: [UnseenParts::NONE; MAX_HOSTS],
        }
    }

    #[inline(always)]
    pub(crate) fn tell(&mut self, core: &CountingCore, concern: Concern) {
        match concern {
            Concern::Parts => self.tell_parts(core),
            Concern::Taken(host) => self.see(core, host),
            Concern::Reply(Some(conn)) => {
                if core.is_ready(conn) {
                    self.notices.reply_came(conn);
                }
            }
            Concern::Fault(host) => {
                self.see(core, host);
                self.notices.replies_came();
            }
            Concern::Reply(None) | Concern::Nothing => {}
        }
    }

    fn tell_parts(&mut self, core: &CountingCore)
        ensures told { (host : ℕ) (d : UnseenParts) → host < hosts core.now.setting
            → (slice_index_or self.new.parts host d).waiting
            ≡ length (waiting_parts host (past core.now.setting (history_in core.now))) }
    {
        for host in 0..core.hosts() {
            let waiting = core.waiting(host) as u64;
            if waiting == self.parts[host].waiting {
                continue;
            }
            let news = self.parts[host].wait(waiting);
            if news.begins {
                self.notices.parts_came(host);
            }
            if news.presses {
                self.notices.press(host);
            }
        }
    }

    // The host's worker took a part, or all were lost.
    #[inline(always)]
    fn see(&mut self, core: &CountingCore, host: usize) {
        if host < core.hosts() {
            self.parts[host].see(core.waiting(host) as u64);
        }
    }
}
