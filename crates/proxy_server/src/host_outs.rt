//! What the log says of ejected hosts, over all lines.
ghost use Rattle.std.specs.Prelude.{◌≡◌, ◌↔◌, ◌≤◌, ◌<◌, ◌⊎◌, true, false, IsTrue, replicate, slice_set};
ghost use Rattle.proxy_server.specs.HostOuts.{lines_after, lines_out};

use limits::MAX_HOSTS;

/// How many lines of generations have each host out.
#[derive(Drop)]
pub(crate) struct HostOuts {
    lines: [u64; MAX_HOSTS],
}

impl HostOuts {
    pub(crate) fn new() -> HostOuts
        ensures { result.lines ≡ replicate 64 0 }
    {
        HostOuts {
            lines: [0; MAX_HOSTS],
        }
    }

    /// A line has put the host aside, or has it back. True: that is to be logged, as it is the first line to do the former, or the
    /// last to do the latter. Ignored for a number past the hosts.
    pub(crate) fn is_news(&mut self, host: usize, is_out: bool) -> bool
        ensures news { IsTrue result ↔ (host < 64) × (((is_out ≡ true)
            × (lines_out self.old.lines host ≡ 0)) ⊎ ((is_out ≡ false)
            × (lines_out self.old.lines host ≡ 1))) }
        ensures counted { host < 64 → self.new.lines ≡ slice_set self.old.lines host
            (lines_after is_out (lines_out self.old.lines host)) }
        ensures ignored { 64 ≤ host → self.new ≡ self.old }
    {
        if host >= MAX_HOSTS {
            return false;
        }
        let before = self.lines[host];
        self.lines[host] = if is_out {
            before.saturating_add(1)
        } else {
            before.saturating_sub(1)
        };
        if is_out { before == 0 } else { before == 1 }
    }
}
