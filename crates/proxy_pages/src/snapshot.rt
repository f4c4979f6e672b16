//! The numbers behind the pages.
ghost use Rattle.std.specs.Prelude.{◌≡◌, ◌≤◌, ◌<◌, None, replicate};
ghost use Rattle.proxy_pages.specs.Numbers.{is_out_in, lines_shown};

use limits::MAX_HOSTS;
use proxy_config::Host;
use proxy_histogram::Histogram;
use proxy_serve_core::{EjectedHost, HostFaults, RefusedSockets};
use proxy_stats::{Counts, Load, RefusedNames};

/// The most lines of generations that are shown one by one.
pub const MAX_LINES_SHOWN: usize = 64;

/// Facts that stay the same while the proxy runs.
#[derive(Clone, Copy)]
pub struct About<'a> {
    /// The version of the program.
    pub version: &'a str,

    /// The kit that it was proved and built with.
    pub kit: &'a str,

    /// The hosts, in the order of the settings; those after the first 64 aren't shown.
    pub hosts: &'a [Host],
}

impl<'a> About<'a> {
    ghost use Rattle.proxy_pages.specs.Pages.{host_count, host_name};

    /// The number of hosts shown.
    pub(crate) fn host_count(&self) -> usize
        ensures { result ≡ host_count self.now }
    {
        self.hosts.len().min(MAX_HOSTS)
    }

    /// The name of a host.
    pub(crate) fn host_name(&self, host: usize) -> &[u8]
        requires { host < host_count self.now }
        ensures { result.now ≡ host_name self.now host }
    {
        self.hosts[host].name.as_bytes()
    }
}

/// The last sight of a generation's journal.
#[derive(Clone, Copy, Debug, PartialEq, Eq)]
pub struct Look {
    /// The number of its steps.
    pub steps: u64,

    /// The bytes of payload of its steps.
    pub bytes: u64,

    /// The load of its core.
    pub load: Load,
}

impl Look {
    /// There is no such generation.
    pub const NONE: Look = Look {
        steps: 0,
        bytes: 0,
        load: Load::NONE,
    };
}

/// Which hosts one line of generations has out, by their number.
#[derive(Clone, Copy, Debug, PartialEq, Eq)]
pub struct LineHosts {
    /// Whether each host is put aside.
    pub are_out: [bool; MAX_HOSTS],
}

impl LineHosts {
    /// No host is out.
    pub const NONE: LineHosts = LineHosts {
        are_out: [false; MAX_HOSTS],
    };
}

/// The bytes that some sockets have moved.
#[derive(Clone, Copy, Debug, PartialEq, Eq)]
pub struct Moved {
    /// Those read from them.
    pub read: u64,

    /// Those written to them.
    pub written: u64,
}

/// The bytes that all sockets have moved.
#[derive(Clone, Copy, Debug, PartialEq, Eq)]
pub struct MovedBytes {
    /// Those of clients.
    pub clients: Moved,

    /// Those of the links to hosts.
    pub hosts: Moved,
}

impl MovedBytes {
    /// None.
    pub const NONE: MovedBytes = MovedBytes {
        clients: Moved {
            read: 0,
            written: 0,
        },
        hosts: Moved {
            read: 0,
            written: 0,
        },
    };
}

/// The hosts that are put aside at a moment.
#[derive(Clone, Copy, Debug, PartialEq, Eq)]
pub struct EjectedHosts {
    /// The moment, in milliseconds.
    pub moment: u64,

    /// Each ejected host, by its number; of several lines' the first to return.
    pub hosts: [Option<EjectedHost>; MAX_HOSTS],
}

impl EjectedHosts {
    /// None is, at this moment.
    pub fn none(moment: u64) -> EjectedHosts
        ensures { result ≡ record { moment = moment; hosts = replicate MAX_HOSTS None } }
    {
        EjectedHosts {
            moment,
            hosts: [None; MAX_HOSTS],
        }
    }
}

/// What the process uses, as the system tells it; 0 where it doesn't.
#[derive(Clone, Copy, Debug, PartialEq, Eq)]
pub struct ProcessUse {
    /// Its bytes in memory.
    pub resident: u64,

    /// Its processor time, in microseconds.
    pub cpu_us: u64,

    /// Its open files and sockets.
    pub files: u64,

    /// When it began, in seconds since 1970.
    pub began: u64,
}

impl ProcessUse {
    /// The system tells nothing.
    pub const UNKNOWN: ProcessUse = ProcessUse {
        resident: 0,
        cpu_us: 0,
        files: 0,
        began: 0,
    };
}

/// What a proxy has done, and its present state.
#[derive(Clone, Copy, Debug, PartialEq, Eq)]
pub struct Snapshot {
    /// The counts of all generations, gone and living.
    pub counts: Counts,

    /// The names of refused commands, of all generations, gone and living.
    pub refused_names: RefusedNames,

    /// The number of generations opened.
    pub generations: u64,

    /// The steps of the journals of generations that are gone.
    pub past_steps: u64,

    /// The generation that takes new connections.
    pub serving: Look,

    /// All generations that drain, added up: those before it that have connections.
    pub draining: Look,

    /// The number of generations that drain.
    pub draining_count: u64,

    /// The number of open client sockets, in all generations.
    pub connections: u64,

    /// The number of closed client connections.
    pub closed: u64,

    /// The number of connections that were ended since their clients were idle.
    pub idle_closed: u64,

    /// The sockets of clients that found no room.
    pub refused: RefusedSockets,

    /// The bytes that sockets have moved.
    pub moved: MovedBytes,

    /// Which hosts are put aside, and why.
    pub ejected: EjectedHosts,

    /// The faults of each host's links, by its number, over all generations.
    pub faults: [HostFaults; MAX_HOSTS],

    /// How long each host took for its replies, by its number, over all generations.
    pub host_durations: [Histogram; MAX_HOSTS],

    /// The number of lines of generations; a single one isn't told of by itself.
    pub lines: usize,

    /// Which hosts each line has out, by its number.
    pub line_hosts: [LineHosts; MAX_LINES_SHOWN],

    /// The durations of commands, from acceptance to answer.
    pub durations: Histogram,

    /// Whether new connections are accepted.
    pub is_ready: bool,

    /// Whether the proxy was ordered to end.
    pub is_ending: bool,

    /// What the process uses.
    pub process: ProcessUse,
}

impl Snapshot {
    /// How many lines are told of one by one.
    pub(crate) fn lines_shown(&self) -> usize
        ensures shown { result ≡ lines_shown self.now }
        ensures few { result ≤ MAX_LINES_SHOWN }
    {
        if self.lines == 1 {
            0
        } else {
            self.lines.min(MAX_LINES_SHOWN)
        }
    }

    /// Whether a line has a host out.
    pub(crate) fn is_out_in(&self, line: usize, host: usize) -> bool
        requires line { line < MAX_LINES_SHOWN }
        requires host { host < MAX_HOSTS }
        ensures { result ≡ is_out_in self.now line host }
    {
        self.line_hosts[line].are_out[host]
    }
}
