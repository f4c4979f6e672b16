//! The table of metrics: their names and numbers.
ghost use Rattle.std.specs.Prelude.{◌≡◌, ◌<◌};
ghost use Rattle.proxy_pages.specs.Pages.{answer_word, fault_word, kind_word, reason_word};

use proxy_serve_core::{EjectionReason, FaultCause};
use proxy_stats::LOCAL_KINDS;

/// Prometheus's types of metrics.
#[derive(Clone, Copy)]
pub(crate) enum Kind {
    /// It only rises, until the program ends.
    Counter,

    /// It rises and falls.
    Gauge,

    /// Numbers of values up to each bound, with their sum and their number.
    Histogram,
}

/// A number with no label.
#[derive(Clone, Copy)]
pub(crate) enum Number {
    Accepted,
    Handed,
    Ejections,
    Kept,
    Panic,
    Connections,
    Closed,
    Idle,
    Generations,
    Draining,
    Turns,
    Ready,
    Ending,
    Resident,
    Files,
    Began,
}

/// A number of each host.
#[derive(Clone, Copy)]
pub(crate) enum HostNumber {
    Sent,
    Answered,
    Faults,
    Lost,
    Waiting,
    Flying,
    Out,
}

/// A number of each journal.
#[derive(Clone, Copy)]
pub(crate) enum JournalNumber {
    Steps,
    Bytes,
}

/// Which way bytes of sockets went.
#[derive(Clone, Copy)]
pub(crate) enum Way {
    Read,
    Written,
}

/// The numbers of a metric.
#[derive(Clone, Copy)]
pub(crate) enum Numbers {
    /// 1, with version and kit as labels.
    Build,

    /// One number.
    One(Number),

    /// One for each kind of the proxy's own answers.
    ByAnswer,

    /// One for each name of refused commands that has a place, and one for the rest.
    ByName,

    /// One for each cause of the proxy's own errors for parts.
    ByCause,

    /// One for each cause for which clients' sockets found no room.
    ByRefusal,

    /// One for each host.
    ByHost(HostNumber),

    /// One for each host and each cause of its faults.
    ByHostFault,

    /// Whether each host is put aside: in some line of generations, and in each.
    Out,

    /// One for each host that is put aside, with the reason.
    Returns,

    /// One for clients and one for hosts.
    ByPeer(Way),

    /// One for each journal.
    ByJournal(JournalNumber),

    /// The histogram of the durations of commands.
    Durations,

    /// The processor time of the process.
    Cpu,

    /// The histogram of how long each host took for its replies.
    HostDurations,
}

/// A metric.
#[derive(Clone, Copy)]
pub(crate) struct Metric {
    /// Its name.
    pub name: &'static str,

    /// Its type.
    pub kind: Kind,

    /// Its meaning, in one sentence.
    pub help: &'static str,

    /// Its numbers.
    pub numbers: Numbers,
}

impl Kind {
    /// The word for this type in the text format.
    pub(crate) fn word(self) -> &'static str
        ensures { result.now ≡ kind_word self }
    {
        match self {
            Kind::Counter => "counter",
            Kind::Gauge => "gauge",
            Kind::Histogram => "histogram",
        }
    }
}

/// The word for an answer of the proxy's own, by its index in the counts.
pub(crate) fn answer_word(answer: usize) -> &'static str
    requires { answer < LOCAL_KINDS }
    ensures { result.now ≡ answer_word answer }
{
    match answer {
        0 => "ping",
        1 => "echo",
        2 => "quit",
        3 => "invalid_request",
        4 => "unsupported_command",
        5 => "wrong_number",
        _ => "protocol_error",
    }
}

/// The word for a cause of faults.
pub(crate) fn fault_word(cause: FaultCause) -> &'static str
    ensures { result.now ≡ fault_word cause }
{
    match cause {
        FaultCause::Refused => "refused",
        FaultCause::Closed => "closed",
        FaultCause::Late => "late",
        FaultCause::Garbled => "garbled",
        FaultCause::TooLong => "too_long",
        FaultCause::GivenUp => "given_up",
    }
}

/// The word for the reason of an ejection.
pub(crate) fn reason_word(reason: EjectionReason) -> &'static str
    ensures { result.now ≡ reason_word reason }
{
    match reason {
        EjectionReason::Streak => "failures_in_a_row",
        EjectionReason::Rate => "share_of_failures",
    }
}

/// The number of metrics.
pub(crate) const METRIC_COUNT: usize = 36;

/// All metrics, in the order of the page.
pub(crate) const METRICS: [Metric; METRIC_COUNT] = [
    Metric {
        name: "redproxy_build_info",
        kind: Kind::Gauge,
        help: "The version that runs, and the kit that proved it.",
        numbers: Numbers::Build,
    },
    Metric {
        name: "redproxy_commands_accepted_total",
        kind: Kind::Counter,
        help: "Commands of clients that were accepted.",
        numbers: Numbers::One(Number::Accepted),
    },
    Metric {
        name: "redproxy_replies_handed_total",
        kind: Kind::Counter,
        help: "Replies that were handed out to clients.",
        numbers: Numbers::One(Number::Handed),
    },
    Metric {
        name: "redproxy_command_duration_seconds",
        kind: Kind::Histogram,
        help: "Time from the acceptance of a command to its answer.",
        numbers: Numbers::Durations,
    },
    Metric {
        name: "redproxy_local_replies_total",
        kind: Kind::Counter,
        help: "Commands that the proxy answered itself, by the kind of the answer.",
        numbers: Numbers::ByAnswer,
    },
    Metric {
        name: "redproxy_refused_commands_total",
        kind: Kind::Counter,
        help: "Commands that were refused as unsupported, by their name.",
        numbers: Numbers::ByName,
    },
    Metric {
        name: "redproxy_part_errors_total",
        kind: Kind::Counter,
        help: "Parts of commands that got an error of the proxy's own, by its cause.",
        numbers: Numbers::ByCause,
    },
    Metric {
        name: "redproxy_host_parts_sent_total",
        kind: Kind::Counter,
        help: "Parts of commands that were sent to the host.",
        numbers: Numbers::ByHost(HostNumber::Sent),
    },
    Metric {
        name: "redproxy_host_replies_total",
        kind: Kind::Counter,
        help: "Replies of the host.",
        numbers: Numbers::ByHost(HostNumber::Answered),
    },
    Metric {
        name: "redproxy_host_duration_seconds",
        kind: Kind::Histogram,
        help: "Time from the sending of a part to the host to its reply.",
        numbers: Numbers::HostDurations,
    },
    Metric {
        name: "redproxy_host_faults_total",
        kind: Kind::Counter,
        help: "Faults of the host's link, by their cause.",
        numbers: Numbers::ByHostFault,
    },
    Metric {
        name: "redproxy_host_parts_lost_total",
        kind: Kind::Counter,
        help: "Parts that waited for the host or were sent to it at a fault.",
        numbers: Numbers::ByHost(HostNumber::Lost),
    },
    Metric {
        name: "redproxy_host_parts_waiting",
        kind: Kind::Gauge,
        help: "Parts of commands that wait to be sent to the host.",
        numbers: Numbers::ByHost(HostNumber::Waiting),
    },
    Metric {
        name: "redproxy_host_parts_flying",
        kind: Kind::Gauge,
        help: "Parts of commands that were sent to the host and have no reply.",
        numbers: Numbers::ByHost(HostNumber::Flying),
    },
    Metric {
        name: "redproxy_host_out",
        kind: Kind::Gauge,
        help: "Whether the host is put aside.",
        numbers: Numbers::Out,
    },
    Metric {
        name: "redproxy_host_return_seconds",
        kind: Kind::Gauge,
        help: "Seconds until a host that is put aside may return, by the reason for which it is.",
        numbers: Numbers::Returns,
    },
    Metric {
        name: "redproxy_ejections_total",
        kind: Kind::Counter,
        help: "How often a host was put aside.",
        numbers: Numbers::One(Number::Ejections),
    },
    Metric {
        name: "redproxy_ejections_withheld_total",
        kind: Kind::Counter,
        help: "How often a host tripped and stayed, since enough others were put aside.",
        numbers: Numbers::One(Number::Kept),
    },
    Metric {
        name: "redproxy_panic",
        kind: Kind::Gauge,
        help: "Whether so few hosts are available that all are used.",
        numbers: Numbers::One(Number::Panic),
    },
    Metric {
        name: "redproxy_client_connections",
        kind: Kind::Gauge,
        help: "Sockets of clients that are open.",
        numbers: Numbers::One(Number::Connections),
    },
    Metric {
        name: "redproxy_client_connections_closed_total",
        kind: Kind::Counter,
        help: "Connections of clients that were closed.",
        numbers: Numbers::One(Number::Closed),
    },
    Metric {
        name: "redproxy_idle_closed_total",
        kind: Kind::Counter,
        help: "Connections that were ended since their clients were idle.",
        numbers: Numbers::One(Number::Idle),
    },
    Metric {
        name: "redproxy_clients_refused_total",
        kind: Kind::Counter,
        help: "Sockets of clients that found no room, by the cause.",
        numbers: Numbers::ByRefusal,
    },
    Metric {
        name: "redproxy_read_bytes_total",
        kind: Kind::Counter,
        help: "Bytes read from sockets of clients, and from links to hosts.",
        numbers: Numbers::ByPeer(Way::Read),
    },
    Metric {
        name: "redproxy_written_bytes_total",
        kind: Kind::Counter,
        help: "Bytes written to sockets of clients, and to links to hosts.",
        numbers: Numbers::ByPeer(Way::Written),
    },
    Metric {
        name: "redproxy_generations_total",
        kind: Kind::Counter,
        help: "Generations that were opened.",
        numbers: Numbers::One(Number::Generations),
    },
    Metric {
        name: "redproxy_generations_draining",
        kind: Kind::Gauge,
        help: "Generations that take in nothing more and have connections.",
        numbers: Numbers::One(Number::Draining),
    },
    Metric {
        name: "redproxy_turns_total",
        kind: Kind::Counter,
        help: "Turns of the core that were answered.",
        numbers: Numbers::One(Number::Turns),
    },
    Metric {
        name: "redproxy_journal_steps",
        kind: Kind::Gauge,
        help: "Steps of a journal, which takes 262144.",
        numbers: Numbers::ByJournal(JournalNumber::Steps),
    },
    Metric {
        name: "redproxy_journal_payload_bytes",
        kind: Kind::Gauge,
        help: "Bytes of payload in a journal, which takes 67108864.",
        numbers: Numbers::ByJournal(JournalNumber::Bytes),
    },
    Metric {
        name: "redproxy_ready",
        kind: Kind::Gauge,
        help: "Whether new connections are taken.",
        numbers: Numbers::One(Number::Ready),
    },
    Metric {
        name: "redproxy_ending",
        kind: Kind::Gauge,
        help: "Whether the proxy was ordered to end.",
        numbers: Numbers::One(Number::Ending),
    },
    Metric {
        name: "process_resident_memory_bytes",
        kind: Kind::Gauge,
        help: "Memory of the process in the machine.",
        numbers: Numbers::One(Number::Resident),
    },
    Metric {
        name: "process_cpu_seconds_total",
        kind: Kind::Counter,
        help: "Processor time of the process.",
        numbers: Numbers::Cpu,
    },
    Metric {
        name: "process_open_fds",
        kind: Kind::Gauge,
        help: "Open files and sockets of the process.",
        numbers: Numbers::One(Number::Files),
    },
    Metric {
        name: "process_start_time_seconds",
        kind: Kind::Gauge,
        help: "When the process began, in seconds since 1970.",
        numbers: Numbers::One(Number::Began),
    },
];
