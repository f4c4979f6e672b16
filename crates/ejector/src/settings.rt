ghost use Rattle.std.specs.Prelude.{◌≡◌};
ghost use Rattle.ejector.specs.Settings.{default_settings, is_within, first_failing, first_fault, first_difference, settings_tests, settings_comparisons};

use limits::MAX_HOSTS;
use std::fmt;

/// The settings of outlier detection.
#[derive(Clone, Copy, Debug, PartialEq, Eq)]
pub struct Settings {
    /// Whether keys are hashed by their tag. It doesn't affect an ejector.
    pub tags: bool,
    /// The milliseconds from one sweep to the next: 1 to 3,600,000. `sweep`'s caller keeps it.
    pub interval_ms: u32,
    /// The milliseconds of a host's first ejection: 1 to 3,600,000.
    pub base_ms: u32,
    /// The most milliseconds of an ejection: `base_ms` to 86,400,000.
    pub max_ms: u32,
    /// The percentage of hosts that may be out: 0 to 100. One always may.
    pub max_percent: u32,
    /// A host trips after this many bad results in a row: 0 to 1,000,000; 0 turns this off.
    pub consecutive: u32,
    /// Rates are compared if this many hosts have one: 1 to 65.
    pub success_hosts: u32,
    /// The results in an interval that give a host a rate: 1 to 1,000,000.
    pub request_volume: u32,
    /// How far below the mean an outlier's rate is, in thousandths of the standard deviation: 0 to 100,000.
    pub factor: u32,
    /// All hosts are used if a smaller percentage is available: 0 to 100.
    pub panic_percent: u32,
}

/// The rules of an ejector.
#[derive(Clone, Copy, Debug, PartialEq, Eq)]
pub struct Rules {
    /// The number of hosts.
    pub hosts: usize,
    /// When a host is ejected, and for how long.
    pub settings: Settings,
}

impl Default for Settings {
    ghost is_default = { λ s. s ≡ default_settings };

    fn default() -> Self {
        Settings {
            tags: false,
            interval_ms: 10_000,
            base_ms: 30_000,
            max_ms: 300_000,
            max_percent: 10,
            consecutive: 5,
            success_hosts: 5,
            request_volume: 100,
            factor: 1900,
            panic_percent: 50,
        }
    }
}

/// A field that a refusal names.
#[derive(Clone, Copy, Debug, PartialEq, Eq)]
pub enum Field {
    /// The number of hosts: 1 to 64.
    Hosts,
    /// It is never out of its range.
    Tags,
    IntervalMs,
    BaseMs,
    MaxMs,
    MaxPercent,
    Consecutive,
    SuccessHosts,
    RequestVolume,
    Factor,
    PanicPercent,
}

impl fmt::Display for Field {
    fn fmt<W: fmt::Write>(&self, f: &mut fmt::Formatter<W>) -> fmt::Result {
        f.write_str(match self {
            Field::Hosts => "hosts",
            Field::Tags => "tags",
            Field::IntervalMs => "interval_ms",
            Field::BaseMs => "base_ms",
            Field::MaxMs => "max_ms",
            Field::MaxPercent => "max_percent",
            Field::Consecutive => "consecutive",
            Field::SuccessHosts => "success_hosts",
            Field::RequestVolume => "request_volume",
            Field::Factor => "factor",
            Field::PanicPercent => "panic_percent",
        })
    }
}

fn is_within(low: u32, high: u32, n: u32) -> bool
    ensures { result ≡ is_within low high n }
{
    low <= n && n <= high
}

impl Rules {
    /// The first field out of its range.
    pub fn first_fault(&self) -> Option<Field>
        ensures { result ≡ first_fault self.now }
    {
        if self.hosts < 1 || self.hosts > MAX_HOSTS {
            return Some(Field::Hosts);
        }
        self.settings.first_fault()
    }

    /// The first field that differs.
    pub fn first_difference(&self, other: &Rules) -> Option<Field>
        ensures { result ≡ first_difference self.now other.now }
    {
        if self.hosts != other.hosts {
            return Some(Field::Hosts);
        }
        self.settings.first_difference(&other.settings)
    }
}

impl Settings {
    fn first_fault(&self) -> Option<Field>
        ensures { result ≡ first_failing (settings_tests self.now) }
    {
        if !is_within(1, 3_600_000, self.interval_ms) {
            Some(Field::IntervalMs)
        } else if !is_within(1, 3_600_000, self.base_ms) {
            Some(Field::BaseMs)
        } else if !is_within(self.base_ms, 86_400_000, self.max_ms) {
            Some(Field::MaxMs)
        } else if !is_within(0, 100, self.max_percent) {
            Some(Field::MaxPercent)
        } else if !is_within(0, 1_000_000, self.consecutive) {
            Some(Field::Consecutive)
        } else if !is_within(1, 65, self.success_hosts) {
            Some(Field::SuccessHosts)
        } else if !is_within(1, 1_000_000, self.request_volume) {
            Some(Field::RequestVolume)
        } else if !is_within(0, 100_000, self.factor) {
            Some(Field::Factor)
        } else if !is_within(0, 100, self.panic_percent) {
            Some(Field::PanicPercent)
        } else {
            None
        }
    }

    fn first_difference(&self, other: &Settings) -> Option<Field>
        ensures { result ≡ first_failing (settings_comparisons self.now other.now) }
    {
        if self.tags != other.tags {
            Some(Field::Tags)
        } else if self.interval_ms != other.interval_ms {
            Some(Field::IntervalMs)
        } else if self.base_ms != other.base_ms {
            Some(Field::BaseMs)
        } else if self.max_ms != other.max_ms {
            Some(Field::MaxMs)
        } else if self.max_percent != other.max_percent {
            Some(Field::MaxPercent)
        } else if self.consecutive != other.consecutive {
            Some(Field::Consecutive)
        } else if self.success_hosts != other.success_hosts {
            Some(Field::SuccessHosts)
        } else if self.request_volume != other.request_volume {
            Some(Field::RequestVolume)
        } else if self.factor != other.factor {
            Some(Field::Factor)
        } else if self.panic_percent != other.panic_percent {
            Some(Field::PanicPercent)
        } else {
            None
        }
    }
}
