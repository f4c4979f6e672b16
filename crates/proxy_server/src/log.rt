/// The severity of a line, as in syslog.
#[derive(Clone, Copy, Debug, PartialEq, Eq)]
pub enum Level {
    /// The program ends, or the operator's address answers no more.
    Error,
    /// Clients or a host have a problem.
    Warning,
    /// A host is back, or the server drains.
    Notice,
    /// Normal operation.
    Info,
}

/// The beginning of lines on standard error.
#[derive(Clone, Copy, Debug)]
pub struct Log {
    has_levels: bool,
}

impl Log {
    /// Whether lines begin with their level, as in `<4>`, for systemd's journal.
    pub fn new(has_levels: bool) -> Log {
        Log { has_levels }
    }

    /// The beginning of a line of this level.
    pub fn tag(self, level: Level) -> &'static str {
        if !self.has_levels {
            return "";
        }
        match level {
            Level::Error => "<3>",
            Level::Warning => "<4>",
            Level::Notice => "<5>",
            Level::Info => "<6>",
        }
    }
}
