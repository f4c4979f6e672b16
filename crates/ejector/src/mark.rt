/// An input of an ejector. Moments are in milliseconds.
#[derive(Clone, Copy, Debug, PartialEq, Eq)]
pub enum Mark {
    /// A good result of a host.
    Good { host: usize, moment: u64 },
    /// A bad result of a host.
    Bad { host: usize, moment: u64 },
    /// A sweep.
    Sweep { moment: u64 },
}
