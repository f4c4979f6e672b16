/// The counters of one host.
#[derive(Clone, Copy, Debug, PartialEq, Eq)]
pub struct HostState {
    /// Whether it is ejected.
    pub is_out: bool,
    /// The clock at its last ejection, 0 without one.
    pub start: u64,
    /// Its bad results in a row.
    pub streak: u32,
    /// Its good results in this interval.
    pub good_results: u32,
    /// All its results in this interval.
    pub results: u32,
    /// An ejection lasts this many times `base_ms`.
    pub multiplier: u32,
}

/// A host without a mark.
pub const FRESH: HostState = HostState {
    is_out: false,
    start: 0,
    streak: 0,
    good_results: 0,
    results: 0,
    multiplier: 0,
};
