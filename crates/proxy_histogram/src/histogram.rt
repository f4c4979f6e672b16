ghost use Rattle.std.specs.Prelude.{◌≡◌, ◌<◌, ◌+◌, ◌++◌, ◌∷◌, [], ℕ, List, replicate, slice_index};
ghost use Rattle.proxy_histogram.specs.Values.{IsOf, capped, with_times};

/// The number of bounds.
pub const BOUNDS: usize = 18;

/// In microseconds: from 25 of them to 10 seconds.
pub const BOUNDS_US: [u64; BOUNDS] = [
    25, 50, 100, 250, 500, 1_000, 2_000, 5_000, 10_000, 25_000, 50_000, 100_000, 250_000, 500_000,
    1_000_000, 2_500_000, 5_000_000, 10_000_000,
];

/// A histogram of microseconds. The greatest `u64` stands for any greater number.
#[derive(Clone, Copy, Debug, PartialEq, Eq)]
pub struct Histogram {
    /// The number of values up to each of [`BOUNDS_US`].
    pub at_most: [u64; BOUNDS],

    /// The number of values.
    pub total: u64,

    /// Their sum, in microseconds.
    pub sum_us: u64,
}

impl Histogram {
    /// The histogram of no values.
    pub fn new() -> Histogram
        ensures { IsOf [] result }
    {
        Histogram {
            at_most: [0; BOUNDS],
            total: 0,
            sum_us: 0,
        }
    }

    /// Adds a value.
    pub fn record(&mut self, us: u64)
        ensures { (values : List ℕ) → IsOf values self.old → IsOf (values ++ us ∷ []) self.new }
    {
        self.record_times(us, 1);
    }

    /// Adds a value `times` times.
    pub fn record_times(&mut self, us: u64, times: u64)
        ensures { (values : List ℕ) → IsOf values self.old
            → IsOf (values ++ replicate times us) self.new }
    {
        self.at_most = recorded(&self.at_most, us, times);
        self.total = self.total.saturating_add(times);
        self.sum_us = self.sum_us.saturating_add(times.saturating_mul(us));
    }

    /// The histogram of the values of both.
    pub fn plus(&self, other: &Histogram) -> Histogram
        ensures { (mine others : List ℕ) → IsOf mine self.now → IsOf others other.now
            → IsOf (mine ++ others) result }
    {
        Histogram {
            at_most: joined(&self.at_most, &other.at_most),
            total: self.total.saturating_add(other.total),
            sum_us: self.sum_us.saturating_add(other.sum_us),
        }
    }
}

fn recorded(at_most: &[u64; BOUNDS], us: u64, times: u64) -> [u64; BOUNDS]
    ensures { (i : ℕ) → i < BOUNDS → slice_index result i
        ≡ with_times us times (slice_index BOUNDS_US i) (slice_index at_most.now i) }
{
    let mut more = [0; BOUNDS];
    for i in 0..BOUNDS {
        let count = if us <= BOUNDS_US[i] { times } else { 0 };
        more[i] = at_most[i].saturating_add(count);
    }
    more
}

fn joined(one: &[u64; BOUNDS], other: &[u64; BOUNDS]) -> [u64; BOUNDS]
    ensures { (i : ℕ) → i < BOUNDS
        → slice_index result i ≡ capped (slice_index one.now i + slice_index other.now i) }
{
    let mut both = [0; BOUNDS];
    for i in 0..BOUNDS {
        both[i] = one[i].saturating_add(other[i]);
    }
    both
}
