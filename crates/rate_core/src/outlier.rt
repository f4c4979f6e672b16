ghost use Rattle.std.specs.Prelude.{◌≡◌, ◌<◌, ◌≤◌, length, sum, sum_by, All};
ghost use Rattle.std.specs.Option.{ForSome};
ghost use Rattle.rate_core.specs.Outlier.{is_outlier, known_rates, square};

use limits::MAX_HOSTS;

#[derive(Clone, Copy)]
struct Totals {
    count: u64,
    sum: u64,
    squares: u64,
}

fn totals_of(rates: &[Option<u32>]) -> Totals
    requires few { length rates.now ≤ MAX_HOSTS }
    requires within { All (λ rate. ForSome rate (λ r. r ≤ 1000000)) rates.now }
    ensures count { result.count ≡ length (known_rates rates.now) }
    ensures sum_is { result.sum ≡ sum (known_rates rates.now) }
    ensures squares { result.squares ≡ sum_by square (known_rates rates.now) }
    ensures few { result.count ≤ MAX_HOSTS }
    ensures sum_within { result.sum ≤ 64000000 }
    ensures squares_within { result.squares ≤ 64000000000000 }
{
    let mut count = 0u64;
    let mut sum = 0u64;
    let mut squares = 0u64;
    for rate in rates {
        if let Some(r) = *rate {
            let r = u64::from(r);
            count += 1;
            sum += r;
            squares += r * r;
        }
    }
    Totals {
        count,
        sum,
        squares,
    }
}

/// Whether the host's rate is below the mean by more than `factor` thousandths of the standard deviation. Without a
/// rate it isn't. `rates` are in millionths.
pub fn is_outlier(rates: &[Option<u32>], host: usize, factor: u32) -> bool
    requires few { length rates.now ≤ MAX_HOSTS }
    requires within { All (λ rate. ForSome rate (λ r. r ≤ 1000000)) rates.now }
    requires among { host < length rates.now }
    requires factor_within { factor ≤ 100000 }
    ensures { result ≡ is_outlier rates.now host factor }
{
    let Some(rate) = rates[host] else {
        return false;
    };
    let Totals {
        count,
        sum,
        squares,
    } = totals_of(rates);
    let scaled = count * u64::from(rate);
    if sum <= scaled {
        return false;
    }
    let below = u128::from(sum - scaled);
    let variance = u128::from((count * squares).saturating_sub(sum * sum));
    let factor = u128::from(factor);
    below * below * 1_000_000 > factor * factor * variance
}
