ghost use Rattle.std.specs.Prelude.{◌≡◌};
ghost use Rattle.rate_core.specs.Laws.{FarBelowIsByDeviation, SpreadIsVariance};

use limits::MAX_HOSTS;

/// `n` times the sum of squares, minus the squared sum, is `n * n` times the variance.
pub fn spread_is_variance()
    ensures { SpreadIsVariance }
{}

/// An outlier is below the mean by more than the factor times the standard deviation.
pub fn far_below_is_by_deviation()
    ensures { FarBelowIsByDeviation }
{}

/// There are at most 64 hosts.
pub fn hosts_are_limited()
    ensures { MAX_HOSTS ≡ 64 }
{}
