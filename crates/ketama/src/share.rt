ghost use Rattle.std.specs.Prelude.{◌≡◌, ◌<◌, ◌≤◌, ◌^◌, All, IfOk, length, sum};
ghost use Rattle.ketama.specs.Ketama.{AreWeights, digest_counts};

use limits::MAX_HOSTS;
use std::alloc::{AllocError, Global};

/// A ring has this many digests for each host, shared out by weight.
pub const DIGESTS_OF_HOST: u32 = 40;

pub(crate) fn digest_counts(alloc: Global, weights: &[u32]) -> Result<Vec<u32>, AllocError>
    requires few { length weights.now ≤ MAX_HOSTS }
    requires weights { AreWeights (length weights.now) weights.now }
    ensures value { IfOk result (λ counts. counts.items ≡ digest_counts weights.now) }
    ensures few { IfOk result (λ counts. sum counts.items < 2 ^ 32) }
{
    let shared = DIGESTS_OF_HOST * weights.len() as u32;
    let total = sum(weights);
    let mut counts = Vec::with_capacity(alloc, weights.len())?;
    for weight in weights {
        counts.push(shared * weight / total)?;
    }
    Ok(counts)
}

pub(crate) fn sum(numbers: &[u32]) -> u32
    requires { sum numbers.now < 2 ^ 32 }
    ensures { result ≡ sum numbers.now }
{
    numbers.iter().sum()
}
