ghost use Rattle.std.specs.Prelude.{◌≡◌, ◌<◌, ◌≤◌, All, AllPairs, if◌then◌else◌, length};
ghost use Rattle.std.specs.List.Sorted.{IsPartitionPoint};
ghost use Rattle.ketama.specs.Continuum.{IsBefore};
ghost use Rattle.ketama.specs.Owner.{IsLeastIfAny, IsUsablePair, IsOwner};

/// A point of a ring, and its host's number.
pub type Pair = (u32, usize);

pub(crate) fn owner(pairs: &[Pair], point: u32, usable: &[bool]) -> Option<usize>
    requires in_range { All (λ pair. pair.1 < length usable.now) pairs.now }
    requires in_order { AllPairs IsBefore pairs.now }
    ensures { IsOwner pairs.now point usable.now result }
{
    let from = count_below(pairs, point);
    if let Some((_, host)) = first_usable(&pairs[from..], usable) {
        return Some(host);
    }

    // (past the last point the ring goes on with its first)
    let (_, host) = first_usable(pairs, usable)?;
    Some(host)
}

// Each turn halves the unknown pairs. No jump depends on a point, since it couldn't be predicted.
fn count_below(pairs: &[Pair], point: u32) -> usize
    requires { AllPairs IsBefore pairs.now }
    ensures bound { result ≤ length pairs.now }
    ensures parted { IsPartitionPoint (λ pair. pair.0 < point) (λ pair. point ≤ pair.0) pairs.now
        result }
{
    let mut below = 0;
    let mut unknown = pairs.len();
    while unknown > 0 {
        let half = unknown - unknown / 2;
        let all_below = pairs[below + half - 1].0 < point;
        below = one_of(below, below + half, all_below);
        unknown -= half;
    }
    below
}

// It takes no jump.
fn one_of(first: usize, second: usize, wants_second: bool) -> usize
    ensures { result ≡ if wants_second then second else first }
{
    [first, second][usize::from(wants_second)]
}

fn first_usable(pairs: &[Pair], usable: &[bool]) -> Option<Pair>
    requires in_range { All (λ pair. pair.1 < length usable.now) pairs.now }
    requires in_order { AllPairs IsBefore pairs.now }
    ensures { IsLeastIfAny (IsUsablePair pairs.now usable.now) result }
{
    for &(at, host) in pairs {
        if usable[host] {
            return Some((at, host));
        }
    }
    None
}
