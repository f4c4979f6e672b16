ghost use Rattle.proxy_stats.specs.RefusedNamesLaws.{NamesAreCounted, SumsAreCounted};
ghost use Rattle.proxy_stats.specs.Refusals.{NamesAreOfRefusals};

/// After any names the numbers add up to how many came, none is counted more often than it came or has two places, and
/// one that was more than a 33rd of them has a place.
pub fn names_are_counted()
    ensures { NamesAreCounted }
{}

/// A sum of the numbers of two lists adds up, and counts no name more often than it came or at two places.
pub fn sums_are_counted()
    ensures { SumsAreCounted }
{}

/// As many names come as commands are refused as unsupported.
pub fn names_are_of_refusals()
    ensures { NamesAreOfRefusals }
{}
