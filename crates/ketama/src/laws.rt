ghost use Rattle.std.specs.Prelude.{List, ℕ, Bool};
ghost use Rattle.ketama.specs.OwnerLaws.{OwnerIsOne, OthersKeepTheirPoints, FirstChoiceStands, OwnersGoByMembers};
ghost use Rattle.ketama.specs.Shares.{EqualWeightsGiveForty, DigestsAreFew, HeaviestHasForty};

/// A point has one owner: `owner_of` is it.
pub fn owner_is_one()
    ensures { (pairs : List (ℕ × ℕ)) (point : ℕ) (usable : List Bool)
        → OwnerIsOne pairs point usable }
{}

/// When a host goes out, other hosts' points keep their owners.
pub fn others_keep_their_points()
    ensures { OthersKeepTheirPoints }
{}

/// A point goes to its owner among all hosts if that is usable.
pub fn first_choice_stands()
    ensures { FirstChoiceStands }
{}

/// Owners depend only on a ring's set of pairs.
pub fn owners_go_by_members()
    ensures { OwnersGoByMembers }
{}

/// If all hosts weigh the same, each has 40 digests.
pub fn equal_weights_give_forty()
    ensures { EqualWeightsGiveForty }
{}

/// All hosts together have at most 40 digests a host.
pub fn digests_are_few()
    ensures { DigestsAreFew }
{}

/// A heaviest host has at least 40 digests.
pub fn heaviest_has_forty()
    ensures { HeaviestHasForty }
{}
