ghost use Rattle.std.specs.Prelude.{◌≡◌};
ghost use Rattle.reply_queue.specs.Laws.{PartHasItsValue, OtherPartsStay, NewestHasItsIndex, OthersKeepTheirIndex};

use limits::MAX_COMMANDS;

/// A part that gets its value keeps it, and no other part of any command changes.
pub fn one_part_changes()
    ensures value { PartHasItsValue }
    ensures others { OtherPartsStay }
{}

/// A command keeps its index while those before it are popped.
pub fn indices_stay()
    ensures newest { NewestHasItsIndex }
    ensures others { OthersKeepTheirIndex }
{}

/// At most 1,024 commands are accepted and not popped.
pub fn commands_are_limited()
    ensures { MAX_COMMANDS ≡ 1024 }
{}
