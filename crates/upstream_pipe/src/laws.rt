ghost use Rattle.std.specs.Prelude.{◌≡◌};

use limits::MAX_WAITING;

/// At most 1,024 parts wait.
pub fn waiting_is_limited()
    ensures { MAX_WAITING ≡ 1024 }
{}
