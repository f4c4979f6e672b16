ghost use Rattle.std.specs.Prelude.{◌≡◌};

use limits::MAX_CONNECTIONS;

/// At most 4,096 connections are open at a time.
pub fn connections_are_limited()
    ensures { MAX_CONNECTIONS ≡ 4096 }
{}
