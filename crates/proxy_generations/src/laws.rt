ghost use Rattle.proxy_generations.specs.Laws.{AllOpenInTurn, DrainInOrder, DrainingAreOlder, FewDrain, GivenUpIfNear, NewestHandsOver, OldestIsInTheWay, OneIsOpen, OpenHaveConnections, StopsIfFull};

/// At most `MAX_GENERATIONS` generations have connections. The next one opens only while one more may drain, from the
/// handover of the newest one. Only the oldest one is given up or stops, where as many drain as may, and only after
/// the waits that `near` and `full` name.
pub fn generations_follow<H>()
    ensures connections { OpenHaveConnections H }
    ensures few { FewDrain H }
    ensures in_order { DrainInOrder H }
    ensures one_is_open { OneIsOpen H }
    ensures hands_over { NewestHandsOver H }
    ensures in_turn { AllOpenInTurn H }
    ensures oldest { OldestIsInTheWay H }
    ensures given_up { GivenUpIfNear H }
    ensures stops { StopsIfFull H }
{}

/// A generation that drains has opened, and serves no longer.
pub fn draining_are_older<H>()
    ensures { DrainingAreOlder H }
{}
