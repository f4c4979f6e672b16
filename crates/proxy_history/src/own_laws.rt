//! Laws of a connection's or a host's own steps. A history has the newest step first, a journal the oldest.
ghost use Rattle.proxy_history.specs.OwnStepsLaws.{ConnectionStepsTellAll, HostStepsTellAll, OthersLeaveConnections, OthersLeaveHosts};
ghost use Rattle.proxy_history.specs.SeenStepsLaws.{OrdersHoldTheSame, SeenBeginningsAreLegal, SeenIsReadInOrder, SeenStepsFollow};

/// A connection's own steps determine all of it.
pub fn connection_steps_tell_all()
    ensures { ConnectionStepsTellAll }
{}

/// Other steps don't change a connection.
pub fn others_leave_connections()
    ensures { OthersLeaveConnections }
{}

/// A host's own steps determine all of it.
pub fn host_steps_tell_all()
    ensures { HostStepsTellAll }
{}

/// Other steps don't change a host.
pub fn others_leave_hosts()
    ensures { OthersLeaveHosts }
{}

/// The journal that a pass sees and its history have the same steps in two orders.
pub fn orders_hold_the_same()
    ensures { OrdersHoldTheSame }
{}

/// A seen journal with one more step is legal exactly if it was before and the step may follow.
pub fn seen_steps_follow()
    ensures { SeenStepsFollow }
{}

/// Each beginning of a legal journal is legal.
pub fn seen_beginnings_are_legal()
    ensures { SeenBeginningsAreLegal }
{}

/// A history's facts can be read in the order in which a pass sees it.
pub fn seen_is_read_in_order()
    ensures { SeenIsReadInOrder }
{}
