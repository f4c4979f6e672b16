//! Laws: a host has one pass.
//!
//! A worker's own steps are of hosts of its place alone: that is the invariant of `WorkerConnections`. These laws say
//! what follows for the journal of a generation, in which all its workers made their steps.
ghost use Rattle.proxy_connections.specs.Assigned.{HostsHaveTheirWorkers};
ghost use Rattle.proxy_connections.specs.Places.{AssignedHostsHaveOnePass, PassesShareNoHost};

/// Each pass keeps to its place or makes no step of a host, and no two passes have one place. Then no two passes made
/// steps of one host, and the steps of its one pass tell all of it: its epoch, what was sent to it, and what came from
/// it.
pub fn assigned_hosts_have_one_pass()
    ensures { AssignedHostsHaveOnePass }
{}

/// Of two passes at one gate that each kept to its own place, none made a step of a host of which the other did.
pub fn passes_share_no_host()
    ensures { PassesShareNoHost }
{}

/// Each worker has a place of its own, and a pass that made steps of its place's hosts alone; other passes made none. Then
/// each host has one pass at each moment of the gate, whose steps tell all of it.
pub fn hosts_have_their_workers()
    ensures { HostsHaveTheirWorkers }
{}
