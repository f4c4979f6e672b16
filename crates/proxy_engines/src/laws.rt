//! Laws, each the contract of a function that does nothing.
ghost use Rattle.std.specs.Prelude.{◌≡◌};
ghost use Rattle.proxy_engines.specs.Laws.{AcceptedAreFirst, ClientsLeaveOthers, EndedIsAnswered, EndedIsOver, EndedIsWhole, HostsLeaveOthers, OthersLeaveClients, OthersLeaveHosts, RefusedClose};
ghost use Rattle.proxy_engines.specs.Keeps.{ClientsKeepSockets, HostsKeepLinks};
ghost use Rattle.proxy_engines.specs.Logs.{ClientsCarryLogs, HostsCarryLogs, SocketsCarryLogs};
ghost use Rattle.proxy_engines.specs.Socket.{SocketAnswersInOrder, SocketAsksInOrder, SocketBegins, SocketCloses, SocketClosesAnswered, SocketEndsWhole, SocketGoesOver, SocketMoves, SocketStays};

use limits::READ_SIZE;

/// One read takes at most 16,384 bytes.
pub fn reads_are_limited()
    ensures { READ_SIZE ≡ 16384 }
{}

/// The accepted requests are the first ones that the bytes read give.
pub fn accepted_are_first()
    ensures { AcceptedAreFirst }
{}

/// A client that ended has accepted the requests of all its bytes, up to and with the first one that finishes. All
/// replies were handed out, and the writer took them. Unless it was halted for a drain, its input has ended or a request
/// finished it.
pub fn ended_is_whole()
    ensures whole { EndedIsWhole }
    ensures over { EndedIsOver }
{}

/// With names of refused commands, what a client's engine accepts are the first requests of its bytes, up to and with the
/// first refused one of these names. It then takes no further one. All replies were handed out and written before it ended.
/// The same holds over all connections of a socket.
pub fn refused_close()
    ensures closes { RefusedClose }
    ensures answered { EndedIsAnswered }
    ensures socket_closes { SocketCloses }
    ensures socket_answered { SocketClosesAnswered }
{}

/// Other callers' steps leave the facts of a client's and a host's engine true.
pub fn others_leave_engines()
    ensures clients { OthersLeaveClients }
    ensures hosts { OthersLeaveHosts }
{}

/// An engine's steps are only of its own connection or host, so engines of one thread don't disturb each other.
pub fn engines_leave_others()
    ensures clients { ClientsLeaveOthers }
    ensures hosts { HostsLeaveOthers }
{}

/// A socket has one connection after another, each in its own generation. The requests that the connections accept,
/// one after another, are the first ones that all bytes read from the socket give. What its writer took, with pending
/// bytes, is what was handed out to the connections, one after another.
pub fn sockets_go_on()
    ensures begins { SocketBegins }
    ensures moves { SocketMoves }
    ensures stays { SocketStays }
    ensures goes_over { SocketGoesOver }
    ensures asks { SocketAsksInOrder }
    ensures answers { SocketAnswersInOrder }
    ensures ends { SocketEndsWhole }
{}

/// At any device, a client's engine carries all that its writer took and its reader told since it was opened. So the
/// writer's log, with pending bytes, grew by what was handed out. The accepted requests are the first ones that the
/// bytes told since then give.
pub fn clients_carry_logs()
    ensures { ClientsCarryLogs }
{}

/// The same over all connections of a socket, one after another.
pub fn sockets_carry_logs()
    ensures { SocketsCarryLogs }
{}

/// A host's engine carries all that its link's writer took and its reader told since the link was attached. So the
/// writer's log, with pending bytes, grew by what was sent to the host in its epoch. The replies that came are the
/// first values of the bytes told since then.
pub fn hosts_carry_logs()
    ensures { HostsCarryLogs }
{}

/// What an engine carries of its socket's or its link's logs it keeps over any number of calls, and over a socket's way
/// from one connection to the next.
pub fn engines_keep_logs()
    ensures clients { ClientsKeepSockets }
    ensures hosts { HostsKeepLinks }
{}
