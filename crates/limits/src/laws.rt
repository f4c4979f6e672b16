ghost use Rattle.std.specs.Prelude.{◌+◌, ◌*◌, ◌≤◌, ◌<◌, ◌^◌};

use crate::journals::{MAX_BYTES, MAX_COMMAND_STEPS, MAX_REPLY_BYTES, MAX_STEPS};
use crate::messages::{MAX_BULK, MAX_CLIENT_MEMBERS, MAX_TEXT};
use crate::queues::{MAX_COMMANDS, MAX_CONNECTIONS, MAX_SOCKETS, MAX_WAITING};
use crate::workers::{MAX_PARTS_AT_ONCE, MAX_UNSEEN};

/// A journal has room for any command and its reply. Clients are held back before a host refuses parts.
pub fn limits_fit()
    ensures steps { 2 * MAX_CLIENT_MEMBERS ≤ MAX_COMMAND_STEPS }
    ensures journal { MAX_COMMAND_STEPS < MAX_STEPS }
    ensures payload { MAX_TEXT + MAX_REPLY_BYTES < MAX_BYTES }
    ensures word { MAX_BULK < MAX_TEXT }
    ensures sockets { MAX_SOCKETS ≤ MAX_CONNECTIONS }
    ensures parts { MAX_UNSEEN + MAX_PARTS_AT_ONCE < MAX_WAITING }
    ensures commands { MAX_COMMANDS < 2 ^ 16 }
    ensures waiting { MAX_WAITING < 2 ^ 16 }
{}
