ghost use Rattle.std.specs.Prelude.{◌≡◌, ◌+◌, ◌-◌, ◌^◌, ◌<◌, ◌++◌, ◌∷◌, [], Some, length, map, IfOk, IfErr, OnOk};
ghost use Rattle.resp_core.specs.Value.{tree_of};
ghost use Rattle.reply_queue.specs.Queue.{IsOpen};
ghost use Rattle.splitter.specs.Join.{MayJoin};
ghost use Rattle.splitter.specs.declared.plans.Join.TheVariants.{Same};
ghost use Rattle.proxy_history.specs.Setting.{max_unwritten};
ghost use Rattle.proxy_core.specs.Connections.{fresh_connection};
ghost use Rattle.proxy_core.specs.Places.{value_of_placed, with_value_at};

use crate::state::place::{Place, Placed};
use proxy_history::Refusal;
use reply_queue::Queue;
use resp_core::Value;
use splitter::Join;
use std::alloc::Global;

/// An open connection: its commands that are accepted and not handed out, and whether it accepts no further one.
#[derive(Drop)]
pub(crate) struct Connection {
    pub queue: Queue,
    pub is_finishing: bool,
}

impl Connection {
    pub(crate) fn new(alloc: Global) -> Connection
        ensures { result ≡ fresh_connection }
    {
        Connection {
            queue: Queue::new(alloc),
            is_finishing: false,
        }
    }
}

/// Queues a command. Parts that got a value at once have it.
pub(crate) fn queue_parts(queue: &mut Queue, how: Join, placed: &[Placed]) -> Result<u64, Refusal>
    requires left { length queue.old.commands < max_unwritten }
    requires index { queue.old.popped + length queue.old.commands < 2 ^ 64 - 1 }
    requires join { MayJoin how (length placed.now) }
    requires parts { length placed.now < 2 ^ 32 }
    ensures index { IfOk result (λ index. index ≡ queue.old.popped + length queue.old.commands) }
    ensures commands { OnOk result (queue.new ≡ record {
      popped = queue.old.popped;
      commands = queue.old.commands
          ++ record { how = how; values = map value_of_placed placed.now } ∷ [];
    }) }
    ensures refused { IfErr result (λ r. (r ≡ Refusal.NoMemory) × (queue.new ≡ queue.old)) }
{
    let Ok(command) = queue.accept(how, placed.len()) else {
        return Err(Refusal::NoMemory);
    };
    for part in 0..placed.len() {
        give(queue, command, part as u32, placed[part].place);
    }
    Ok(command)
}

// Gives a part its value, if it gets one at once.
fn give(queue: &mut Queue, command: u64, part: u32, place: Place)
    requires { IsOpen queue.old command part }
    ensures { queue.new ≡ with_value_at place command part queue.old }
{
    if let Some(value) = place.value() {
        queue.set_part(command, part, value);
    }
}

/// Queues a command that has its one value.
pub(crate) fn queue_own(queue: &mut Queue, value: Value) -> Result<u64, Refusal>
    requires left { length queue.old.commands < max_unwritten }
    requires index { queue.old.popped + length queue.old.commands < 2 ^ 64 - 1 }
    ensures index { IfOk result (λ index. index ≡ queue.old.popped + length queue.old.commands) }
    ensures commands { OnOk result (queue.new ≡ record {
      popped = queue.old.popped;
      commands = queue.old.commands
          ++ record { how = Same; values = Some (tree_of value) ∷ [] } ∷ [];
    }) }
    ensures refused { IfErr result (λ r. (r ≡ Refusal.NoMemory) × (queue.new ≡ queue.old)) }
{
    let Ok(command) = queue.accept(Join::Same, 1) else {
        drop(value);
        return Err(Refusal::NoMemory);
    };
    queue.set_part(command, 0, value);
    Ok(command)
}
