ghost use Rattle.std.specs.Prelude.{◌≡◌, ◌↔◌, Some, None, slice_get, IsTrue, IsSome, IfOk, IfErr};
ghost use Rattle.std.specs.Option.{option_copied, option_map};
ghost use Rattle.resp_core.specs.Value.{tree_of};
ghost use Rattle.splitter.specs.Join.{MayJoin};
ghost use Rattle.reply_queue.specs.Command.{awaiting_command, with_value, reply_to, same_reply_to};

use crate::joined::Joined;
use resp_core::Value;
use splitter::{Join, SplitError};
use std::alloc::{AllocError, Global};
use std::marker::Model;

#[derive(Drop)]
pub(crate) struct Command {
    parts: Parts,
}

/// A command whose only value is the reply takes no memory.
#[derive(Drop)]
pub(crate) enum Parts {
    Same(Option<Value>),
    Joined(Joined),
}

impl Model for Command {
    ghost use Rattle.std.specs.Prelude.{IsTrue};
    ghost use Rattle.reply_queue.specs.Command.{AwaitedCommand, command_code};

    ghost Value = { AwaitedCommand };

    ghost coded = { command_code };

    ghost use Rattle.reply_queue.specs.Parts.{command_by, are_told_apart};

    ghost view = { λ c. command_by c.parts };

    ghost invariant = { λ c. IsTrue (are_told_apart c.parts) };
}

impl Command {
    /// There must be at least one part, and exactly one for `Same`.
    pub(crate) fn new(alloc: Global, how: Join, parts: usize) -> Result<Command, AllocError>
        requires { MayJoin how parts }
        ensures { IfOk result (λ command. command ≡ awaiting_command how parts) }
    {
        let parts = match how {
            Join::Same => Parts::Same(None),
            Join::Get | Join::Set | Join::Sum => Parts::Joined(Joined::new(alloc, how, parts)?),
        };
        Ok(Command { parts })
    }

    pub(crate) fn is_open(&self, part: usize) -> bool
        ensures { IsTrue result ↔ (slice_get self.now.values part ≡ Some None) }
    {
        match &self.parts {
            Parts::Same(value) => part == 0 && value.is_none(),
            Parts::Joined(joined) => joined.is_open(part),
        }
    }

    pub(crate) fn set(&mut self, part: usize, value: Value)
        requires { slice_get self.old.values part ≡ Some None }
        ensures { self.new ≡ with_value part (tree_of value) self.old }
    {
        match &mut self.parts {
            Parts::Same(place) => drop(place.replace(value)),
            Parts::Joined(joined) => joined.set(part, value),
        }
    }

    pub(crate) fn is_complete(&self) -> bool
        ensures { IsTrue result ↔ IsSome (reply_to self.now) }
    {
        match &self.parts {
            Parts::Same(value) => value.is_some(),
            Parts::Joined(joined) => joined.is_complete(),
        }
    }

    pub(crate) fn same_reply(&self) -> Option<&Value>
        ensures { option_map tree_of (option_copied result) ≡ same_reply_to self.now }
    {
        match &self.parts {
            Parts::Same(value) => value.as_ref(),
            Parts::Joined(_) => None,
        }
    }

    pub(crate) fn reply(&self, alloc: Global) -> Result<Value, SplitError>
        requires { IsSome (reply_to self.now) }
        ensures value { IfOk result (λ reply. reply_to self.now ≡ Some (tree_of reply)) }
        ensures err { IfErr result (λ e. e ≡ SplitError.NoMemory) }
    {
        match &self.parts {
            Parts::Same(Some(value)) => Ok(value.share(alloc)?),
            Parts::Same(None) => unreachable!(),
            Parts::Joined(joined) => joined.reply(alloc),
        }
    }
}
