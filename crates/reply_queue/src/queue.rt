ghost use Rattle.std.specs.Prelude.{◌≡◌, ◌+◌, ◌-◌, ◌^◌, ◌<◌, ◌≤◌, ◌↔◌, [], ◌∷◌, ◌++◌, length, IsTrue, IsSome, OnOk, OnErr, OnSome, IfOk, IfErr, IfNone, IsErrOf};
ghost use Rattle.std.specs.Option.{option_copied, option_map};
ghost use Rattle.resp_core.specs.Value.{tree_of};
ghost use Rattle.splitter.specs.Join.{MayJoin};
ghost use Rattle.reply_queue.specs.Command.{awaiting_command};
ghost use Rattle.reply_queue.specs.Queue.{IsOpen, with_part, front_reply, same_front_reply, without_front};

use crate::command::Command;
use crate::refusal::QueueRefusal;
use limits::MAX_COMMANDS;
use resp_core::Value;
use splitter::Join;
use std::alloc::Global;
use std::collections::VecDeque;
use std::marker::Model;

/// The commands of one connection that are accepted and not popped, the oldest first. Only `accept`, `pop` and
/// `front` take memory.
pub struct Queue {
    alloc: Global,
    popped: u64,
    commands: VecDeque<Command>,
}

impl Drop for Queue {
    fn drop(self) {
        let Queue {
            alloc: _,
            popped: _,
            commands: _,
        } = self;
    }
}

impl Model for Queue {
    ghost use Rattle.std.specs.Prelude.{◌+◌, ◌≤◌, ◌<◌, ◌^◌};
    ghost use Rattle.std.specs.VecDeque.{deque_len};
    ghost use Rattle.reply_queue.specs.Queue.{QueueState, queue_code};

    ghost Value = { QueueState };

    ghost coded = { queue_code };

    ghost use Rattle.limits.specs.declared.queues.TheConstants.{MAX_COMMANDS};

    ghost view = { λ q. record { popped = q.popped; commands = q.commands.items } };

    ghost invariant = { λ q. (deque_len q.commands ≤ MAX_COMMANDS)
        × (q.popped + deque_len q.commands < 2 ^ 64) };
}

impl Queue {
    /// An empty queue. The first index is 0.
    pub fn new(alloc: Global) -> Queue
        ensures popped { result.popped ≡ 0 }
        ensures commands { result.commands ≡ [] }
    {
        Queue {
            alloc,
            popped: 0,
            commands: VecDeque::new(alloc),
        }
    }

    /// Accepts a command of this many parts, whose values will be joined by `how`, and returns its index: the number of
    /// commands accepted before. It reserves a place for each value. There must be 1 to 4,294,967,295 parts, and
    /// exactly one for `Same`.
    ///
    /// Refused 802 (crowded) exactly if 1,024 commands are accepted and not popped, else 803 (spent) exactly if the
    /// index would be the greatest `u64`, else 801 (no memory).
    pub fn accept(&mut self, how: Join, parts: usize) -> Result<u64, QueueRefusal>
        requires join { MayJoin how parts }
        requires parts { parts < 2 ^ 32 }
        ensures index { IfOk result (λ index. index ≡ self.old.popped + length self.old.commands) }
        ensures commands { OnOk result
            (self.new.commands ≡ self.old.commands ++ awaiting_command how parts ∷ []) }
        ensures popped { self.new.popped ≡ self.old.popped }
        ensures crowded { IsErrOf result QueueRefusal.Crowded
            ↔ (MAX_COMMANDS ≤ length self.old.commands) }
        ensures spent { IsErrOf result QueueRefusal.Spent
            ↔ ((length self.old.commands < MAX_COMMANDS)
            × (self.old.popped + length self.old.commands ≡ 2 ^ 64 - 1)) }
        ensures accepted { OnOk result ((length self.old.commands < MAX_COMMANDS)
            × (self.old.popped + length self.old.commands < 2 ^ 64 - 1)) }
        ensures err { OnErr result (self.new ≡ self.old) }
    {
        if self.commands.len() >= MAX_COMMANDS {
            return Err(QueueRefusal::Crowded);
        }
        let index = self.popped + self.commands.len() as u64;
        if index == u64::MAX {
            return Err(QueueRefusal::Spent);
        }
        self.commands.reserve(1)?;
        let command = Command::new(self.alloc, how, parts)?;
        self.commands.push_back_reserved(command);
        Ok(index)
    }

    /// Whether the command is accepted and not popped, and its part has no value.
    pub fn is_open(&self, command: u64, part: u32) -> bool
        ensures { IsTrue result ↔ IsOpen self.now command part }
    {
        if command < self.popped {
            return false;
        }
        match self.commands.get((command - self.popped) as usize) {
            Some(command) => command.is_open(part as usize),
            None => false,
        }
    }

    /// Gives an open part its value.
    pub fn set_part(&mut self, command: u64, part: u32, value: Value)
        requires { IsOpen self.old command part }
        ensures { self.new ≡ with_part command part (tree_of value) self.old }
    {
        let place = (command - self.popped) as usize;
        self.commands[place].set(part as usize, value);
    }

    /// Whether there is a command and all parts of the oldest have values.
    pub fn ready(&self) -> bool
        ensures { IsTrue result ↔ IsSome (front_reply self.now.commands) }
    {
        match self.commands.front() {
            Some(command) => command.is_complete(),
            None => false,
        }
    }

    /// The number of commands accepted and not popped.
    pub fn left(&self) -> usize
        ensures commands { result ≡ length self.now.commands }
        ensures limit { result ≤ MAX_COMMANDS }
    {
        self.commands.len()
    }

    /// Removes the oldest command, and returns its reply: the join of its parts' values. `None` exactly if there is no
    /// command or a part of the oldest has no value.
    ///
    /// Refused 801 (no memory), only if there is a reply.
    pub fn pop(&mut self) -> Result<Option<Value>, QueueRefusal>
        ensures reply { IfOk result
            (λ reply. option_map tree_of reply ≡ front_reply self.old.commands) }
        ensures popped { IfOk result (λ reply. OnSome reply (self.new ≡ without_front self.old)) }
        ensures none { IfOk result (λ reply. IfNone reply (self.new ≡ self.old)) }
        ensures ready { OnErr result (IsSome (front_reply self.old.commands)) }
        ensures memory { IfErr result (λ e. e ≡ QueueRefusal.NoMemory) }
        ensures err { OnErr result (self.new ≡ self.old) }
    {
        let reply = self.front()?;
        if reply.is_some() {
            self.drop_front();
        }
        Ok(reply)
    }

    /// The result that `pop` would have. It changes nothing.
    ///
    /// Refused 801 (no memory), only if there is a reply.
    pub fn front(&self) -> Result<Option<Value>, QueueRefusal>
        ensures reply { IfOk result
            (λ reply. option_map tree_of reply ≡ front_reply self.now.commands) }
        ensures ready { OnErr result (IsSome (front_reply self.now.commands)) }
        ensures memory { IfErr result (λ e. e ≡ QueueRefusal.NoMemory) }
    {
        match self.commands.front() {
            Some(command) if command.is_complete() => Ok(Some(command.reply(self.alloc)?)),
            _ => Ok(None),
        }
    }

    /// The reply to the oldest command, if it is the value of the command's only part (`Same`). `None` exactly if there
    /// is no command, its values are joined otherwise, or its value hasn't come. It shares nothing.
    pub fn same_front(&self) -> Option<&Value>
        ensures reply { option_map tree_of (option_copied result)
            ≡ same_front_reply self.now.commands }
    {
        match self.commands.front() {
            Some(command) => command.same_reply(),
            None => None,
        }
    }

    /// Removes the oldest command, which must be `ready`.
    pub fn drop_front(&mut self)
        requires { IsSome (front_reply self.old.commands) }
        ensures { self.new ≡ without_front self.old }
    {
        drop(self.commands.pop_front());
        self.popped += 1;
    }
}
