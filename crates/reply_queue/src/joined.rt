ghost use Rattle.std.specs.Prelude.{◌≡◌, ◌<◌, ◌↔◌, Some, None, length, replicate, slice_get, slice_set, vec_len, IsTrue, IsSome, IfOk, IfErr};
ghost use Rattle.std.specs.Option.{option_copied, option_map};
ghost use Rattle.resp_core.specs.Value.{tree_of};
ghost use Rattle.splitter.specs.Join.{MayJoin};
ghost use Rattle.reply_queue.specs.Command.{awaiting_command, with_value, reply_to};

use resp_core::Value;
use splitter::{Join, SplitError, join};
use std::alloc::{AllocError, Global};
use std::marker::Model;
use std::mem;

#[derive(Drop)]
pub(crate) struct Joined {
    how: Join,
    // Null in the place of a value that hasn't come.
    values: Vec<Value>,
    come: Vec<bool>,
    missing: usize,
}

impl Model for Joined {
    ghost use Rattle.reply_queue.specs.Command.{AwaitedCommand, command_code};

    ghost Value = { AwaitedCommand };

    ghost coded = { command_code };

    ghost use Rattle.reply_queue.specs.Places.{values_come, AreKept};

    ghost view = { λ c. record { how = c.how; values = values_come c.come.items c.values.items } };

    ghost invariant = { λ c. AreKept c.how c.come.items c.values.items c.missing };
}

impl Joined {
    pub(crate) fn new(alloc: Global, how: Join, parts: usize) -> Result<Joined, AllocError>
        requires { MayJoin how parts }
        ensures { IfOk result (λ joined. joined ≡ awaiting_command how parts) }
    {
        let values = nulls(alloc, parts)?;
        let come = vec![in alloc; false; parts]?;
        Ok(Joined {
            how,
            values,
            come,
            missing: parts,
        })
    }

    pub(crate) fn is_open(&self, part: usize) -> bool
        ensures { IsTrue result ↔ (slice_get self.now.values part ≡ Some None) }
    {
        match self.come.get(part) {
            Some(come) => !*come,
            None => false,
        }
    }

    pub(crate) fn set(&mut self, part: usize, value: Value)
        requires { slice_get self.old.values part ≡ Some None }
        ensures { self.new ≡ with_value part (tree_of value) self.old }
    {
        put(&mut self.values, part, value);
        self.come[part] = true;
        self.missing -= 1;
    }

    pub(crate) fn is_complete(&self) -> bool
        ensures { IsTrue result ↔ IsSome (reply_to self.now) }
    {
        self.missing == 0
    }

    pub(crate) fn reply(&self, alloc: Global) -> Result<Value, SplitError>
        requires { IsSome (reply_to self.now) }
        ensures value { IfOk result (λ reply. reply_to self.now ≡ Some (tree_of reply)) }
        ensures err { IfErr result (λ e. e ≡ SplitError.NoMemory) }
    {
        join(alloc, self.how, self.values.as_slice())
    }
}

fn nulls(alloc: Global, count: usize) -> Result<Vec<Value>, AllocError>
    ensures { IfOk result (λ values. vec_len values ≡ count) }
{
    let mut values = Vec::with_capacity(alloc, count)?;
    for _ in 0..count {
        values.push_reserved(Value::NullBulk);
    }
    Ok(values)
}

fn put(values: &mut Vec<Value>, place: usize, value: Value)
    requires { place < vec_len values.old }
    ensures { values.new.items ≡ slice_set values.old.items place value }
{
    drop(mem::replace(&mut values[place], value));
}
