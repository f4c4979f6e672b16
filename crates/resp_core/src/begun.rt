//! Lists whose members haven't all come.
ghost use Rattle.std.specs.Prelude.{◌≡◌, ◌≤◌, ◌-◌, ℕ, List, [], length, ◌++◌, ◌∷◌, ◌<◌, vec_len, vec_capacity, IfOk, IfErr, IfSome, IfNone};
ghost use Rattle.resp_core.specs.OpenLists.{nested_outcome};
ghost use Rattle.resp_core.specs.Reading.{value_at, found};
ghost use Rattle.resp_core.specs.Value.{tree_of};

use crate::value::{Value, Values};
use std::alloc::{AllocFailed, Global};

#[derive(Drop)]
pub(crate) struct Begun {
    pub(crate) members: Values,
    pub(crate) due: u64,
}

// Puts a value into the innermost list. A complete list goes into the next one. Returns the outermost value if it
// is complete. Where memory is refused, lists may have been completed; the error has the last.
pub(crate) fn put(opens: &mut Vec<Begun>, value: Value) -> Result<Option<Value>, AllocFailed<Value>>
    ensures due { IfOk result (λ o. IfNone o ((most left : ℕ) (rest : List ℕ)
        → length opens.old.items ≤ left
        → nested_outcome most left opens.old.items (found (tree_of value) rest)
        ≡ nested_outcome most left opens.new.items
        (value_at most (left - length opens.new.items) rest))) }
    ensures whole { IfOk result (λ o. IfSome o (λ v. (opens.new.items ≡ [])
        × ((most left : ℕ) (rest : List ℕ)
        → length opens.old.items ≤ left
        → nested_outcome most left opens.old.items (found (tree_of value) rest)
        ≡ found (tree_of v) rest))) }
    ensures err { IfErr result (λ e. (most left : ℕ) (rest : List ℕ)
        → length opens.old.items ≤ left
        → nested_outcome most left opens.old.items (found (tree_of value) rest)
        ≡ nested_outcome most left opens.new.items (found (tree_of e.value) rest)) }
    ensures fewer { length opens.new.items ≤ length opens.old.items }
{
    let mut value = value;
    while let Some(list) = opens.pop() {
        let due = list.due;
        let mut members = list.members;
        if let Err(failed) = members.0.push(value) {
            put_back(opens, Begun { members, due });
            return Err(failed);
        }
        if due > 0 {
            put_back(
                opens,
                Begun {
                    members,
                    due: due - 1,
                },
            );
            return Ok(None);
        }
        value = Value::List(members);
    }
    Ok(Some(value))
}

fn put_back(opens: &mut Vec<Begun>, list: Begun)
    requires { vec_len opens.old < vec_capacity opens.old }
    ensures { opens.new.items ≡ opens.old.items ++ list ∷ [] }
{
    if opens.push(list).is_err() {
        prove!(false);
    }
}
