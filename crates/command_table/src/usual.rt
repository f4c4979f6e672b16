ghost use Rattle.std.specs.Prelude.{◌≡◌, Some, IfSome};
ghost use Rattle.command_table.specs.Table.{row_named};
ghost use Rattle.command_table.specs.Entry.{row_of};

use crate::{Entry, Kind};

const GET: Entry = Entry {
    kind: Kind::One,
    name: "get",
    least: 2,
    key_at: 1,
};

const SET: Entry = Entry {
    kind: Kind::One,
    name: "set",
    least: 2,
    key_at: 1,
};

// Most commands are a GET or a SET, spelled so: for them no row of the table is compared.
#[inline(always)]
pub(crate) fn usual_entry(name: &[u8]) -> Option<Entry>
    ensures { IfSome result (λ e. row_named name.now ≡ Some (row_of e)) }
{
    match name {
        b"GET" => Some(GET),
        b"SET" => Some(SET),
        b"get" => Some(GET),
        b"set" => Some(SET),
        _ => None,
    }
}
