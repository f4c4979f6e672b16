ghost use Rattle.std.specs.Prelude.{◌≡◌, map};
ghost use Rattle.std.specs.Option.{option_map};
ghost use Rattle.command_table.specs.Table.{own_rows, row_in};
ghost use Rattle.command_table.specs.Entry.{row_of};

use crate::{Entry, Kind};

const ENTRIES: [Entry; 11] = [
    Entry {
        kind: Kind::Ping,
        name: "ping",
        least: 1,
        key_at: 0,
    },
    Entry {
        kind: Kind::Echo,
        name: "echo",
        least: 2,
        key_at: 0,
    },
    Entry {
        kind: Kind::Quit,
        name: "quit",
        least: 1,
        key_at: 0,
    },
    Entry {
        kind: Kind::SplitGet,
        name: "mget",
        least: 2,
        key_at: 1,
    },
    Entry {
        kind: Kind::SplitSet,
        name: "mset",
        least: 3,
        key_at: 1,
    },
    Entry {
        kind: Kind::SplitSum,
        name: "del",
        least: 2,
        key_at: 1,
    },
    Entry {
        kind: Kind::SplitSum,
        name: "exists",
        least: 2,
        key_at: 1,
    },
    Entry {
        kind: Kind::SplitSum,
        name: "touch",
        least: 2,
        key_at: 1,
    },
    Entry {
        kind: Kind::SplitSum,
        name: "unlink",
        least: 2,
        key_at: 1,
    },
    Entry {
        kind: Kind::One,
        name: "eval",
        least: 4,
        key_at: 3,
    },
    Entry {
        kind: Kind::One,
        name: "evalsha",
        least: 4,
        key_at: 3,
    },
];

pub(crate) fn own_entry(name: &[u8]) -> Option<Entry>
    ensures { option_map row_of result ≡ row_in own_rows name.now }
{
    find_entry(entries(), name)
}

fn entries() -> &'static [Entry]
    ensures { map row_of result.now ≡ own_rows }
{
    &ENTRIES
}

fn find_entry(entries: &[Entry], name: &[u8]) -> Option<Entry>
    ensures { option_map row_of result ≡ row_in (map row_of entries.now) name.now }
{
    for entry in entries {
        if name.eq_ignore_ascii_case(entry.name.as_bytes()) {
            return Some(*entry);
        }
    }
    None
}
