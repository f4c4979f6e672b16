//! The commands that the proxy knows, by name.
//!
//! Names and meanings are those of Redis; the choice is this project's own. It stands on no other crate. Begin with
//! `look`.
#![tactic(auto)]

ghost use Rattle.std.specs.Prelude.{◌≡◌, ◌≢◌, IfSome, IfNone, Contains, All};
ghost use Rattle.std.specs.Str.{str_to_ascii_lowercase};
ghost use Rattle.std.specs.Option.{option_map};
ghost use Rattle.command_table.specs.Table.{rows, row_named};
ghost use Rattle.command_table.specs.Entry.{row_of};

mod entries;
mod laws;
mod names;
mod usual;

use entries::own_entry;
pub use laws::{
    each_row_is_found, found_stands_in_table, names_are_distinct, names_are_lower_case,
};
use names::one_key_entry;
use usual::usual_entry;

/// How the proxy handles a command.
#[derive(Clone, Copy, Debug, PartialEq, Eq, Hash)]
pub enum Kind {
    /// PING: answered by the proxy. It takes one word.
    Ping,
    /// ECHO: answered by the proxy with its second word. It takes two.
    Echo,
    /// QUIT: answered by the proxy, which then takes no further command of the connection.
    Quit,
    /// A command that its key's host answers as a whole.
    One,
    /// MGET: split into a GET for each key.
    SplitGet,
    /// MSET: split into a SET for each key and its value. The number of its words is odd.
    SplitSet,
    /// DEL, EXISTS, TOUCH or UNLINK, which count keys: split into one for each key.
    SplitSum,
}

/// An entry of the table.
#[derive(Clone, Copy, Debug, PartialEq, Eq)]
pub struct Entry {
    /// How the proxy handles the command.
    pub kind: Kind,
    /// The command's name, in lower case.
    pub name: &'static str,
    /// The least number of words, with the name.
    pub least: usize,
    /// The index of the word that is the key; 0 for a command without a key.
    pub key_at: usize,
}

/// The entry of this name, compared without ASCII case, or `None`.
pub fn look(name: &[u8]) -> Option<Entry>
    ensures found { IfSome result (λ e. Contains rows (row_of e)
        × (str_to_ascii_lowercase name.now ≡ e.name.now)) }
    ensures unknown { IfNone result (All (λ r. str_to_ascii_lowercase name.now ≢ r.name) rows) }
    ensures row { option_map row_of result ≡ row_named name.now }
{
    if let Some(entry) = usual_entry(name) {
        return Some(entry);
    }
    own_entry(name).or_else(|| one_key_entry(name))
}
