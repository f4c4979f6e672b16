ghost use Rattle.std.specs.Prelude.{◌≡◌, ◌<◌, IfSome, IfNone, true, false, length, map};
ghost use Rattle.resp_core.specs.Value.{tree_of};
ghost use Rattle.resp_core.specs.Command.{is_command, are_words, is_bulk, payload_of, word, IsArrayOf};

use crate::payload::Payload;
use crate::value::{Value, Values};

impl Value {
    /// The words of a command, an array of bulk strings only, and of at least one. The first is its name. `None`
    /// for any other value.
    pub fn words(&self) -> Option<&Values>
        ensures command { IfSome result (λ words. is_command (tree_of self.now) ≡ true
            × are_words words.now ≡ true × IsArrayOf words.now (tree_of self.now)) }
        ensures none { IfNone result (is_command (tree_of self.now) ≡ false) }
    {
        match self {
            Value::List(members) => {
                if members.are_words() {
                    Some(members)
                } else {
                    None
                }
            }
            _ => None,
        }
    }

    fn is_bulk(&self) -> bool
        ensures { result ≡ is_bulk (tree_of self.now) }
    {
        matches!(self, Value::Bulk(_))
    }
}

impl Values {
    fn are_words(&self) -> bool
        ensures { result ≡ are_words self.now }
    {
        for member in &self.0 {
            if !member.is_bulk() {
                return false;
            }
        }
        !self.0.is_empty()
    }

    /// Word `at`; word 0 is the command's name. The values must be those of `Value::words`.
    pub fn word(&self, at: usize) -> &Payload
        requires words { are_words self.now ≡ true }
        requires inside { at < length self.now }
        ensures { result.now ≡ word (map payload_of self.now) at }
    {
        match &self.0[at] {
            Value::Bulk(word) => word,
            _ => unreachable!(),
        }
    }
}
