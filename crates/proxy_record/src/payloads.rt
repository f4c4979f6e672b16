ghost use Rattle.std.specs.Prelude.{◌≡◌, ◌++◌, OnOk};
ghost use Rattle.proxy_record.specs.Leaves.{leaf, leaf_if};

use crate::hashing::push_hash;
use crate::pieces::push_hex;
use std::alloc::AllocError;

/// How payloads stand in a record.
#[derive(Clone, Copy)]
pub enum Payloads {
    /// As they are.
    Clear,
    /// By length and hash, but for what the format has in the clear.
    Hashed {
        /// The file's own key.
        key: [u8; 16],
        /// Whether only the tag of a key makes its ring point.
        tags: bool,
    },
}

impl Payloads {
    /// Appends the leaf of these bytes.
    pub(crate) fn push_leaf(&self, bytes: &[u8], line: &mut Vec<u8>) -> Result<(), AllocError>
        ensures { OnOk result (line.new.items ≡ line.old.items ++ leaf self.now bytes.now) }
    {
        match self {
            Payloads::Clear => push_hex(line, bytes),
            Payloads::Hashed { key, .. } => push_hash(key, bytes, line),
        }
    }

    /// Appends the leaf of bytes that stand in the clear where `is_clear`.
    pub(crate) fn push_leaf_if(
        &self,
        is_clear: bool,
        bytes: &[u8],
        line: &mut Vec<u8>,
    ) -> Result<(), AllocError>
        ensures { OnOk result
            (line.new.items ≡ line.old.items ++ leaf_if is_clear self.now bytes.now) }
    {
        if is_clear {
            push_hex(line, bytes)
        } else {
            self.push_leaf(bytes, line)
        }
    }
}
