ghost use Rattle.std.specs.Prelude.{IsTrue};
ghost use Rattle.resp_core.specs.Tree.{is_plain_tree};
ghost use Rattle.resp_core.specs.Value.{tree_of};

use resp_core::Value;

/// An answer, which is plain.
#[derive(Drop)]
pub struct Reply {
    pub(crate) value: Value,
    ghost plain: { IsTrue (is_plain_tree (tree_of value)) },
}
