//! Joins by their names.
ghost use Rattle.std.specs.Prelude.{IsTrue};
ghost use Rattle.splitter.specs.Join.{MayJoin};

use anyhow::Result;
use splitter::Join;
use test_rows::text::unknown;

pub(crate) fn join_of(name: &str) -> Result<Join> {
    match name {
        "Same" => Ok(Join::Same),
        "Get" => Ok(Join::Get),
        "Set" => Ok(Join::Set),
        "Sum" => Ok(Join::Sum),
        _ => unknown("join", name),
    }
}

pub(crate) fn may_join(how: Join, values: usize) -> bool
    ensures { IsTrue result → MayJoin how values }
{
    match how {
        Join::Same => values == 1,
        Join::Get | Join::Set | Join::Sum => values > 0,
    }
}
