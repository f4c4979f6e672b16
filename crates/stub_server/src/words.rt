ghost use Rattle.std.specs.Prelude.{◌≡◌, true, map, drop};
ghost use Rattle.resp_core.specs.Value.{tree_of};
ghost use Rattle.resp_core.specs.Command.{are_words, payload_of};

use resp_core::{Value, Values};

pub(crate) fn keys_of(words: &Values) -> &[Value]
    requires { are_words words.now ≡ true }
    ensures { map tree_of result.now ≡ drop 1 words.now }
{
    &words.0[1..]
}

/// Empty for any value but a bulk string.
pub(crate) fn payload(value: &Value) -> &[u8]
    ensures { result.now ≡ payload_of (tree_of value.now) }
{
    match value {
        Value::Bulk(bytes) => bytes.as_slice(),
        _ => &[],
    }
}
