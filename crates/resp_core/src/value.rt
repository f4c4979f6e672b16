ghost use Rattle.std.specs.Prelude.{◌≡◌, IfOk, IfErr};
ghost use Rattle.std.specs.List.{list_all};
ghost use Rattle.resp_core.specs.Tree.{is_text_byte, are_plain_trees, trees_of};

use crate::error::RespError;
use crate::payload::Payload;
use bytes::Bytes;
use std::alloc::Global;
use std::marker::Model;

/// A value of RESP2, the Redis serialization protocol.
#[derive(Drop)]
#[cycle(value)]
pub enum Value {
    /// A simple string, `+..`. It can be written only without CR and LF.
    Simple(Bytes),
    /// An error, `-..`. It can be written only without CR and LF.
    Fault(Bytes),
    /// An integer, `:..`, in the signed 64-bit range.
    Whole(i64),
    /// A bulk string, `$..`, of any bytes.
    Bulk(Payload),
    /// The null bulk string, `$-1`.
    NullBulk,
    /// An array, `*..`.
    List(Values),
    /// The null array, `*-1`.
    NullList,
}

/// The members of an array, which contracts see as a list of values.
#[derive(Drop)]
#[cycle(value)]
pub struct Values(pub Vec<Value>);

impl Model for Values {
    ghost use Rattle.std.specs.Prelude.{List};
    ghost use Rattle.resp_core.specs.Tree.{Tree};

    ghost Value = { List Tree };

    ghost use Rattle.resp_core.specs.Code.{tree_code};
    ghost use Rattle.std.specs.Coded.{coded_list};

    ghost coded = { coded_list tree_code };

    ghost use Rattle.resp_core.specs.Value.{values_view};

    ghost view = { values_view };

    ghost use Rattle.resp_core.specs.Tree.{depth_of_members, trees_of};

    ghost size = { λ ts. depth_of_members (trees_of ts) };

    ghost use Rattle.std.proofs.Common.{arith};
    ghost use Rattle.resp_core.specs.NestingDepth.{most_le_depth};

    ghost size_decreases = { λ a h. Prim.omega (arith, most_le_depth a.0.items) };
}

impl Value {
    ghost use Rattle.resp_core.specs.Value.{tree_of};
    ghost use Rattle.resp_core.specs.Tree.{is_plain_tree};

    /// Whether no simple string and no error in it has a CR or an LF, so that it can be written.
    #[cycle(plain)]
    pub fn is_plain(&self) -> bool
        ensures { result ≡ is_plain_tree (tree_of self.now) }
    {
        match self {
            Value::Simple(text) | Value::Fault(text) => is_line(text.as_slice()),
            Value::List(values) => are_plain(values),
            _ => true,
        }
    }
}

impl Value {
    /// An equal value that shares its payloads' bytes. Refused 101 (no memory).
    #[cycle(share)]
    pub fn share(&self, alloc: Global) -> Result<Value, RespError>
        ensures value { IfOk result (λ v. v ≡ self.now) }
        ensures err { IfErr result (λ e. e ≡ RespError.NoMemory) }
    {
        match self {
            Value::Simple(text) => Ok(Value::Simple(text.clone()?)),
            Value::Fault(text) => Ok(Value::Fault(text.clone()?)),
            Value::Whole(n) => Ok(Value::Whole(*n)),
            Value::Bulk(payload) => Ok(Value::Bulk(payload.share()?)),
            Value::NullBulk => Ok(Value::NullBulk),
            Value::List(values) => Ok(Value::List(share_values(values, alloc)?)),
            Value::NullList => Ok(Value::NullList),
        }
    }
}

#[cycle(share)]
fn share_values(values: &Values, alloc: Global) -> Result<Values, RespError>
    ensures value { IfOk result (λ v. v ≡ values.now) }
    ensures err { IfErr result (λ e. e ≡ RespError.NoMemory) }
{
    let mut shared = Vec::new(alloc);
    for value in &values.0 {
        shared.push(value.share(alloc)?)?;
    }
    Ok(Values(shared))
}

#[cycle(plain)]
fn are_plain(values: &Values) -> bool
    ensures { result ≡ are_plain_trees (trees_of values.now) }
{
    for v in &values.0 {
        if !v.is_plain() {
            return false;
        }
    }
    true
}

fn is_line(bytes: &[u8]) -> bool
    ensures { result ≡ list_all is_text_byte bytes.now }
{
    bytes.iter().all(|b| *b != b'\r' && *b != b'\n')
}
