ghost use Rattle.std.specs.Prelude.{◌≡◌, ◌++◌, IfOk, IfErr, length, map, not, count_by, codes};
ghost use Rattle.std.specs.Fmt.{decimal};
ghost use Rattle.resp_core.specs.Tree.{list, trees_of};
ghost use Rattle.resp_core.specs.Value.{tree_of};
ghost use Rattle.splitter.specs.Join.{join_of, MayJoin, in_place, finished_with, is_done, is_whole, number_of, total, told_sum, unless_failed, upstream_protocol_error};

use crate::error::SplitError;
use crate::plans::Join;
use bytes::Bytes;
use resp_core::{Value, Values};
use std::alloc::Global;

/// Joins the values of a command's parts, in their order. There must be at least one, and exactly one for `Same`.
/// Refused 701 (no memory).
pub fn join(alloc: Global, how: Join, values: &[Value]) -> Result<Value, SplitError>
    requires { MayJoin how (length values.now) }
    ensures value { IfOk result (λ v. tree_of v ≡ join_of how (map tree_of values.now)) }
    ensures err { IfErr result (λ e. e ≡ SplitError.NoMemory) }
{
    match how {
        Join::Same => Ok(values[0].share(alloc)?),
        Join::Get => Ok(Value::List(in_places(alloc, values)?)),
        Join::Set => {
            let done = Value::Simple(Bytes::from_static(b"OK"));
            unless_failed(alloc, undone_count(values), done)
        }
        Join::Sum => unless_failed(alloc, unwhole_count(values), told_sum(total(values))),
    }
}

fn undone_count(values: &[Value]) -> usize
    ensures { result ≡ count_by (λ t. not (is_done t)) (map tree_of values.now) }
{
    let mut count = 0;
    for value in values {
        if !is_done(value) {
            count += 1;
        }
    }
    count
}

fn unwhole_count(values: &[Value]) -> usize
    ensures { result ≡ count_by (λ t. not (is_whole t)) (map tree_of values.now) }
{
    let mut count = 0;
    for value in values {
        if !is_whole(value) {
            count += 1;
        }
    }
    count
}

fn in_places(alloc: Global, values: &[Value]) -> Result<Values, SplitError>
    ensures values { IfOk result (λ ts. ts ≡ map in_place (map tree_of values.now)) }
    ensures err { IfErr result (λ e. e ≡ SplitError.NoMemory) }
{
    let mut places = Vec::with_capacity(alloc, values.len())?;
    for value in values {
        places.push(in_place(alloc, value)?)?;
    }
    Ok(Values(places))
}

fn in_place(alloc: Global, value: &Value) -> Result<Value, SplitError>
    ensures value { IfOk result (λ v. tree_of v ≡ in_place (tree_of value.now)) }
    ensures err { IfErr result (λ e. e ≡ SplitError.NoMemory) }
{
    match value {
        Value::Fault(_) | Value::Bulk(_) | Value::NullBulk => Ok(value.share(alloc)?),
        _ => Ok(upstream_protocol_error()),
    }
}

fn upstream_protocol_error() -> Value
    ensures { tree_of result ≡ upstream_protocol_error }
{
    Value::Fault(Bytes::from_static(b"upstream protocol error"))
}

fn is_done(value: &Value) -> bool
    ensures { result ≡ is_done (tree_of value.now) }
{
    match value {
        Value::Simple(text) => text.as_slice() == b"OK".as_slice(),
        _ => false,
    }
}

fn is_whole(value: &Value) -> bool
    ensures { result ≡ is_whole (tree_of value.now) }
{
    matches!(value, Value::Whole(_))
}

fn unless_failed(alloc: Global, failed: usize, value: Value) -> Result<Value, SplitError>
    ensures value { IfOk result (λ v. tree_of v ≡ unless_failed failed (tree_of value)) }
    ensures err { IfErr result (λ e. e ≡ SplitError.NoMemory) }
{
    if failed == 0 {
        return Ok(value);
    }
    drop(value);
    finished_with(alloc, failed)
}

fn finished_with(alloc: Global, failed: usize) -> Result<Value, SplitError>
    ensures value { IfOk result (λ v. tree_of v ≡ finished_with failed) }
    ensures err { IfErr result (λ e. e ≡ SplitError.NoMemory) }
{
    let mut text = Vec::new(alloc);
    text.extend_from_slice(b"finished with ")?;
    text.extend_from_slice(failed.to_string(alloc)?.as_bytes())?;
    text.extend_from_slice(b" error(s)")?;
    Ok(Value::Fault(Bytes::from_vec(text)?))
}

// Fewer than 2^64 numbers of 64 bits fit 128 bits.
fn total(values: &[Value]) -> i128
    ensures { result ≡ total (map tree_of values.now) }
{
    let mut sum: i128 = 0;
    for value in values {
        sum += i128::from(number(value));
    }
    sum
}

fn number(value: &Value) -> i64
    ensures { result ≡ number_of (tree_of value.now) }
{
    match value {
        Value::Whole(n) => *n,
        _ => 0,
    }
}

fn told_sum(sum: i128) -> Value
    ensures { tree_of result ≡ told_sum sum }
{
    match i64::try_from(sum) {
        Ok(n) => Value::Whole(n),
        Err(_) => upstream_protocol_error(),
    }
}
