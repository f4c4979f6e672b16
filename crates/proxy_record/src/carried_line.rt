ghost use Rattle.std.specs.Prelude.{◌≡◌, ◌++◌, OnOk, OnErr};
ghost use Rattle.proxy_record.specs.CarriedLine.{carried_text, carried_head, to_text};

use crate::payloads::Payloads;
use crate::pieces::{append, push_all, push_piece};
use itoa::Buffer;
use std::alloc::{AllocError, Global};

/// Where a client's socket went.
#[derive(Clone, Copy)]
pub enum Successor {
    /// It isn't known.
    Unknown,
    /// Nowhere: the client had left, or the program ended.
    Nobody,
    /// To a connection in the generation of this number.
    Generation(u64),
}

/// A client's socket that goes over to a later generation.
#[derive(Clone, Copy)]
pub struct Carried {
    /// Its connection in this generation.
    pub conn: u64,
    /// Its number.
    pub socket: u64,
    /// How many commands were accepted on it in its life.
    pub commands: u64,
    /// Where it went.
    pub to: Successor,
}

/// Appends the line of a socket that goes over with these bytes, which were read and belong to no accepted command. Refused
/// only for want of memory: nothing is appended.
pub fn put_carried(
    alloc: Global,
    carried: Carried,
    rest: &[u8],
    payloads: &Payloads,
    out: &mut Vec<u8>,
) -> Result<(), AllocError>
    ensures ok { OnOk result (out.new.items
        ≡ out.old.items ++ carried_text payloads.now carried rest.now) }
    ensures err { OnErr result (out.new.items ≡ out.old.items) }
{
    let mut line = Vec::new(alloc);
    push_carried(carried, rest, payloads, &mut line)?;
    append(out, &line)
}

fn push_carried(
    carried: Carried,
    rest: &[u8],
    payloads: &Payloads,
    line: &mut Vec<u8>,
) -> Result<(), AllocError>
    ensures { OnOk result (line.new.items
        ≡ line.old.items ++ carried_text payloads.now carried rest.now) }
{
    push_carried_head(carried, line)?;
    payloads.push_leaf(rest, line)?;
    push_piece(line, "\"")?;
    push_to(carried.to, line)?;
    push_piece(line, "}}\n")
}

fn push_carried_head(carried: Carried, line: &mut Vec<u8>) -> Result<(), AllocError>
    ensures { OnOk result (line.new.items
        ≡ line.old.items ++ carried_head carried.conn carried.socket carried.commands) }
{
    let (mut conns, mut sockets, mut counts) = (Buffer::new(), Buffer::new(), Buffer::new());
    push_all(
        line,
        &[
            "{\"carried\": {\"conn\": ",
            conns.format(carried.conn),
            ", \"socket\": ",
            sockets.format(carried.socket),
            ", \"commands\": ",
            counts.format(carried.commands),
            ", \"rest\": \"",
        ],
    )
}

fn push_to(to: Successor, line: &mut Vec<u8>) -> Result<(), AllocError>
    ensures { OnOk result (line.new.items ≡ line.old.items ++ to_text to) }
{
    match to {
        Successor::Unknown => Ok(()),
        Successor::Nobody => push_piece(line, ", \"to\": null"),
        Successor::Generation(n) => push_all(line, &[", \"to\": ", Buffer::new().format(n)]),
    }
}
