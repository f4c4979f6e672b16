ghost use Rattle.std.specs.Prelude.{◌≡◌, ◌++◌, IfOk, IfErr, OnOk};
ghost use Rattle.command_table.specs.Entry.{row_of};
ghost use Rattle.splitter.specs.Plan.{shown_name, shown_byte, unsupported_text, wrong_number};

use crate::error::SplitError;
use bytes::Bytes;
use command_table::Entry;
use limits::MAX_SHOWN;
use std::alloc::{AllocError, Global};

pub(crate) fn unsupported(alloc: Global, name: &[u8]) -> Result<Bytes, SplitError>
    ensures text { IfOk result (λ text. text ≡ unsupported_text name.now) }
    ensures err { IfErr result (λ e. e ≡ SplitError.NoMemory) }
{
    let mut text = Vec::new(alloc);
    text.extend_from_slice(b"unsupported command '")?;
    append_shown(&mut text, name)?;
    text.push(b'\'')?;
    Ok(Bytes::from_vec(text)?)
}

fn append_shown(text: &mut Vec<u8>, name: &[u8]) -> Result<(), AllocError>
    ensures { OnOk result (text.new.items ≡ text.old.items ++ shown_name name.now) }
{
    for byte in &name[..name.len().min(MAX_SHOWN)] {
        text.push(shown_byte(*byte))?;
    }
    Ok(())
}

fn shown_byte(byte: u8) -> u8
    ensures { result ≡ shown_byte byte }
{
    if (0x20..=0x7E).contains(&byte) {
        byte
    } else {
        b'?'
    }
}

pub(crate) fn wrong_number(alloc: Global, entry: Entry) -> Result<Bytes, SplitError>
    ensures text { IfOk result (λ text. text ≡ wrong_number (row_of entry)) }
    ensures err { IfErr result (λ e. e ≡ SplitError.NoMemory) }
{
    let mut text = Vec::new(alloc);
    text.extend_from_slice(b"wrong number of arguments for '")?;
    text.extend_from_slice(entry.name.as_bytes())?;
    text.extend_from_slice(b"' command")?;
    Ok(Bytes::from_vec(text)?)
}
