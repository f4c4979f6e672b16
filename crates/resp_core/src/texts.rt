ghost use Rattle.std.specs.Prelude.{◌≡◌, ◌++◌, IfOk, IfSome, IsTrue};
ghost use Rattle.resp_core.specs.Text.{text};
ghost use Rattle.resp_core.specs.Tree.{bulk, is_plain_tree};
ghost use Rattle.resp_core.specs.Value.{tree_of};

use crate::text::{append_behind, append_bulk, append_value, bulk_len};
use crate::text_block::TextBlock;
use crate::value::Value;
use bytes::Bytes;
use std::alloc::{AllocError, Global};
use std::marker::Model;

pub(crate) const MAX_TEXT_BLOCK: usize = 16_384;

const MAX_SHORT: usize = 1_024;

/// Writes texts.
///
/// One of more than 1,024 bytes has a block of its own. Shorter ones share blocks of at most 16,384 bytes, freed
/// with the last text.
#[derive(Drop)]
pub struct Texts {
    alloc: Global,
    block: TextBlock,
}

impl Model for Texts {
    ghost use Rattle.std.specs.Prelude.{⊤};

    ghost Value = { ⊤ };

    ghost view = { λ _. tt };
}

impl Texts {
    /// No text yet, and no block.
    pub fn new(alloc: Global) -> Texts {
        Texts {
            alloc,
            block: TextBlock::new(alloc, MAX_TEXT_BLOCK),
        }
    }

    /// The one spelling of the value, which must be plain. `text_len` is its `Value::text_len`; a wrong number
    /// doesn't change the text. A payload that lies in its text shares it.
    ///
    /// Refused only for want of memory.
    pub fn text_of(&mut self, value: &Value, text_len: u64) -> Result<Bytes, AllocError>
        requires { IsTrue (is_plain_tree (tree_of value.now)) }
        ensures { IfOk result (λ bytes. bytes ≡ text (tree_of value.now)) }
    {
        if let Some(text) = text_around(value) {
            return text.clone();
        }
        if text_len > MAX_SHORT as u64 {
            let mut text = Vec::with_capacity(self.alloc, text_len as usize)?;
            append_value(value, &mut text)?;
            return Ok(Bytes::from_vec(text)?);
        }
        let len = text_len as usize;
        self.block.begin(len)?;
        append_value(value, &mut self.block)?;
        self.block.finish(len)
    }

    /// `head`, and a bulk string of this payload. Refused only for want of memory.
    pub fn bulk_behind(&mut self, head: &[u8], payload: &[u8]) -> Result<Bytes, AllocError>
        ensures { IfOk result (λ bytes. bytes ≡ head.now ++ text (bulk payload.now)) }
    {
        let length = (head.len() as u64).saturating_add(bulk_len(payload.len() as u64));
        if length > MAX_SHORT as u64 {
            let mut text = Vec::with_capacity(self.alloc, length as usize)?;
            append_behind(head, payload, &mut text)?;
            return Ok(Bytes::from_vec(text)?);
        }
        let len = length as usize;
        self.block.begin(len)?;
        append_behind(head, payload, &mut self.block)?;
        self.block.finish(len)
    }

    /// `head`, and bulk strings of these two payloads. Refused only for want of memory.
    pub fn bulks_behind(
        &mut self,
        head: &[u8],
        first: &[u8],
        second: &[u8],
    ) -> Result<Bytes, AllocError>
        ensures { IfOk result
            (λ bytes. bytes ≡ head.now ++ text (bulk first.now) ++ text (bulk second.now)) }
    {
        let before = (head.len() as u64).saturating_add(bulk_len(first.len() as u64));
        let length = before.saturating_add(bulk_len(second.len() as u64));
        if length > MAX_SHORT as u64 {
            let mut text = Vec::with_capacity(self.alloc, length as usize)?;
            append_behind(head, first, &mut text)?;
            append_bulk(second, &mut text)?;
            return Ok(Bytes::from_vec(text)?);
        }
        let len = length as usize;
        self.block.begin(len)?;
        append_behind(head, first, &mut self.block)?;
        append_bulk(second, &mut self.block)?;
        self.block.finish(len)
    }
}

#[inline(always)]
fn text_around(value: &Value) -> Option<&Bytes>
    ensures { IfSome result (λ bytes. bytes.now ≡ text (tree_of value.now)) }
{
    match value {
        Value::Bulk(payload) => payload.text(),
        _ => None,
    }
}
