ghost use Rattle.std.specs.Prelude.{◌≡◌, ◌≤◌, [], IfOk, OnOk};

use crate::sink::Sink;
use bytes::{Bytes, BytesMut};
use std::alloc::{AllocError, Global};
use std::marker::Model;

// The longest block has room for at least this many texts; a longer text doesn't share one.
const MIN_TEXTS: usize = 4;

// The first block is this fraction of the longest.
const FIRST_BLOCK: usize = 8;

/// The free rest of a block, with the text that is being written at its front.
#[derive(Drop)]
pub(crate) struct TextBlock {
    alloc: Global,
    left: BytesMut,
    block_len: usize,
    longest: usize,
}

impl Model for TextBlock {
    ghost use Rattle.bytes.specs.Filled.{Filled, filled_code};

    ghost Value = { Filled };

    ghost coded = { filled_code };

    ghost view = { λ b. b.left };
}

impl Sink for TextBlock {
    ghost written = { λ b. b.items };

    ghost room = { λ b. b.spare };

    #[inline(always)]
    fn reserve(&mut self, more: usize) -> Result<(), AllocError> {
        self.left.reserve(more)
    }

    #[inline(always)]
    fn put_reserved(&mut self, bytes: &[u8]) {
        self.left.extend_reserved(bytes);
    }
}

impl TextBlock {
    /// Later blocks have at most `longest` bytes.
    pub(crate) fn new(alloc: Global, longest: usize) -> TextBlock {
        TextBlock {
            alloc,
            left: BytesMut::new(alloc),
            block_len: 0,
            longest,
        }
    }

    /// Begins a text of at most `len` bytes. A text that was begun and not finished is dropped.
    #[inline(always)]
    pub(crate) fn begin(&mut self, len: usize) -> Result<(), AllocError>
        ensures empty { OnOk result (self.new.items ≡ []) }
        ensures room { OnOk result (len ≤ self.new.spare) }
    {
        self.left.clear();
        if self.left.capacity() < len {
            self.begin_block(len)?;
        }
        Ok(())
    }

    /// If the text is longer than `len`, it keeps its block to itself.
    #[inline(always)]
    pub(crate) fn finish(&mut self, len: usize) -> Result<Bytes, AllocError>
        ensures { IfOk result (λ bytes. bytes ≡ self.old.items) }
    {
        let text_len = self.left.len();
        let text = self.left.freeze_to(text_len)?;
        if text_len > len {
            self.left = BytesMut::new(self.alloc);
        }
        Ok(text)
    }

    /// A text of more than a quarter of the longest block has a block of its own.
    #[inline(always)]
    pub(crate) fn copy_of(&mut self, text: &[u8]) -> Result<Bytes, AllocError>
        ensures { IfOk result (λ bytes. bytes ≡ text.now) }
    {
        if text.len() > self.longest / MIN_TEXTS {
            return Bytes::copy_from_slice(self.alloc, text);
        }
        self.begin(text.len())?;
        self.left.extend_reserved(text);
        self.finish(text.len())
    }

    // It is twice as long as the last one, or as its first text if that is longer.
    fn begin_block(&mut self, text_len: usize) -> Result<(), AllocError>
        ensures empty { OnOk result (self.new.items ≡ []) }
        ensures room { OnOk result (text_len ≤ self.new.spare) }
    {
        let block_len = self
            .block_len
            .saturating_mul(2)
            .max(self.longest / FIRST_BLOCK)
            .min(self.longest)
            .max(text_len);
        self.left = BytesMut::with_capacity(self.alloc, block_len)?;
        self.block_len = block_len;
        Ok(())
    }
}
