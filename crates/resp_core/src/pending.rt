//! The bytes of a stream that were fed and not taken.
ghost use Rattle.std.specs.Prelude.{◌≡◌, ◌≤◌, ◌<◌, ◌^◌, ◌++◌, [], length, take, drop, min, IfOk, OnOk, OnErr};
ghost use Rattle.resp_core.specs.declared.pending.TheConstants.{MAX_COPY_BLOCK};

use crate::text_block::TextBlock;
use bytes::{Bytes, BytesMut};
use std::alloc::{AllocError, Global};
use std::marker::Model;
use std::mem;

// The most bytes of a block for copies of short texts. An idle connection can keep this many.
pub(crate) const MAX_COPY_BLOCK: usize = 512;

// Shorter texts are copied, and so are those of less than one in `MAX_KEPT` bytes of the buffer.
const MIN_SHARED: usize = 16_384;

pub(crate) const MAX_KEPT: usize = 8;

/// Contracts see the bytes and the room behind them.
///
/// Texts of at most `MAX_COPY_BLOCK` bytes are parts of copies that many share.
#[derive(Drop)]
pub(crate) struct Pending {
    bytes: BytesMut,
    copied: Bytes,
    copies: TextBlock,
}

impl Model for Pending {
    ghost use Rattle.std.specs.Prelude.{◌≡◌, length, take};
    ghost use Rattle.bytes.specs.Filled.{Filled, filled_code};

    ghost Value = { Filled };

    ghost coded = { filled_code };

    ghost view = { λ p. p.bytes };

    ghost invariant = { λ p. p.copied ≡ take (length p.copied) p.bytes.items };
}

impl Pending {
    pub(crate) fn new(alloc: Global) -> Pending
        ensures { result.items ≡ [] }
    {
        Pending {
            bytes: BytesMut::new(alloc),
            copied: Bytes::new(),
            copies: TextBlock::new(alloc, MAX_COPY_BLOCK),
        }
    }

    pub(crate) fn len(&self) -> usize
        ensures value { result ≡ length self.now.items }
        ensures bound { result < 2 ^ 63 }
    {
        self.bytes.len()
    }

    /// The bytes that came count too.
    pub(crate) fn capacity(&self) -> usize {
        self.bytes.capacity()
    }

    pub(crate) fn as_slice(&self) -> &[u8]
        ensures { result.now ≡ self.now.items }
    {
        self.bytes.as_slice()
    }

    pub(crate) fn feed(&mut self, piece: &[u8]) -> Result<(), AllocError>
        ensures ok { OnOk result (self.new.items ≡ self.old.items ++ piece.now) }
        ensures err { OnErr result (self.new.items ≡ self.old.items) }
    {
        match piece {
            // (one byte is stored without a call that copies any length)
            [byte] => self.bytes.extend_from_slice(&[*byte]),
            _ => self.bytes.extend_from_slice(piece),
        }
    }

    pub(crate) fn advance(&mut self, count: usize)
        requires { count ≤ length self.old.items }
        ensures items { self.new.items ≡ drop count self.old.items }
    {
        self.copied.advance(count.min(self.copied.len()));
        self.bytes.advance(count);
    }

    /// Takes bytes from the front, and returns the first `len`. There has been room for `room` bytes.
    #[inline(always)]
    pub(crate) fn cut(&mut self, room: usize, len: usize, taken: usize) -> Result<Bytes, AllocError>
        requires inside { (len ≤ taken) × (taken ≤ length self.old.items) }
        ensures front { IfOk result (λ b. b ≡ take len self.old.items) }
        ensures rest { OnOk result (self.new.items ≡ drop taken self.old.items) }
        ensures err { OnErr result (self.new.items ≡ self.old.items) }
    {
        if len > MAX_COPY_BLOCK {
            return self.cut_long(room, len, taken);
        }
        if taken == self.bytes.len() {
            return self.cut_last(len);
        }
        cover(
            &mut self.copies,
            &mut self.copied,
            self.bytes.as_slice(),
            len,
        )?;
        let front = self.copied.slice(0..len)?;
        self.advance(taken);
        Ok(front)
    }

    // Nothing is copied for the bytes behind, and no copy is kept.
    fn cut_last(&mut self, len: usize) -> Result<Bytes, AllocError>
        requires { len ≤ length self.old.items }
        ensures front { IfOk result (λ b. b ≡ take len self.old.items) }
        ensures rest { OnOk result (self.new.items ≡ []) }
        ensures err { OnErr result (self.new.items ≡ self.old.items) }
    {
        let copied = mem::replace(&mut self.copied, Bytes::new());
        let front = front_from(copied, &mut self.copies, self.bytes.as_slice(), len)?;
        self.bytes.clear();
        Ok(front)
    }

    // The text is no part of a shared copy.
    fn cut_long(&mut self, room: usize, len: usize, taken: usize) -> Result<Bytes, AllocError>
        requires inside { (len ≤ taken) × (taken ≤ length self.old.items) }
        ensures front { IfOk result (λ b. b ≡ take len self.old.items) }
        ensures rest { OnOk result (self.new.items ≡ drop taken self.old.items) }
        ensures err { OnErr result (self.new.items ≡ self.old.items) }
    {
        let front = if len < MIN_SHARED || len < room / MAX_KEPT {
            let alloc = *self.bytes.allocator();
            let front = Bytes::copy_from_slice(alloc, &self.bytes.as_slice()[..len])?;
            self.bytes.advance(taken);
            front
        } else {
            let front = self.bytes.freeze_to(len)?;
            self.bytes.advance(taken - len);
            front
        };
        self.copied = Bytes::new();
        Ok(front)
    }

    pub(crate) fn give_back(&mut self)
        requires { self.old.items ≡ [] }
        ensures { self.new.items ≡ self.old.items }
    {
        self.bytes = BytesMut::new(*self.bytes.allocator());
    }

    /// Texts that are parts of the copy stay.
    pub(crate) fn forget_copies(&mut self)
        ensures { self.new ≡ self.old }
    {
        self.copied = Bytes::new();
    }

    pub(crate) fn alloc(&self) -> Global {
        *self.bytes.allocator()
    }
}

#[inline(always)]
fn cover(
    copies: &mut TextBlock,
    copied: &mut Bytes,
    bytes: &[u8],
    len: usize,
) -> Result<(), AllocError>
    requires inside { (len ≤ MAX_COPY_BLOCK) × (len ≤ length bytes.now) }
    requires first { copied.old ≡ take (length copied.old) bytes.now }
    ensures first { copied.new ≡ take (length copied.new) bytes.now }
    ensures long { OnOk result (len ≤ length copied.new) }
{
    if copied.len() < len {
        return copy_anew(copies, copied, bytes, len);
    }
    Ok(())
}

#[inline(never)]
fn copy_anew(
    copies: &mut TextBlock,
    copied: &mut Bytes,
    bytes: &[u8],
    len: usize,
) -> Result<(), AllocError>
    requires inside { (len ≤ MAX_COPY_BLOCK) × (len ≤ length bytes.now) }
    requires first { copied.old ≡ take (length copied.old) bytes.now }
    ensures first { copied.new ≡ take (length copied.new) bytes.now }
    ensures long { OnOk result (len ≤ length copied.new) }
{
    *copied = copies.copy_of(&bytes[..bytes.len().min(MAX_COPY_BLOCK)])?;
    Ok(())
}

fn front_from(
    copied: Bytes,
    copies: &mut TextBlock,
    bytes: &[u8],
    len: usize,
) -> Result<Bytes, AllocError>
    requires inside { len ≤ length bytes.now }
    requires first { copied ≡ take (length copied) bytes.now }
    ensures { IfOk result (λ b. b ≡ take len bytes.now) }
{
    if copied.len() < len {
        return copies.copy_of(&bytes[..len]);
    }
    let mut front = copied;
    front.truncate(len);
    Ok(front)
}
