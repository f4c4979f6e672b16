//! A list of bytes that only proofs read. It takes no memory, and its methods do nothing at run time.
ghost use Rattle.std.specs.Prelude.{◌≡◌, ◌++◌, ℕ, List, [], take};
ghost use Rattle.std.specs.Borrow.{ftrue};

use std::marker::Model;

/// The bytes that a device moved, the oldest first.
#[derive(Drop)]
pub struct ByteLog {
    pub ghost bytes: { List ℕ },
}

impl Model for ByteLog {
    ghost also_owns = { λ _. ftrue };
}

#[derive(Clone, Copy, Drop)]
struct Piece<'a> {
    bytes: &'a [u8],
    count: usize,
}

impl ByteLog {
    /// Without a byte.
    #[inline(always)]
    pub fn new() -> ByteLog
        ensures { result.bytes ≡ [] }
    {
        ByteLog {}
    }

    #[inline(always)]
    fn then(&self, _piece: &Piece<'_>) -> ByteLog
        ensures { result.bytes ≡ self.now.bytes ++ take _piece.now.count _piece.now.bytes.now }
    {
        ByteLog {}
    }

    /// Its bytes, and behind them the first `count` of these.
    #[inline(always)]
    pub fn and(&self, bytes: &[u8], count: usize) -> ByteLog
        ensures { result.bytes ≡ self.now.bytes ++ take count bytes.now }
    {
        self.then(&Piece { bytes, count })
    }
}
