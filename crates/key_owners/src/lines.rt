//! Keys that come as lines, each told with its owner.
ghost use Rattle.std.specs.Prelude.{◌≡◌, ◌≢◌, ◌+◌, ◌++◌, ◌≤◌, ◌^◌, ◌∷◌, [], ℕ, List, min, IfOk, IfErr, OnOk, OnErr};
ghost use Rattle.key_owners.specs.Lines.{EndsWith, IsFaultAt, IsNoLastKey, IsOwnerLine, MemoryOr, StopsAt, TakesIn, longest, newline, number_of, tab};

use crate::error::KeyFault;
use crate::owners::KeyOwners;
use hex::FromHexError;
use limits::MAX_BULK;
use std::alloc::Global;
use std::marker::Model;

/// Keys that come as lines, in pieces.
#[derive(Drop)]
pub struct KeyLines {
    owners: KeyOwners,
    is_hex: bool,
    line: Vec<u8>,
    ended: u64,
}

impl Model for KeyLines {
    ghost use Rattle.std.specs.Prelude.{Contains};
    ghost use Rattle.key_owners.specs.Lines.{Telling, newline};

    ghost Value = { Telling };

    ghost view = { λ k. record {
      owners = k.owners;
      is_hex = k.is_hex;
      open_line = k.line.items;
      ended = k.ended;
    } };

    ghost invariant = { λ k. ¬ Contains k.line.items newline };
}

impl KeyLines {
    /// No line has come. With `is_hex` lines are hexadecimal, of either case.
    pub fn new(alloc: Global, owners: KeyOwners, is_hex: bool) -> KeyLines
        ensures { result ≡ record { owners = owners; is_hex = is_hex; open_line = []; ended = 0 } }
    {
        KeyLines {
            owners,
            is_hex,
            line: Vec::new(alloc),
            ended: 0,
        }
    }

    /// Takes bytes in, and appends to `out`, for each line that they end, the line, a tab and its key's host.
    ///
    /// Refused with `TooLong` at a byte past a key's `MAX_BULK`, and with `NotHex` at the end of a line without a key; `out`
    /// tells of the lines before. Refused with `NoMemory`; `out` isn't to be used then.
    pub fn take(&mut self, alloc: Global, bytes: &[u8], out: &mut Vec<u8>) -> Result<(), KeyFault>
        ensures ok { OnOk result ((text : List ℕ) × (out.new.items ≡ out.old.items ++ text)
            × TakesIn self.old bytes.now self.new text) }
        ensures refused { IfErr result (λ e. MemoryOr e ((text : List ℕ)
            × (out.new.items ≡ out.old.items ++ text) × StopsAt self.old bytes.now self.new text e)) }
    {
        self.takes_nothing();
        for &byte in bytes {
            self.take_byte(alloc, byte, out)?;
        }
        Ok(())
    }

    /// Appends what is told of a last line without a newline, if it has a byte. Refused with `NotHex` and `NoMemory`.
    pub fn finish(&self, alloc: Global, out: &mut Vec<u8>) -> Result<(), KeyFault>
        ensures ok { OnOk result ((text : List ℕ) × (out.new.items ≡ out.old.items ++ text)
            × EndsWith self.now text) }
        ensures refused { IfErr result (λ e. IsNoLastKey self.now e) }
        ensures same { IfErr result (λ e. MemoryOr e (out.new.items ≡ out.old.items)) }
    {
        if self.line.is_empty() {
            return Ok(());
        }
        self.put_line(alloc, out)
    }

    // A law: so it stands before a byte came.
    pub(crate) fn takes_nothing(&self)
        ensures { TakesIn self.now [] self.now [] }
    {
        let _ended = self.ended;
    }

    fn take_byte(&mut self, alloc: Global, byte: u8, out: &mut Vec<u8>) -> Result<(), KeyFault>
        ensures ok { OnOk result ((text : List ℕ) × (out.new.items ≡ out.old.items ++ text)
            × TakesIn self.old (byte ∷ []) self.new text) }
        ensures refused { IfErr result (λ e. MemoryOr e ((self.new ≡ self.old)
            × (out.new.items ≡ out.old.items)
            × ((rest : List ℕ) → IsFaultAt self.old (byte ∷ rest) e))) }
    {
        if byte == b'\n' {
            self.put_line(alloc, out)?;
            self.line.clear();
            self.ended = self.ended.saturating_add(1);
            return Ok(());
        }
        if self.line.len() >= self.longest() {
            return Err(KeyFault::TooLong {
                line: self.number(),
            });
        }
        self.line.push(byte)?;
        Ok(())
    }

    // Appends what is told of the open line.
    fn put_line(&self, alloc: Global, out: &mut Vec<u8>) -> Result<(), KeyFault>
        ensures ok { OnOk result ((text : List ℕ) × (out.new.items ≡ out.old.items ++ text)
            × IsOwnerLine self.now.owners self.now.is_hex self.now.open_line text) }
        ensures refused { IfErr result (λ e. IsNoLastKey self.now e) }
        ensures same { IfErr result (λ e. MemoryOr e (out.new.items ≡ out.old.items)) }
    {
        if !self.is_hex {
            return put_owner(&self.line, self.owners.owner(&self.line), out);
        }
        match hex::decode(alloc, self.line.as_slice()) {
            Ok(key) => put_owner(&self.line, self.owners.owner(&key), out),
            Err(FromHexError::OutOfMemory) => Err(KeyFault::NoMemory),
            Err(_) => Err(KeyFault::NotHex {
                line: self.number(),
            }),
        }
    }

    fn longest(&self) -> usize
        ensures { result ≡ longest self.now.is_hex }
    {
        let most = MAX_BULK as usize;
        if self.is_hex { 2 * most } else { most }
    }

    fn number(&self) -> u64
        ensures { result ≡ number_of self.now }
    {
        self.ended.saturating_add(1)
    }
}

fn put_owner(line: &[u8], name: &[u8], out: &mut Vec<u8>) -> Result<(), KeyFault>
    ensures ok { OnOk result (out.new.items
        ≡ out.old.items ++ (line.now ++ tab ∷ (name.now ++ newline ∷ []))) }
    ensures memory { IfErr result (λ e. e ≡ KeyFault.NoMemory) }
{
    out.extend_from_slice(line)?;
    out.push(b'\t')?;
    out.extend_from_slice(name)?;
    out.push(b'\n')?;
    Ok(())
}
