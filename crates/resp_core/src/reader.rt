ghost use Rattle.std.specs.Prelude.{◌≡◌, ◌≢◌, ◌⊎◌, ◌++◌, [], Ok, Err, Some, None, OnOk, OnErr, IfOk, IfErr, IfSome, IfNone, IsErrOf, ◌<◌, List, ℕ};
ghost use Rattle.resp_core.specs.Tree.{Tree};
ghost use Rattle.resp_core.specs.ReaderState.{Stands, StandsBehind, Unmoved, Leaves, unread_bytes};
ghost use Rattle.resp_core.specs.Stream.{HasRefusal};
ghost use Rattle.resp_core.specs.NextValue.{GivesValue, GivesNone, TellsRefusal};
ghost use Rattle.resp_core.specs.Offset.{offset_of, number_of};
ghost use Rattle.resp_core.specs.Value.{tree_of};
ghost use Rattle.resp_core.specs.Command.{command_of};

use crate::error::RespError;
use crate::partial_value::{Halt, PartialValue};
use crate::spelled_command::{MAX_WORDS, SpelledCommand};
use crate::value::Value;
use limits::{MAX_CLIENT_MEMBERS, MAX_HOST_MEMBERS};
use std::alloc::{AllocError, Global};
use std::marker::Model;

/// The most members of an array.
///
/// Other limits are the same for all streams: 1,048,576 bytes of a bulk string, 65,536 of a line, 8,388,608 of an
/// outermost value's text, and eight nested arrays. A null array counts as one.
#[derive(Clone, Copy, Debug, PartialEq, Eq, Drop)]
pub struct Limits {
    /// The most members of an array.
    pub array: u32,
}

impl Limits {
    /// A client's commands.
    pub const CLIENT: Limits = Limits {
        array: MAX_CLIENT_MEMBERS,
    };

    /// A host's replies.
    pub const HOST: Limits = Limits {
        array: MAX_HOST_MEMBERS,
    };
}

/// A reader of a stream that comes in any pieces.
///
/// It is fed the bytes in order, and returns the values one after another. A payload of at least 16,384 bytes and
/// an eighth of its buffer is returned as a part of that buffer; any other is copied. One of fewer than 10,000
/// bytes lies in its text (`Payload::text`), if that came in one piece in the one spelling.
pub struct Reader {
    progress: PartialValue,
    // At most the greatest `u64`.
    consumed: u64,
    array: u32,
    refusal: Option<RespError>,
}

impl Drop for Reader {
    fn drop(self) {
        let Reader {
            progress: _,
            consumed: _,
            array: _,
            refusal: _,
        } = self;
    }
}

impl Model for Reader {
    ghost use Rattle.resp_core.specs.ReaderState.{ReaderState, IsReached, state_of};
    ghost use Rattle.resp_core.specs.PartialValue.{IsGood};
    ghost use Rattle.std.specs.Coded.{codes};
    ghost use Rattle.resp_core.specs.Code.{tree_code};

    ghost Value = { ReaderState };

    ghost coded = { Prim.hlevel (codes, tree_code) };

    ghost view = { λ r. state_of r.array r.consumed r.progress r.refusal };

    ghost invariant = { λ r. IsGood r.array r.progress × IsReached r.array r.progress };
}

impl Reader {
    /// A reader at the start of a stream.
    pub fn new(alloc: Global, limits: Limits) -> Reader
        ensures most { result.most ≡ limits.array }
        ensures stands { Stands result [] [] }
        ensures refusal { result.refusal ≡ None }
    {
        Reader {
            progress: PartialValue::new(alloc),
            consumed: 0,
            array: limits.array,
            refusal: None,
        }
    }

    /// The bytes fed, without the texts of the values returned; 0 after a refusal 102 to 107. At most 8,388,608
    /// after `next_value` has answered `None`.
    pub fn held(&self) -> u64
        ensures is { result ≡ unread_bytes self.now }
        ensures left { (b : List ℕ) (ts : List Tree) → Stands self.now b ts
            → IfNone self.now.refusal (Leaves self.now.most b ts result) }
        ensures told { IfSome self.now.refusal (λ _. result ≡ 0) }
    {
        match self.refusal {
            None => self.progress.held(),
            Some(_) => 0,
        }
    }

    /// Starts a new stream with the held bytes, from which offsets count. There must not have been a refusal.
    pub fn begin_behind(&mut self)
        requires { self.old.refusal ≡ None }
        ensures stands { (b : List ℕ) (ts : List Tree) → Stands self.old b ts
            → StandsBehind self.old.most b ts self.new }
        ensures most { self.new.most ≡ self.old.most }
        ensures refusal { self.new.refusal ≡ None }
        ensures unread { unread_bytes self.new ≡ unread_bytes self.old }
    {
        self.consumed = 0;
    }

    /// Takes the next piece of the stream.
    ///
    /// Refused 101 (no memory): nothing has changed, and the piece may be fed again. Refused by 102 to 107 once
    /// `next_value` has returned that refusal.
    pub fn feed(&mut self, piece: &[u8]) -> Result<(), RespError>
        ensures ok { OnOk result ((b : List ℕ) (ts : List Tree) → Stands self.old b ts
            → Stands self.new (b ++ piece.now) ts) }
        ensures most { self.new.most ≡ self.old.most }
        ensures err { OnErr result (self.new ≡ self.old) }
        ensures told { IfErr result (λ e. (e ≡ RespError.NoMemory) ⊎ (self.old.refusal ≡ Some e)) }
        ensures refused { IfErr result (λ e. e ≢ RespError.NoMemory → (b : List ℕ) (ts : List Tree)
            → Stands self.old b ts
            → HasRefusal self.old.most b ts (offset_of e) (number_of e)) }
        ensures stays { IfSome self.old.refusal (λ e. result ≡ Err e) }
        ensures refusal { self.new.refusal ≡ self.old.refusal }
    {
        if let Some(refusal) = self.refusal {
            return Err(refusal);
        }
        self.progress.feed(piece)?;
        Ok(())
    }

    /// The next value as its text, if it is a short command in its one spelling that has come completely: at most nine
    /// words, each of less than 1,000 bytes, in at most 512 bytes.
    ///
    /// `None`: it isn't known to be such a command, nothing has changed, and `next_value` reads on. Refused only for want of
    /// memory: nothing has changed.
    pub fn next_spelled(&mut self) -> Result<Option<SpelledCommand>, AllocError>
        ensures given { IfOk result
            (λ o. IfSome o (λ c. GivesValue self.old self.new (command_of c))) }
        ensures none { IfOk result (λ o. IfNone o (self.new ≡ self.old)) }
        ensures err { OnErr result (self.new ≡ self.old) }
        ensures refusal { self.new.refusal ≡ self.old.refusal }
        ensures most { self.new.most ≡ self.old.most }
    {
        if let Some(_) = self.refusal {
            return Ok(None);
        }
        if (self.array as u64) < MAX_WORDS {
            return Ok(None);
        }
        match self.progress.next_spelled(self.array as u64)? {
            Some((command, len)) => {
                self.consumed = self.consumed.saturating_add(len as u64);
                Ok(Some(command))
            }
            None => Ok(None),
        }
    }

    /// The next complete value, or `None` if it hasn't come completely.
    ///
    /// Refused 101 (no memory): bytes and values are as before, and the next call continues. Refused 102 to 107 at the
    /// first byte with which the unfinished value is no beginning of a text, or at its byte 8,388,609, after all values
    /// before it. Where two of these numbers fit at that byte, the lower one is returned. From then on the reader holds
    /// no bytes, and `feed` and `next_value` return the same refusal.
    pub fn next_value(&mut self) -> Result<Option<Value>, RespError>
        ensures given { IfOk result
            (λ o. IfSome o (λ v. GivesValue self.old self.new (tree_of v))) }
        ensures none { IfOk result (λ o. IfNone o (GivesNone self.old self.new)) }
        ensures refused { IfErr result
            (λ e. e ≢ RespError.NoMemory → TellsRefusal self.old self.new e) }
        ensures untold { OnOk result (self.new.refusal ≡ None) }
        ensures memory { IsErrOf result RespError.NoMemory → Unmoved self.old self.new }
        ensures stays { IfSome self.old.refusal (λ e. result ≡ Err e) }
        ensures most { self.new.most ≡ self.old.most }
    {
        if let Some(refusal) = self.refusal {
            return Err(refusal);
        }
        if self.progress.is_short() {
            return Ok(None);
        }
        let alloc = self.progress.pending.alloc();
        match self.progress.next_value(alloc, self.array as u64) {
            Ok(Some((value, len))) => {
                self.consumed = self.consumed.saturating_add(len as u64);
                Ok(Some(value))
            }
            Ok(None) => Ok(None),
            Err(Halt::NoMemory) => Err(RespError::NoMemory),
            Err(Halt::Refused(refusal, place)) => {
                let error = refusal.at(self.consumed.saturating_add(place as u64));
                self.progress.begin_anew(alloc);
                self.refusal = Some(error);
                Err(error)
            }
        }
    }
}
