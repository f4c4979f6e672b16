ghost use Rattle.std.specs.Prelude.{◌≡◌, ◌++◌, [], OnOk, OnErr, IfErr, length, min, take, drop, codes};
ghost use Rattle.resp_core.specs.Value.{tree_of};
ghost use Rattle.resp_core.specs.Text.{text};

use crate::error::StubError;
use crate::reply::Reply;
use resp_core::put_text;
use std::alloc::Global;
use std::marker::Model;

/// While this many bytes of replies are unread, a link answers no request.
pub const MAX_UNREAD: usize = 65_536;

// The most bytes of a buffer that is kept while no byte is unread.
const MAX_IDLE: usize = 131_072;

/// The unread bytes of replies.
#[derive(Drop)]
pub struct Unread {
    alloc: Global,
    texts: Vec<u8>,
    // Bytes in front that were read.
    given: usize,
}

impl Model for Unread {
    ghost use Rattle.std.specs.Prelude.{List, ℕ, ◌≤◌, length, drop};

    ghost Value = { List ℕ };

    ghost view = { λ u. drop u.given u.texts.items };

    ghost invariant = { λ u. u.given ≤ length u.texts.items };
}

impl Unread {
    pub(crate) fn new(alloc: Global) -> Unread
        ensures { result ≡ [] }
    {
        Unread {
            alloc,
            texts: Vec::new(alloc),
            given: 0,
        }
    }

    pub(crate) fn len(&self) -> usize
        ensures { result ≡ length self.now }
    {
        self.texts.len() - self.given
    }

    pub(crate) fn put(&mut self, reply: &Reply) -> Result<(), StubError>
        ensures ok { OnOk result (self.new ≡ self.old ++ text (tree_of reply.now.value)) }
        ensures err { OnErr result (self.new ≡ self.old) }
        ensures memory { IfErr result (λ e. e ≡ StubError.NoMemory) }
    {
        self.settle();
        if put_text(self.alloc, &reply.value, &mut self.texts).is_err() {
            return Err(StubError::NoMemory);
        }
        Ok(())
    }

    pub(crate) fn put_garbage(&mut self) -> Result<(), StubError>
        ensures ok { OnOk result (self.new ≡ self.old ++ codes "?\r\n") }
        ensures err { OnErr result (self.new ≡ self.old) }
        ensures memory { IfErr result (λ e. e ≡ StubError.NoMemory) }
    {
        self.texts.extend_from_slice(b"?\r\n")?;
        Ok(())
    }

    fn settle(&mut self)
        ensures { self.new ≡ self.old }
    {
        if self.given < MAX_UNREAD {
            return;
        }
        let len = self.texts.len() - self.given;
        self.texts.copy_within(self.given.., 0);
        self.texts.truncate(len);
        self.given = 0;
    }

    pub(crate) fn give(&mut self, buffer: &mut [u8]) -> usize
        ensures count { result ≡ min (length buffer.old) (length self.old) }
        ensures bytes { take result buffer.new ≡ take result self.old }
        ensures rest { self.new ≡ drop result self.old }
        ensures len { length buffer.new ≡ length buffer.old }
    {
        let count = buffer.len().min(self.len());
        buffer[..count].copy_from_slice(&self.texts[self.given..self.given + count]);
        self.given += count;
        self.clear();
        count
    }

    fn clear(&mut self)
        ensures { self.new ≡ self.old }
    {
        if self.given < self.texts.len() {
            return;
        }
        if self.texts.capacity() > MAX_IDLE {
            self.texts = Vec::new(self.alloc);
        } else {
            self.texts.clear();
        }
        self.given = 0;
    }
}
