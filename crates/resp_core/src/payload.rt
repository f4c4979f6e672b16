ghost use Rattle.std.specs.Prelude.{◌≡◌, ◌+◌, List, ℕ, length, IfOk, IfSome};
ghost use Rattle.resp_core.specs.Tree.{bulk};
ghost use Rattle.resp_core.specs.Text.{text};
ghost use Rattle.resp_core.specs.Text.{text as spelling};
ghost use Rattle.resp_core.specs.Stream.{told_offset};

use crate::text::bulk_len;
use bytes::Bytes;
use std::alloc::AllocError;
use std::marker::Model;

const END_LEN: usize = 2;

/// The payload of a bulk string, which contracts see as bytes. It may lie within the string's text as that was
/// read; then the text can be sent on as it came.
pub struct Payload {
    held: Held,
}

impl Drop for Payload {
    fn drop(self) {
        let Payload { held: _ } = self;
    }
}

#[derive(Drop)]
pub(crate) enum Held {
    Alone(Bytes),
    // In the one spelling of its bulk string, behind a head of so many bytes.
    InText { head: u8, text: Bytes },
}

impl Model for Payload {
    ghost use Rattle.std.specs.Prelude.{List, ℕ};
    ghost use Rattle.resp_core.specs.Payload.{payload_in, IsHeld};

    ghost Value = { List ℕ };

    ghost view = { λ p. payload_in p.held };

    ghost invariant = { λ p. IsHeld p.held };
}

impl Payload {
    /// A payload of these bytes.
    #[inline(always)]
    pub fn new(bytes: Bytes) -> Payload
        ensures { result ≡ bytes }
    {
        Payload {
            held: Held::Alone(bytes),
        }
    }

    #[inline(always)]
    pub(crate) fn in_text(head: u8, text: Bytes) -> Payload
        requires { (s : List ℕ) × (text ≡ spelling (bulk s)) × (head + length s + 2 ≡ length text) }
        ensures { (s : List ℕ) → text ≡ spelling (bulk s) → head + length s + 2 ≡ length text
            → result ≡ s }
    {
        Payload {
            held: Held::InText { head, text },
        }
    }

    /// Its bytes.
    #[inline(always)]
    pub fn as_slice(&self) -> &[u8]
        ensures { result.now ≡ self.now }
    {
        match &self.held {
            Held::Alone(bytes) => bytes.as_slice(),
            Held::InText { head, text } => {
                &text.as_slice()[*head as usize..text.len() - END_LEN]
            }
        }
    }

    /// The number of its bytes.
    #[inline(always)]
    pub fn len(&self) -> usize
        ensures { result ≡ length self.now }
    {
        self.as_slice().len()
    }

    /// Its bytes, shared. Refused only for want of memory.
    #[inline(always)]
    pub fn bytes(&self) -> Result<Bytes, AllocError>
        ensures { IfOk result (λ bytes. bytes ≡ self.now) }
    {
        match &self.held {
            Held::Alone(bytes) => bytes.clone(),
            Held::InText { head, text } => text.slice(*head as usize..text.len() - END_LEN),
        }
    }

    /// An equal payload that shares its bytes and text. Refused only for want of memory.
    #[inline(always)]
    pub fn share(&self) -> Result<Payload, AllocError>
        ensures { IfOk result (λ p. p ≡ self.now) }
    {
        let held = match &self.held {
            Held::Alone(bytes) => Held::Alone(bytes.clone()?),
            Held::InText { head, text } => Held::InText {
                head: *head,
                text: text.clone()?,
            },
        };
        Ok(Payload { held })
    }

    /// The one spelling of its bulk string, if the payload lies in it.
    #[inline(always)]
    pub fn text(&self) -> Option<&Bytes>
        ensures { IfSome result (λ bytes. bytes.now ≡ text (bulk self.now)) }
    {
        match &self.held {
            Held::Alone(_) => None,
            Held::InText { text, .. } => Some(text),
        }
    }

    #[inline(always)]
    pub(crate) fn text_len(&self) -> u64
        ensures { result ≡ told_offset (length (text (bulk self.now))) }
    {
        match self.text() {
            Some(text) => text.len() as u64,
            None => bulk_len(self.len() as u64),
        }
    }
}
