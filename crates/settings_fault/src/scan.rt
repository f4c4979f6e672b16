//! One walk over a text: the entries of its object or array, or the first place where it is no JSON.

ghost use Rattle.std.specs.Prelude.{◌<◌, ◌-◌, ◌^◌, length};

use crate::token::{Refusal, Span, end_of_text, end_of_word, is_blank, refused, token_end};
use crate::wanted::Wanted;
use std::alloc::{AllocError, Global};

// As deep as `serde_json` reads.
const MAX_LEVELS: u32 = 127;

/// An entry of an object or an array.
#[derive(Clone, Copy, Drop)]
pub(crate) struct Entry {
    /// Its key, with its quotes; empty in an array.
    pub(crate) key: Span,
    pub(crate) value: Span,
}

/// What may come next.
#[derive(Clone, Copy, Drop)]
pub(crate) enum Wants {
    Object,
    Array,
    Value,
    ValueOrEnd,
    Key,
    KeyOrEnd,
    Colon,
    CommaOrEnd,
    End,
}

#[derive(Drop)]
struct Scan {
    wants: Wants,
    // A bit for each open level, set for an object.
    objects: u128,
    levels: u32,
    // Of the entry of the first level that has begun.
    key: Span,
    start: usize,
    entries: Vec<Entry>,
}

/// The entries of the object or array that fills this part of the text.
pub(crate) fn entries(
    alloc: Global,
    text: &[u8],
    part: Span,
    wants: Wants,
) -> Result<Vec<Entry>, Refusal> {
    let mut scan = Scan {
        wants,
        objects: 0,
        levels: 0,
        key: Span { start: 0, end: 0 },
        start: 0,
        entries: Vec::new(alloc),
    };
    let mut next = 0;
    for at in part.start..part.end.min(text.len()) {
        if at >= next && !is_blank(text[at]) {
            next = scan.take(alloc, text, at)?;
        }
    }
    if matches!(scan.wants, Wants::End) {
        Ok(scan.entries)
    } else {
        Err(refused(part.end, part.end, scan.wanted()))
    }
}

impl Scan {
    // Takes the token that begins there. Returns its end.
    fn take(&mut self, alloc: Global, text: &[u8], at: usize) -> Result<usize, Refusal>
        requires { at < length text.now }
    {
        let byte = text[at];
        if self.may_open(byte) {
            return self.open(at, byte == b'{');
        }
        if self.may_close(byte) {
            self.close(at)?;
            return Ok(at + 1);
        }
        match (self.wants, byte) {
            (Wants::CommaOrEnd, b',') if self.in_object() => self.wants = Wants::Key,
            (Wants::CommaOrEnd, b',') => self.wants = Wants::Value,
            (Wants::Colon, b':') => self.wants = Wants::Value,
            (Wants::Key | Wants::KeyOrEnd, b'"') => return self.take_key(alloc, text, at),
            (Wants::Value | Wants::ValueOrEnd, _) => return self.take_value(alloc, text, at),
            _ => return Err(refused(at, token_end(text, at), self.wanted())),
        }
        Ok(at + 1)
    }

    fn take_key(&mut self, alloc: Global, text: &[u8], at: usize) -> Result<usize, Refusal>
        requires { at < length text.now }
    {
        let end = end_of_text(alloc, text, at)?;
        if self.levels == 1 {
            self.key = Span { start: at, end };
        }
        self.wants = Wants::Colon;
        Ok(end)
    }

    // Takes a text, a number or a word.
    fn take_value(&mut self, alloc: Global, text: &[u8], at: usize) -> Result<usize, Refusal>
        requires { at < length text.now }
    {
        let end = if text[at] == b'"' {
            end_of_text(alloc, text, at)?
        } else {
            end_of_word(alloc, text, at, self.wanted())?
        };
        self.begin(at);
        self.end(end)?;
        Ok(end)
    }

    fn may_open(&self, byte: u8) -> bool {
        match self.wants {
            Wants::Object => byte == b'{',
            Wants::Array => byte == b'[',
            Wants::Value | Wants::ValueOrEnd => byte == b'{' || byte == b'[',
            _ => false,
        }
    }

    fn open(&mut self, at: usize, object: bool) -> Result<usize, Refusal>
        requires { at < 2 ^ 64 - 1 }
    {
        self.begin(at);
        if self.levels >= MAX_LEVELS {
            return Err(refused(at, at + 1, Wanted::Levels));
        }
        self.objects = (self.objects << 1) | object as u128;
        self.levels += 1;
        self.wants = if object {
            Wants::KeyOrEnd
        } else {
            Wants::ValueOrEnd
        };
        Ok(at + 1)
    }

    fn may_close(&self, byte: u8) -> bool {
        self.levels > 0
            && match (self.wants, byte) {
                (Wants::KeyOrEnd, b'}') | (Wants::ValueOrEnd, b']') => true,
                (Wants::CommaOrEnd, b'}') => self.in_object(),
                (Wants::CommaOrEnd, b']') => !self.in_object(),
                _ => false,
            }
    }

    fn close(&mut self, at: usize) -> Result<(), AllocError>
        requires { at < 2 ^ 64 - 1 }
    {
        self.objects >>= 1;
        self.levels = self.levels.saturating_sub(1);
        self.end(at + 1)
    }

    // A value begins.
    fn begin(&mut self, at: usize) {
        if self.levels == 1 {
            self.start = at;
        }
    }

    // A value ended.
    fn end(&mut self, end: usize) -> Result<(), AllocError> {
        if self.levels == 1 {
            let (key, start) = (self.key, self.start);
            self.entries.push(Entry {
                key,
                value: Span { start, end },
            })?;
        }
        self.wants = if self.levels == 0 {
            Wants::End
        } else {
            Wants::CommaOrEnd
        };
        Ok(())
    }

    fn in_object(&self) -> bool {
        self.objects & 1 == 1
    }

    fn wanted(&self) -> Wanted {
        match self.wants {
            Wants::Object => Wanted::Object,
            Wants::Array => Wanted::Array,
            Wants::Value => Wanted::Value,
            Wants::ValueOrEnd => Wanted::ValueOrEnd,
            Wants::Key => Wanted::Key,
            Wants::KeyOrEnd => Wanted::KeyOrEnd,
            Wants::Colon => Wanted::Colon,
            Wants::CommaOrEnd if self.in_object() => Wanted::CommaOrBrace,
            Wants::CommaOrEnd => Wanted::CommaOrBracket,
            Wants::End => Wanted::End,
        }
    }
}
